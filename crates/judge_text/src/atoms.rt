//! The atoms of a refutation by their numbers, as its lines name them.

use crate::fields::Fields;
use aud_event::OutOfMemory;
use judge_clauses::{Atom, Literal, Read};
use search_model::Cell;
use std::alloc::Global;
use std::collections::BTreeMap;

/// What tells an atom from others: its case, and its numbers.
#[derive(Clone, Copy, PartialEq, Eq, PartialOrd, Ord)]
struct Sign {
    case: u8,
    first: u32,
    second: u32,
    object: u16,
    number: u32,
    cell: i64,
}

/// The element, the key, or 0.
fn number_of(cell: Cell) -> i64 {
    match cell {
        Cell::Whole => 0,
        Cell::Element(number) | Cell::Key(number) => number,
    }
}

/// What stands for an atom of what a read sees, of this case: the second number is that of the source, if there is one.
fn sign_of_read(case: u8, read: Read, second: u32) -> Sign {
    Sign {
        case,
        first: read.reader,
        second,
        object: read.object,
        number: 0,
        cell: number_of(read.cell),
    }
}

/// What stands for the atom in a map of atoms.
fn sign_of(atom: Atom) -> Sign {
    let none = Sign {
        case: 0,
        first: 0,
        second: 0,
        object: 0,
        number: 0,
        cell: 0,
    };
    match atom {
        Atom::Before(first, second) => Sign {
            first,
            second,
            ..none
        },
        Atom::Commits(first) => Sign {
            case: 1,
            first,
            ..none
        },
        Atom::Source(read, second) => sign_of_read(2, read, second),
        Atom::Opening(read) => sign_of_read(3, read, 0),
        Atom::Item(take, second, addition) => Sign {
            case: 4,
            first: take.taker,
            second,
            object: take.object,
            number: take.number,
            cell: i64::from(addition),
        },
    }
}

/// An atom, and whether it is so: of two transactions that with the less number is named first.
#[derive(Clone, Copy)]
struct Saying {
    atom: Atom,
    holds: bool,
}

/// That the first transaction stands before the second, by the atom that names the smaller number first.
fn before(first: u32, second: u32) -> Saying {
    if first <= second {
        Saying {
            atom: Atom::Before(first, second),
            holds: true,
        }
    } else {
        Saying {
            atom: Atom::Before(second, first),
            holds: false,
        }
    }
}

/// What the array says, which does not begin with `not`.
fn plain(fields: Fields<'_>) -> Option<Saying> {
    match (fields.word()?, fields.len()) {
        ("before", 3) => Some(before(fields.number(1)?, fields.number(2)?)),
        ("commits", 2) => Some(Saying {
            atom: Atom::Commits(fields.number(1)?),
            holds: true,
        }),
        ("aborts", 2) => Some(Saying {
            atom: Atom::Commits(fields.number(1)?),
            holds: false,
        }),
        ("sees", 4) => {
            let read = fields.read(1)?;
            let atom = match fields.number_or_null(3)? {
                Some(source) => Atom::Source(read, source),
                None => Atom::Opening(read),
            };
            Some(Saying { atom, holds: true })
        }
        ("takes", 6) => Some(Saying {
            atom: Atom::Item(fields.take(1)?, fields.number(4)?, fields.number(5)?),
            holds: true,
        }),
        _ => None,
    }
}

/// What the array says.
fn read_saying(fields: Fields<'_>) -> Option<Saying> {
    if fields.word()? != "not" {
        return plain(fields);
    }
    let saying = plain(fields.after(1)?)?;
    Some(Saying {
        atom: saying.atom,
        holds: !saying.holds,
    })
}

/// The atoms so far.
#[derive(Drop)]
pub(crate) struct Atoms {
    atoms: Vec<Atom>,
    numbers: BTreeMap<Sign, u32>,
}

impl Atoms {
    /// No atoms. It does not allocate.
    pub(crate) fn new(alloc: Global) -> Atoms {
        Atoms {
            atoms: Vec::new(alloc),
            numbers: BTreeMap::new(alloc),
        }
    }

    /// The atoms, each at the place of its number.
    pub(crate) fn into_list(self) -> Vec<Atom> {
        self.atoms
    }

    /// The number of the atom, which is the next one if the atom is new.
    fn number(&mut self, atom: Atom) -> Result<u32, OutOfMemory> {
        let sign = sign_of(atom);
        if let Some(number) = self.numbers.get(&sign) {
            return Ok(*number);
        }
        let number = u32::try_from(self.atoms.len()).unwrap_or(u32::MAX);
        self.atoms.push(atom)?;
        let _ = self.numbers.insert(sign, number)?;
        Ok(number)
    }

    /// The literal that the array spells, if it spells one.
    pub(crate) fn literal(&mut self, fields: Fields<'_>) -> Result<Option<Literal>, OutOfMemory> {
        let Some(saying) = read_saying(fields) else {
            return Ok(None);
        };
        let atom = self.number(saying.atom)?;
        Ok(Some(Literal {
            atom,
            holds: saying.holds,
        }))
    }
}
