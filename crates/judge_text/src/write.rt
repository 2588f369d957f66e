//! Writing the text of a refutation. Each has one spelling.

use aud_event::{OutOfMemory, Plan};
use itoa::{Buffer, Integer};
use judge_clauses::{Atom, Literal, Read, Reason, Refutation, Step, Take};
use judge_laws::{CellLaw, FrontItem, ObjectLaw, QueueLaw, SumLaw};
use search_model::Cell;
use std::alloc::{Allocator, Global};

/// The part as it is.
fn text_of(text: &mut Vec<u8>, part: &str) -> Result<(), OutOfMemory> {
    text.extend_from_slice(part.as_bytes())?;
    Ok(())
}

/// A comma, and the number.
fn number<I: Integer>(text: &mut Vec<u8>, number: I) -> Result<(), OutOfMemory> {
    let mut buffer = Buffer::new();
    text_of(text, ",")?;
    text_of(text, buffer.format(number))
}

/// The name of the object, in quotes.
fn name(text: &mut Vec<u8>, plan: &Plan, object: u16) -> Result<(), OutOfMemory> {
    text_of(text, "\"")?;
    if let Some(decl) = plan.object(usize::from(object)) {
        text_of(text, &decl.name)?;
    }
    text_of(text, "\"")
}

/// A comma, and the name of the object.
fn object(text: &mut Vec<u8>, plan: &Plan, object: u16) -> Result<(), OutOfMemory> {
    text_of(text, ",")?;
    name(text, plan, object)
}

/// A comma, and the object and its element or key.
fn part(text: &mut Vec<u8>, plan: &Plan, of: u16, part: i64) -> Result<(), OutOfMemory> {
    text_of(text, ",[")?;
    name(text, plan, of)?;
    number(text, part)?;
    text_of(text, "]")
}

/// A comma, and the cell.
fn cell(text: &mut Vec<u8>, plan: &Plan, of: u16, cell: Cell) -> Result<(), OutOfMemory> {
    match cell {
        Cell::Whole => object(text, plan, of),
        Cell::Element(element) => part(text, plan, of, element),
        Cell::Key(key) => part(text, plan, of, key),
    }
}

/// A comma, the reader, and the cell.
fn read(text: &mut Vec<u8>, plan: &Plan, read: Read) -> Result<(), OutOfMemory> {
    number(text, read.reader)?;
    cell(text, plan, read.object, read.cell)
}

/// A comma, the taker, its queue, and the number of the take.
fn take(text: &mut Vec<u8>, plan: &Plan, take: Take) -> Result<(), OutOfMemory> {
    number(text, take.taker)?;
    object(text, plan, take.object)?;
    number(text, take.number)
}

/// A comma, the take, and the addition of the adder that is what is taken.
fn item(
    text: &mut Vec<u8>,
    plan: &Plan,
    taken: Take,
    adder: u32,
    addition: u32,
) -> Result<(), OutOfMemory> {
    take(text, plan, taken)?;
    number(text, adder)?;
    number(text, addition)
}

/// A comma, and the adder and the value of the item in front.
fn front(text: &mut Vec<u8>, front: FrontItem) -> Result<(), OutOfMemory> {
    number(text, front.adder)?;
    number(text, front.value)
}

/// What comes before an atom that is not so.
fn sign(text: &mut Vec<u8>, holds: bool) -> Result<(), OutOfMemory> {
    if holds {
        return text_of(text, "[");
    }
    text_of(text, "[\"not\",")
}

/// The atom, as it is so or not so.
fn atom(text: &mut Vec<u8>, plan: &Plan, atom: Atom, holds: bool) -> Result<(), OutOfMemory> {
    match atom {
        Atom::Before(first, second) => {
            let (first, second) = if holds {
                (first, second)
            } else {
                (second, first)
            };
            text_of(text, "[\"before\"")?;
            number(text, first)?;
            number(text, second)?;
        }
        Atom::Commits(tx) => {
            text_of(text, if holds { "[\"commits\"" } else { "[\"aborts\"" })?;
            number(text, tx)?;
        }
        Atom::Source(seen, source) => {
            sign(text, holds)?;
            text_of(text, "\"sees\"")?;
            read(text, plan, seen)?;
            number(text, source)?;
        }
        Atom::Opening(seen) => {
            sign(text, holds)?;
            text_of(text, "\"sees\"")?;
            read(text, plan, seen)?;
            text_of(text, ",null")?;
        }
        Atom::Item(taken, adder, addition) => {
            sign(text, holds)?;
            text_of(text, "\"takes\"")?;
            item(text, plan, taken, adder, addition)?;
        }
    }
    text_of(text, "]")
}

/// The literals of the clause, with commas between.
fn literals<A: Allocator>(
    text: &mut Vec<u8>,
    plan: &Plan,
    atoms: &Vec<Atom, A>,
    clause: &[Literal],
) -> Result<(), OutOfMemory> {
    for place in 0..clause.len() {
        if place > 0 {
            text_of(text, ",")?;
        }
        let literal = clause[place];
        if let Some(named) = atoms.get(literal.atom as usize) {
            atom(text, plan, *named, literal.holds)?;
        }
    }
    Ok(())
}

/// The word and the numbers.
fn numbers(text: &mut Vec<u8>, word: &str, list: &[u32]) -> Result<(), OutOfMemory> {
    text_of(text, word)?;
    for of in list {
        number(text, *of)?;
    }
    Ok(())
}

/// A comma, and the source, or `null`.
fn source(text: &mut Vec<u8>, source: Option<u32>) -> Result<(), OutOfMemory> {
    match source {
        Some(tx) => number(text, tx),
        None => text_of(text, ",null"),
    }
}

/// The law of cells, as the fields of a reason.
fn cell_law(text: &mut Vec<u8>, plan: &Plan, law: CellLaw) -> Result<(), OutOfMemory> {
    match law {
        CellLaw::Sources(seen) => {
            text_of(text, "\"sources\"")?;
            read(text, plan, seen)
        }
        CellLaw::SourceStands(seen, tx) => {
            text_of(text, "\"stands\"")?;
            read(text, plan, seen)?;
            number(text, tx)
        }
        CellLaw::Between(seen, from, other) => {
            text_of(text, "\"between\"")?;
            read(text, plan, seen)?;
            source(text, from)?;
            number(text, other)
        }
        CellLaw::Clash(tx, of, torn) => {
            text_of(text, "\"clash\"")?;
            number(text, tx)?;
            cell(text, plan, of, torn)
        }
    }
}

/// The law of sums, as the fields of a reason.
fn sum_law(text: &mut Vec<u8>, plan: &Plan, law: SumLaw) -> Result<(), OutOfMemory> {
    match law {
        SumLaw::Counter(reader, of) => {
            text_of(text, "\"counter\"")?;
            number(text, reader)?;
            object(text, plan, of)
        }
        SumLaw::Remainder(reader, of, modulus) => {
            text_of(text, "\"remainder\"")?;
            number(text, reader)?;
            object(text, plan, of)?;
            number(text, modulus)
        }
        SumLaw::Clash(tx, of) => {
            text_of(text, "\"counts\"")?;
            number(text, tx)?;
            object(text, plan, of)
        }
        SumLaw::Element(reader, of, element) => {
            text_of(text, "\"element\"")?;
            number(text, reader)?;
            object(text, plan, of)?;
            number(text, element)
        }
    }
}

/// The law of queues, as the fields of a reason.
fn queue_law(text: &mut Vec<u8>, plan: &Plan, law: QueueLaw) -> Result<(), OutOfMemory> {
    match law {
        QueueLaw::Items(taken) => {
            text_of(text, "\"items\"")?;
            take(text, plan, taken)
        }
        QueueLaw::ItemStands(taken, adder, addition) => {
            text_of(text, "\"item\"")?;
            item(text, plan, taken, adder, addition)
        }
        QueueLaw::Place(taken, adder, addition) => {
            text_of(text, "\"place\"")?;
            item(text, plan, taken, adder, addition)
        }
        QueueLaw::Empty(taker, of, place) => {
            text_of(text, "\"empty\"")?;
            number(text, taker)?;
            object(text, plan, of)?;
            number(text, place)
        }
        QueueLaw::Gone(taken, adder, addition, in_front) => {
            text_of(text, "\"gone\"")?;
            item(text, plan, taken, adder, addition)?;
            front(text, in_front)
        }
        QueueLaw::Left(taker, of, place, in_front) => {
            text_of(text, "\"left\"")?;
            number(text, taker)?;
            object(text, plan, of)?;
            number(text, place)?;
            front(text, in_front)
        }
    }
}

/// The fields of the reason.
fn reason<A: Allocator>(
    text: &mut Vec<u8>,
    plan: &Plan,
    reason: &Reason<ObjectLaw, A>,
) -> Result<(), OutOfMemory> {
    match reason {
        Reason::Units(list) => numbers(text, "\"units\"", list),
        Reason::Circle(list) => numbers(text, "\"turn\"", list),
        Reason::Law(ObjectLaw::Cell(law)) => cell_law(text, plan, *law),
        Reason::Law(ObjectLaw::Sum(law)) => sum_law(text, plan, *law),
        Reason::Law(ObjectLaw::Queue(law)) => queue_law(text, plan, *law),
    }
}

/// The line of the step.
fn step<A: Allocator>(
    text: &mut Vec<u8>,
    plan: &Plan,
    atoms: &Vec<Atom, A>,
    step: &Step<ObjectLaw, A>,
) -> Result<(), OutOfMemory> {
    text_of(text, "{\"by\":[")?;
    reason(text, plan, step.reason())?;
    text_of(text, "],\"c\":[")?;
    literals(text, plan, atoms, step.clause())?;
    text_of(text, "]}\n")
}

/// The text of a refutation for a plan: a header, and a line for each step, in their order.
pub fn write_refutation<A: Allocator>(
    alloc: Global,
    plan: &Plan,
    refutation: &Refutation<ObjectLaw, A>,
) -> Result<Vec<u8>, OutOfMemory> {
    let mut text = Vec::new(alloc);
    let mut buffer = Buffer::new();
    text_of(&mut text, "{\"refutation\":")?;
    text_of(&mut text, buffer.format(refutation.steps.len()))?;
    text_of(&mut text, "}\n")?;
    for of in &refutation.steps {
        step(&mut text, plan, &refutation.atoms, of)?;
    }
    Ok(text)
}
