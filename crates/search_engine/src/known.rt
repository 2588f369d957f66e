//! What is assigned: which literals hold, since when and why.

use crate::literals::{FALSE, NONE, TRUE, Table, neg, short, var};
use std::alloc::Global;

/// Why a literal holds.
#[derive(Clone, Copy)]
pub(crate) enum Antecedent {
    /// It was chosen.
    Choice,
    Clause(u32),
    /// The one row stands before the other.
    Circle(u32, u32),
    /// The source, and the other writer.
    Between(u32, u32),
    /// The least, or the greatest, that the sum can be.
    Low(u32),
    High(u32),
}

/// Since when and why a variable is assigned.
#[derive(Clone, Copy)]
pub(crate) struct Assigned {
    pub level: u32,
    /// Its place in the trail, from 1.
    pub place: u32,
    pub antecedent: Antecedent,
}

const UNKNOWN: Assigned = Assigned {
    level: 0,
    place: 0,
    antecedent: Antecedent::Choice,
};

/// What cannot be: the clause, the circle of rows, the source and the other writer, or the sum and whether it is the least of it.
#[derive(Clone, Copy)]
pub(crate) enum Conflict {
    Clause(u32),
    Circle(usize, usize, usize, usize),
    Between(u32, u32),
    Sum(u32, bool),
}

/// The literals that hold, in the order in which they came to.
#[derive(Drop)]
pub(crate) struct Known {
    /// Of each literal 1 if it holds, -1 if it fails, and else 0.
    pub values: Table<i8>,
    pub states: Table<Assigned>,
    pub trail: Table<u32>,
    pub count: usize,
    /// How many of them were followed by clauses, and by the rest.
    pub seen: usize,
    pub propagated: usize,
    /// Where each level begins.
    pub levels: Table<usize>,
    /// The work that was done.
    pub work: u64,
}

impl Known {
    /// Nothing is known. It does not allocate.
    pub(crate) fn empty(alloc: Global) -> Known {
        Known {
            values: Table::new(alloc, 0),
            states: Table::new(alloc, UNKNOWN),
            trail: Table::new(alloc, TRUE),
            count: 0,
            seen: 0,
            propagated: 0,
            levels: Table::new(alloc, 0),
            work: 0,
        }
    }

    /// Whether some growth was refused.
    pub(crate) fn is_short(&self) -> bool {
        self.values.is_short()
            | self.states.is_short()
            | self.trail.is_short()
            | self.levels.is_short()
    }

    /// Whether the literal holds, 1, fails, -1, or is open.
    pub(crate) fn value(&self, literal: u32) -> i8 {
        self.values.at(literal as usize)
    }

    /// Since when and why the literal's variable is assigned.
    pub(crate) fn state(&self, literal: u32) -> Assigned {
        self.states.at(var(literal))
    }
}

/// Room for so many variables.
pub(crate) fn make_room(known: &mut Known, count: usize) {
    known.values.fill(count.saturating_mul(2));
    known.states.fill(count);
    known.trail.fill(count);
    known.values.set(TRUE as usize, 1);
    known.values.set(FALSE as usize, -1);
}

/// The literal holds from now on.
pub(crate) fn assign(known: &mut Known, literal: u32, antecedent: Antecedent) {
    known.values.set(literal as usize, 1);
    known.values.set(neg(literal) as usize, -1);
    let state = Assigned {
        level: short(known.levels.len()),
        place: short(known.count).wrapping_add(1),
        antecedent,
    };
    known.states.set(var(literal), state);
    known.trail.set(known.count, literal);
    known.count = known.count.wrapping_add(1);
}

/// When the literal came to have the wanted value, or never.
pub(crate) fn place_if(known: &Known, literal: u32, wanted: i8) -> u32 {
    if known.value(literal) == wanted {
        known.state(literal).place
    } else {
        NONE
    }
}
