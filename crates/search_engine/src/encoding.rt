//! What is asked of an order, as variables and clauses.

use crate::literals::{FALSE, NONE, TRUE, Table, short, var};
use crate::spans::Span;
use std::alloc::Global;

/// What a variable says.
#[derive(Clone, Copy)]
pub(crate) enum Role {
    Nothing,
    /// The one row stands before the other, which began later.
    Precedence(u16, u16),
    /// The row commits.
    Commits(u32),
    /// The source of that number is the one.
    Source(u32),
    /// The item of that number is what is taken.
    Item(u32),
}

/// Why a clause holds, by the numbers of what it is about.
#[derive(Clone, Copy)]
pub(crate) enum Origin {
    Sources(u32),
    SourceStands(u32),
    /// The source, and the other writer.
    Between(u32, u32),
    Counter(u32, u16),
    /// What the reader finds on the counter, where each count that is open is a multiple of the last number.
    Remainder(u32, u16, i64),
    Element(u32, u16, i64),
    Items(u32),
    ItemStands(u32),
    Place(u32),
    Empty(u32, u16, u32),
    Gone(u32),
    Circle(u32, u32, u32, u32),
    /// An order that was tried in vain.
    Tried,
}

/// The variables, by their numbers.
#[derive(Drop)]
pub(crate) struct Variables {
    pub roles: Table<Role>,
    /// Whether it is tried first that it holds.
    pub phases: Table<bool>,
    /// Whether its value may be chosen, as something is asked of it.
    pub choices: Table<bool>,
}

impl Variables {
    /// No variables. It does not allocate.
    pub(crate) fn empty(alloc: Global) -> Variables {
        Variables {
            roles: Table::new(alloc, Role::Nothing),
            phases: Table::new(alloc, false),
            choices: Table::new(alloc, false),
        }
    }

    /// Whether some growth was refused.
    pub(crate) fn is_short(&self) -> bool {
        self.roles.is_short() | self.phases.is_short() | self.choices.is_short()
    }
}

/// A new variable, as the literal that it holds.
pub(crate) fn add_variable(
    variables: &mut Variables,
    role: Role,
    phase: bool,
    choices: bool,
) -> u32 {
    let number = short(variables.roles.len());
    variables.roles.add(role);
    variables.phases.add(phase);
    variables.choices.add(choices);
    number.wrapping_mul(2)
}

/// The value of the literal's variable may be chosen.
pub(crate) fn ask(variables: &mut Variables, literal: u32) {
    if var(literal) != 0 {
        variables.choices.set(var(literal), true);
    }
}

/// Adds the variables of the pairs that are open, and of the fates that are.
pub(crate) fn add_pairs(variables: &mut Variables, spans: &mut [Span]) {
    add_variable(variables, Role::Nothing, true, false);
    for row in 0..spans.len() {
        for other in row.wrapping_add(1)..spans[row].end {
            let role = Role::Precedence((row & 0xffff) as u16, (other & 0xffff) as u16);
            add_variable(variables, role, true, false);
        }
    }
    for row in 0..spans.len() {
        if spans[row].commits == NONE {
            spans[row].commits = add_variable(variables, Role::Commits(short(row)), true, true);
        }
    }
}

/// Where in a clause its length stands, of how many levels its literals were when it was learned (its LBD: Audemard and Simon, Predicting
/// learnt clauses quality in modern SAT solvers, 2009), the next clauses that watch its first and second literal, the number of its
/// origin, the step that gives it, and its first literal.
pub(crate) const LENGTH: usize = 0;

pub(crate) const LEVELS: usize = 1;

pub(crate) const LINK: usize = 2;

pub(crate) const ORIGIN: usize = 4;

pub(crate) const STEP: usize = 5;

pub(crate) const LITERALS: usize = 6;

/// A learned clause by its use: the fewer levels and literals the better.
#[derive(Clone, Copy, PartialEq, Eq, PartialOrd, Ord)]
pub(crate) struct ClauseRank {
    pub levels: u32,
    pub length: u32,
    pub clause: u32,
}

const NO_RANK: ClauseRank = ClauseRank {
    levels: 0,
    length: 0,
    clause: 0,
};

/// The clauses, one after the other in the words of an arena. A clause goes by the place of its first word.
#[derive(Drop)]
pub(crate) struct Clauses {
    pub arena: Table<u32>,
    /// The origins of those that are no learned ones.
    pub origins: Table<Origin>,
    /// For each literal the first clause that watches it.
    pub heads: Table<u32>,
    /// The learned ones that are still there, and their ranks when the worse ones were dropped.
    pub learned: Table<u32>,
    pub ranks: Table<ClauseRank>,
}

impl Clauses {
    /// No clauses. It does not allocate.
    pub(crate) fn empty(alloc: Global) -> Clauses {
        Clauses {
            arena: Table::new(alloc, 0),
            origins: Table::new(alloc, Origin::Tried),
            heads: Table::new(alloc, NONE),
            learned: Table::new(alloc, 0),
            ranks: Table::new(alloc, NO_RANK),
        }
    }

    /// Whether some growth was refused.
    pub(crate) fn is_short(&self) -> bool {
        self.arena.is_short()
            | self.heads.is_short()
            | self.origins.is_short()
            | self.learned.is_short()
            | self.ranks.is_short()
    }
}

/// Puts the words of a clause at the end of the arena, and gives its place.
pub(crate) fn append(
    arena: &mut Table<u32>,
    literals: &[u32],
    levels: u32,
    origin: u32,
    step: u32,
) -> u32 {
    let place = short(arena.len());
    let head = [short(literals.len()), levels, NONE, NONE, origin, step];
    arena.add_all(&head);
    arena.add_all(literals);
    place
}

/// Adds the clause of different literals, if none of them holds in any case. Those that fail in any case are left out.
pub(crate) fn add_clause(clauses: &mut Clauses, origin: Origin, literals: &[u32]) {
    if literals.contains(&TRUE) {
        return;
    }
    let number = short(clauses.origins.len());
    let place = clauses.arena.len();
    clauses.origins.add(origin);
    append(&mut clauses.arena, &[], 0, number, NONE);
    for literal in literals {
        if *literal != FALSE {
            clauses.arena.add(*literal);
        }
    }
    let length = clauses.arena.len().wrapping_sub(place);
    clauses
        .arena
        .set(place, short(length.wrapping_sub(LITERALS)));
}
