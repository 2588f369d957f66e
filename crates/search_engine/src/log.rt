//! The steps of a search, as they are found: clauses, and what each one follows from.

use crate::analysis::Analysis;
use crate::encoding::{Clauses, ORIGIN, Origin, STEP};
use crate::explanation::{Explained, View, explain, literals_of, pair_of};
use crate::known::{Antecedent, Conflict, Known};
use crate::literals::{NONE, Table, neg, number_item, short, var};
use std::alloc::Global;

/// What a step follows from: its origin alone, or the steps that the hints between these places name.
#[derive(Clone, Copy)]
pub(crate) enum Why {
    Origin(Origin),
    Units(usize, usize),
}

/// A step: its literals are those between these places.
#[derive(Clone, Copy)]
pub(crate) struct Logged {
    pub from: usize,
    pub to: usize,
    pub why: Why,
}

const NOT_LOGGED: Logged = Logged {
    from: 0,
    to: 0,
    why: Why::Origin(Origin::Tried),
};

/// The steps, with their literals and hints.
#[derive(Drop)]
pub(crate) struct StepLog {
    pub steps: Table<Logged>,
    pub literals: Table<u32>,
    pub hints: Table<u32>,
}

/// A literal or a step by the place of the trail that it is about.
#[derive(Clone, Copy, PartialEq, Eq, PartialOrd, Ord)]
struct Placed {
    place: u32,
    number: u32,
}

const NOT_PLACED: Placed = Placed {
    place: 0,
    number: 0,
};

/// The steps that give what is known: for each origin of a clause, for each variable the literal that holds in any case, and the last one that it was
/// forced by.
#[derive(Drop)]
struct Given {
    origins: Table<u32>,
    units: Table<u32>,
    forced: Table<u32>,
}

/// What a step needs, by the places of the trail.
#[derive(Drop)]
struct Needs {
    is_needed: Table<bool>,
    needed: Table<Placed>,
}

/// What is written down of a search, if anything is.
#[derive(Drop)]
pub(crate) struct Log {
    pub is_on: bool,
    pub steps: StepLog,
    /// The step of the last conflict.
    pub last: u32,
    given: Given,
    needs: Needs,
    /// Literals that force others: those that are still to be looked at, or those of a clause that is being made.
    explained: Explained,
}

impl Log {
    /// Without a step; steps are noted where it is on. It does not allocate.
    pub(crate) fn empty(alloc: Global, is_on: bool) -> Log {
        Log {
            is_on,
            steps: StepLog {
                steps: Table::new(alloc, NOT_LOGGED),
                literals: Table::new(alloc, 0),
                hints: Table::new(alloc, NONE),
            },
            last: NONE,
            given: Given {
                origins: Table::new(alloc, NONE),
                units: Table::new(alloc, NONE),
                forced: Table::new(alloc, NONE),
            },
            needs: Needs {
                is_needed: Table::new(alloc, false),
                needed: Table::new(alloc, NOT_PLACED),
            },
            explained: Explained::empty(alloc),
        }
    }

    /// Whether some growth was refused.
    pub(crate) fn is_short(&self) -> bool {
        self.steps.steps.is_short()
            | self.steps.literals.is_short()
            | self.steps.hints.is_short()
            | self.given.origins.is_short()
            | self.given.units.is_short()
            | self.given.forced.is_short()
            | self.needs.is_needed.is_short()
            | self.needs.needed.is_short()
            | self.explained.is_short()
    }
}

/// Room for so many variables and origins.
pub(crate) fn make_log(log: &mut Log, variables: usize, origins: usize) {
    let given = &mut log.given;
    given.origins.fill(origins);
    given.units.fill(variables);
    given.forced.fill(variables);
    log.needs.is_needed.fill(variables);
}

/// How many bytes the steps take, about.
pub(crate) fn bytes_logged(steps: &StepLog) -> usize {
    let words = steps.literals.len().saturating_add(steps.hints.len());
    let heads = steps.steps.len().saturating_mul(48);
    words.saturating_mul(4).saturating_add(heads)
}

/// Adds a step, and gives its number.
fn add_step(steps: &mut StepLog, literals: &[u32], why: Why) -> u32 {
    let list = &mut steps.literals;
    let from = list.len();
    list.add_all(literals);
    let to = list.len();
    number_item(&mut steps.steps, Logged { from, to, why })
}

/// Adds a step of what follows from the steps that the hints name from that place on, and gives its number.
fn add_units(steps: &mut StepLog, from: usize, literals: &[u32]) -> u32 {
    let to = steps.hints.len();
    add_step(steps, literals, Why::Units(from, to))
}

/// The step that gives the clause.
fn step_of_clause(
    steps: &mut StepLog,
    origins: &mut Table<u32>,
    clauses: &Clauses,
    clause: u32,
) -> u32 {
    let place = clause as usize;
    let origin = clauses.arena.at(place.wrapping_add(ORIGIN));
    if origin == NONE {
        return clauses.arena.at(place.wrapping_add(STEP));
    }
    let known = origins.at(origin as usize);
    if known != NONE {
        return known;
    }
    let why = Why::Origin(clauses.origins.at(origin as usize));
    let number = add_step(steps, literals_of(clauses, clause), why);
    origins.set(origin as usize, number);
    number
}

/// Whether the step has these literals.
fn is_step(steps: &StepLog, number: u32, literals: &[u32]) -> bool {
    let step = steps.steps.at(number as usize);
    let is_there = (number as usize) < steps.steps.len();
    is_there && *steps.literals.range(step.from, step.to) == *literals
}

/// What the clause holds by that forced the literal, if it is none of those that are listed.
fn origin_of(view: &View<'_>, antecedent: Antecedent, literal: u32) -> Origin {
    match antecedent {
        Antecedent::Circle(row, other) => match pair_of(&view.problem.variables.roles, literal) {
            Some((first, last)) => Origin::Circle(short(first), row, other, short(last)),
            None => Origin::Tried,
        },
        Antecedent::Between(source, writer) => Origin::Between(source, writer),
        Antecedent::Low(sum) | Antecedent::High(sum) => {
            view.problem.sums.sums.at(sum as usize).origin
        }
        Antecedent::Choice | Antecedent::Clause(_) => Origin::Tried,
    }
}

/// Makes the clause that forced the literal.
fn read_clause(explained: &mut Explained, view: &View<'_>, literal: u32) {
    explained.literals.clear();
    explain(view, literal, explained);
    let clause = &mut explained.literals;
    for place in 0..clause.len() {
        clause.set(place, neg(clause.at(place)));
    }
    clause.add(literal);
}

/// The step of the clause that forced the literal. If it is the same as when one was last made of it, that one is taken.
fn step_of_forced(
    steps: &mut StepLog,
    forced: &mut Table<u32>,
    clause: &[u32],
    literal: u32,
    origin: Origin,
) -> u32 {
    let known = forced.at(var(literal));
    if is_step(steps, known, clause) {
        return known;
    }
    let number = add_step(steps, clause, Why::Origin(origin));
    forced.set(var(literal), number);
    number
}

/// The step whose clause forced the literal.
fn step_of(log: &mut Log, view: &View<'_>, literal: u32) -> u32 {
    let antecedent = view.known.state(literal).antecedent;
    let (steps, given) = (&mut log.steps, &mut log.given);
    if let Antecedent::Clause(clause) = antecedent {
        return step_of_clause(steps, &mut given.origins, &view.problem.clauses, clause);
    }
    let origin = origin_of(view, antecedent, literal);
    let explained = &mut log.explained;
    read_clause(explained, view, literal);
    let clause = explained.literals.items();
    step_of_forced(steps, &mut given.forced, clause, literal, origin)
}

/// Makes a clause of the opposites of the literals.
fn list_opposites(clause: &mut Table<u32>, literals: &[u32]) {
    clause.clear();
    for place in 0..literals.len() {
        clause.add(neg(literals[place]));
    }
}

/// The step of what cannot be. The literals are those that hold and cannot all do.
fn step_of_conflict(log: &mut Log, view: &View<'_>, conflict: Conflict, literals: &[u32]) -> u32 {
    let steps = &mut log.steps;
    let origin = match conflict {
        Conflict::Clause(clause) => {
            let origins = &mut log.given.origins;
            return step_of_clause(steps, origins, &view.problem.clauses, clause);
        }
        Conflict::Circle(row, from, to, other) => {
            Origin::Circle(short(row), short(from), short(to), short(other))
        }
        Conflict::Between(source, writer) => Origin::Between(source, writer),
        Conflict::Sum(sum, _) => view.problem.sums.sums.at(sum as usize).origin,
    };
    let clause = &mut log.explained.literals;
    list_opposites(clause, literals);
    add_step(steps, clause.items(), Why::Origin(origin))
}

/// Notes that the literal is needed, if it is not the one that always holds. False where that was noted.
fn note_needed(
    is_needed: &mut Table<bool>,
    needed: &mut Table<Placed>,
    known: &Known,
    number: u32,
) -> bool {
    let variable = var(number);
    if (variable == 0) | (variable >= is_needed.len()) | is_needed.at(variable) {
        return false;
    }
    is_needed.set(variable, true);
    let place = known.state(number).place;
    needed.add(Placed { place, number });
    true
}

/// Puts what is needed in the order of the trail. It is noted no longer.
fn sort_needed(needed: &mut Table<Placed>, is_needed: &mut Table<bool>) {
    needed.items_mut().sort_unstable();
    for place in 0..needed.len() {
        is_needed.set(var(needed.at(place).number), false);
    }
}

/// Finds what the literals need that hold in any case, themselves too, as far as no step gives it yet; in the order of the trail.
fn find_needed(log: &mut Log, view: &View<'_>, literals: &[u32]) {
    let (explained, units) = (&mut log.explained, &log.given.units);
    let (is_needed, needed) = (&mut log.needs.is_needed, &mut log.needs.needed);
    needed.clear();
    explained.literals.clear();
    explained.literals.add_all(literals);
    for _ in 0..u64::MAX {
        let Some(literal) = explained.literals.pop() else {
            break;
        };
        if note_needed(is_needed, needed, view.known, literal) {
            if units.at(var(literal)) == NONE {
                explain(view, literal, explained);
            }
        }
    }
    sort_needed(needed, is_needed);
}

/// Names as hints the steps that the literals hold in any case.
fn hint_units(hints: &mut Table<u32>, units: &Table<u32>, literals: &[u32]) {
    for place in 0..literals.len() {
        hints.add(units.at(var(literals[place])));
    }
}

/// The step that the literal holds in any case: it follows from the one that forced it and from earlier such ones; where there are no such ones
/// that one says so itself.
fn add_unit(log: &mut Log, view: &View<'_>, literal: u32, forced: u32) -> u32 {
    let (steps, explained) = (&mut log.steps, &mut log.explained);
    explained.literals.clear();
    explain(view, literal, explained);
    if explained.literals.is_empty() {
        return forced;
    }
    let hints = &mut steps.hints;
    let from = hints.len();
    hint_units(hints, &log.given.units, explained.literals.items());
    hints.add(forced);
    add_units(steps, from, &[literal])
}

/// Adds the steps that the literals hold in any case, and those of what they need.
fn log_units(log: &mut Log, view: &View<'_>, literals: &[u32]) {
    find_needed(log, view, literals);
    for place in 0..log.needs.needed.len() {
        let literal = log.needs.needed.at(place).number;
        if log.given.units.at(var(literal)) == NONE {
            let forced = step_of(log, view, literal);
            let number = add_unit(log, view, literal, forced);
            log.given.units.set(var(literal), number);
        }
    }
}

/// Adds the step of the literals that follows from the steps that the hints name from that one on, from those that are needed, and from the
/// last conflict.
fn add_last(
    steps: &mut StepLog,
    needed: &Table<Placed>,
    last: u32,
    from: usize,
    literals: &[u32],
) -> u32 {
    let hints = &mut steps.hints;
    for place in 0..needed.len() {
        hints.add(needed.at(place).number);
    }
    hints.add(last);
    add_units(steps, from, literals)
}

/// Notes that the steps are needed that forced the literals, in the order of the trail.
fn list_forcing(log: &mut Log, view: &View<'_>, literals: &[u32]) {
    log.needs.needed.clear();
    for index in 0..literals.len() {
        let literal = literals[index];
        let number = step_of(log, view, literal);
        let place = view.known.state(literal).place;
        log.needs.needed.add(Placed { place, number });
    }
    log.needs.needed.items_mut().sort_unstable();
}

/// Names as hints the steps that the literals hold in any case, each once.
fn hint_sure(
    hints: &mut Table<u32>,
    is_needed: &mut Table<bool>,
    units: &Table<u32>,
    literals: &[u32],
) {
    for place in 0..literals.len() {
        let variable = var(literals[place]);
        if (variable < is_needed.len()) & !is_needed.at(variable) {
            is_needed.set(variable, true);
            hints.add(units.at(variable));
        }
    }
    for place in 0..literals.len() {
        is_needed.set(var(literals[place]), false);
    }
}

/// Adds the step of a learned clause: it follows from those that give what holds in any case, from those that forced the literals that
/// were used, and from the last conflict.
pub(crate) fn log_learned(log: &mut Log, view: &View<'_>, analysis: &Analysis) -> u32 {
    let sure = analysis.sure.items();
    log_units(log, view, sure);
    list_forcing(log, view, analysis.used.items());
    let (steps, needs) = (&mut log.steps, &mut log.needs);
    let from = steps.hints.len();
    hint_sure(
        &mut steps.hints,
        &mut needs.is_needed,
        &log.given.units,
        sure,
    );
    add_last(
        steps,
        &needs.needed,
        log.last,
        from,
        analysis.clause.items(),
    )
}

/// Puts the steps of the needed literals in place of them: those that they hold in any case, or, where there are none, those that forced them.
fn replace_needed(log: &mut Log, view: &View<'_>) {
    for place in 0..log.needs.needed.len() {
        let mut found = log.needs.needed.at(place);
        let literal = found.number;
        found.number = log.given.units.at(var(literal));
        if found.number == NONE {
            found.number = step_of(log, view, literal);
        }
        log.needs.needed.set(place, found);
    }
}

/// Notes the step of what cannot be, and, if that is the end, the step with no literal: the conflict then needs but what holds in any case.
/// The literals are those that hold and cannot all do.
pub(crate) fn log_conflict(
    log: &mut Log,
    view: &View<'_>,
    conflict: Conflict,
    literals: &[u32],
    is_end: bool,
) {
    let last = step_of_conflict(log, view, conflict, literals);
    log.last = last;
    if !is_end || is_step(&log.steps, last, &[]) {
        return;
    }
    find_needed(log, view, literals);
    replace_needed(log, view);
    let from = log.steps.hints.len();
    log.last = add_last(&mut log.steps, &log.needs.needed, last, from, &[]);
}
