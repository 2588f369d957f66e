//! The literals that force another one.

use crate::betweens::clause_of;
use crate::encoding::{Clauses, LITERALS, Role};
use crate::known::{Antecedent, Conflict, Known, place_if};
use crate::literals::{FALSE, NONE, TRUE, Table, neg, var};
use crate::problem::Problem;
use crate::spans::{Span, before};
use crate::sums::{Sum, Term};
use std::alloc::Global;

/// What explanations are read from: what is asked, and what is known.
#[derive(Clone, Copy)]
pub(crate) struct View<'a> {
    pub problem: &'a Problem,
    pub known: &'a Known,
}

/// A term that contributes to a forced bound: since which place of the trail it does, by how much, and its number.
#[derive(Clone, Copy, PartialEq, Eq, PartialOrd, Ord)]
pub(crate) struct Contribution {
    place: u32,
    gain: i64,
    term: usize,
}

const NO_CONTRIBUTION: Contribution = Contribution {
    place: 0,
    gain: 0,
    term: 0,
};

/// Literals that force others, as they are listed, and room for the terms of a bound.
#[derive(Drop)]
pub(crate) struct Explained {
    pub literals: Table<u32>,
    contributions: Table<Contribution>,
}

impl Explained {
    /// No literals. It does not allocate.
    pub(crate) fn empty(alloc: Global) -> Explained {
        Explained {
            literals: Table::new(alloc, 0),
            contributions: Table::new(alloc, NO_CONTRIBUTION),
        }
    }

    /// Whether some growth was refused.
    pub(crate) fn is_short(&self) -> bool {
        self.literals.is_short() | self.contributions.is_short()
    }
}

/// Adds the opposites of the clause's literals other than the forced one. They hold.
fn add_others(literals: &[u32], forced: u32, out: &mut Table<u32>) {
    for place in 0..literals.len() {
        let literal = literals[place];
        if (literal != forced) & (var(literal) != 0) {
            out.add(neg(literal));
        }
    }
}

/// The literals of the clause at the place.
pub(crate) fn literals_of(clauses: &Clauses, clause: u32) -> &[u32] {
    let place = clause as usize;
    let from = place.wrapping_add(LITERALS);
    let length = clauses.arena.at(place) as usize;
    clauses.arena.range(from, from.wrapping_add(length))
}

/// The two rows of a literal of a pair, the one that stands before first.
pub(crate) fn pair_of(roles: &Table<Role>, literal: u32) -> Option<(usize, usize)> {
    match roles.at(var(literal)) {
        Role::Precedence(row, other) => {
            let (row, other) = (row as usize, other as usize);
            if literal & 1 == 0 {
                Some((row, other))
            } else {
                Some((other, row))
            }
        }
        _ => None,
    }
}

/// Adds the literal that the one row stands before the other, unless they are the same or real time says so.
fn add_before(spans: &[Span], row: usize, other: usize, out: &mut Table<u32>) {
    let literal = before(spans, row, other);
    if (row != other) & (literal != TRUE) {
        out.add(literal);
    }
}

/// The literals of a circle over the pair, but for the one that the first row stands before the last.
fn add_circle(spans: &[Span], ends: (usize, usize), pair: (usize, usize), out: &mut Table<u32>) {
    let (first, last) = ends;
    let (row, other) = pair;
    add_before(spans, first, row, out);
    add_before(spans, row, other, out);
    add_before(spans, other, last, out);
}

/// Whether the term was known to hold or to fail before that place.
fn is_known(known: &Known, term: &Term, limit: u32) -> bool {
    let [first, second] = term.literals;
    let fails = place_if(known, first, -1).min(place_if(known, second, -1));
    let holds = place_if(known, first, 1).max(place_if(known, second, 1));
    fails < limit || holds < limit
}

/// When the term came to raise the least of the sum, or to lower the greatest, or never.
fn contributes_at(known: &Known, term: &Term, rises: bool) -> u32 {
    let [first, second] = term.literals;
    if rises {
        place_if(known, first, 1).max(place_if(known, second, 1))
    } else {
        place_if(known, first, -1).min(place_if(known, second, -1))
    }
}

/// Whether the term is the forced literal's own: it has the literal that is wanted of it, and was not known before that place. If it rises, its
/// other literal is added, unless that holds in any case.
fn take_own(
    known: &Known,
    term: &Term,
    rises: bool,
    wanted: u32,
    limit: u32,
    out: &mut Table<u32>,
) -> bool {
    let [first, second] = term.literals;
    if (first != wanted) & (second != wanted) {
        return false;
    }
    if is_known(known, term, limit) {
        return false;
    }
    let mut other = first;
    if first == wanted {
        other = second;
    }
    if rises & (other != TRUE) {
        out.add(other);
    }
    true
}

/// Finds the terms that contribute to the bound before the limit, the forced literal's own term aside, whose other literal is added. It gives
/// what the contributions have to add up to so that the bound is crossed.
fn find_contributions(
    view: &View<'_>,
    sum: &Sum,
    is_low: bool,
    forced: u32,
    limit: u32,
    contributions: &mut Table<Contribution>,
    out: &mut Table<u32>,
) -> i64 {
    let sign: i64 = if is_low { 1 } else { -1 };
    let mut lacks = sum.wanted.wrapping_mul(sign).wrapping_add(1);
    let mut is_found = forced == FALSE;
    for number in sum.from..sum.to {
        let term = view.problem.sums.terms.at(number);
        let change = term.gain.wrapping_mul(sign);
        let gain = change.wrapping_abs();
        let rises = change > 0;
        let mut wanted = neg(forced);
        if !rises {
            wanted = forced;
            lacks = lacks.wrapping_add(gain);
        }
        if !is_found && take_own(view.known, &term, rises, wanted, limit, out) {
            is_found = true;
            lacks = lacks.wrapping_sub(gain);
            continue;
        }
        let place = contributes_at(view.known, &term, rises);
        if place < limit {
            contributions.add(Contribution {
                place,
                gain,
                term: number,
            });
        }
    }
    lacks
}

/// Adds the literals by which the term contributes: both, if it does as it holds, or the one that failed first.
fn add_literals(known: &Known, term: &Term, holds: bool, out: &mut Table<u32>) {
    let [first, second] = term.literals;
    if holds {
        if first != TRUE {
            out.add(first);
        }
        if second != TRUE {
            out.add(second);
        }
        return;
    }
    let mut literal = second;
    if place_if(known, first, -1) <= place_if(known, second, -1) {
        literal = first;
    }
    out.add(neg(literal));
}

/// Adds the literals of the earliest contributions that add up to what the bound lacks.
fn add_earliest(
    view: &View<'_>,
    is_low: bool,
    bound: i64,
    contributions: &Table<Contribution>,
    out: &mut Table<u32>,
) {
    let mut lacks = bound;
    for place in 0..contributions.len() {
        if lacks <= 0 {
            break;
        }
        let contribution = contributions.at(place);
        lacks = lacks.wrapping_sub(contribution.gain);
        let term = view.problem.sums.terms.at(contribution.term);
        let rises = term.gain > 0;
        add_literals(view.known, &term, rises == is_low, out);
    }
}

/// The literals that force the least of the sum above what is wanted, or the greatest below it, before the limit: the earliest ones that
/// suffice. The forced literal, if there is one, is no part of them.
fn add_bound(
    view: &View<'_>,
    number: u32,
    is_low: bool,
    forced: u32,
    limit: u32,
    explained: &mut Explained,
) {
    let sum = view.problem.sums.sums.at(number as usize);
    let contributions = &mut explained.contributions;
    let out = &mut explained.literals;
    contributions.clear();
    let lacks = find_contributions(view, &sum, is_low, forced, limit, contributions, out);
    contributions.items_mut().sort_unstable();
    add_earliest(view, is_low, lacks, contributions, out);
    if (sum.guard != TRUE) & (forced != neg(sum.guard)) {
        out.add(sum.guard);
    }
}

/// Adds the literals of a source's clause other than the forced one, as they hold.
fn add_between(view: &View<'_>, source: u32, writer: u32, forced: u32, out: &mut Table<u32>) {
    let clause = clause_of(&view.problem.cells, &view.problem.spans, source, writer);
    add_others(&clause, forced, out)
}

/// Adds the literals that force this one.
pub(crate) fn explain(view: &View<'_>, literal: u32, explained: &mut Explained) {
    let state = view.known.state(literal);
    let limit = state.place;
    match state.antecedent {
        Antecedent::Choice => {}
        Antecedent::Clause(clause) => {
            let literals = literals_of(&view.problem.clauses, clause);
            add_others(literals, literal, &mut explained.literals)
        }
        Antecedent::Between(source, writer) => {
            add_between(view, source, writer, literal, &mut explained.literals)
        }
        Antecedent::Circle(row, other) => {
            if let Some(ends) = pair_of(&view.problem.variables.roles, literal) {
                let pair = (row as usize, other as usize);
                add_circle(&view.problem.spans, ends, pair, &mut explained.literals);
            }
        }
        Antecedent::Low(sum) => add_bound(view, sum, true, literal, limit, explained),
        Antecedent::High(sum) => add_bound(view, sum, false, literal, limit, explained),
    }
}

/// Adds the literals that hold, and cannot all do.
pub(crate) fn explain_conflict(view: &View<'_>, conflict: Conflict, explained: &mut Explained) {
    match conflict {
        Conflict::Clause(clause) => {
            let literals = literals_of(&view.problem.clauses, clause);
            add_others(literals, FALSE, &mut explained.literals)
        }
        Conflict::Circle(row, from, to, other) => {
            let out = &mut explained.literals;
            add_before(&view.problem.spans, other, row, out);
            add_circle(&view.problem.spans, (row, other), (from, to), out)
        }
        Conflict::Between(source, writer) => {
            add_between(view, source, writer, FALSE, &mut explained.literals)
        }
        Conflict::Sum(sum, is_low) => add_bound(view, sum, is_low, FALSE, NONE, explained),
    }
}
