//! Clauses that a literal fails in: two literals of each clause are watched that do not fail, as long as there are two.

use crate::encoding::{Clauses, LENGTH, LINK, LITERALS};
use crate::known::{Antecedent, Conflict, Known, assign};
use crate::literals::{NONE, TRUE, at, neg, set, short};

/// Puts the clause at the front of those that watch the literal, which is its first or second.
fn watch(arena: &mut [u32], heads: &mut [u32], clause: u32, side: usize, literal: u32) {
    let place = (clause as usize).wrapping_add(LINK).wrapping_add(side);
    set(arena, place, at(heads, literal as usize, NONE));
    set(heads, literal as usize, clause);
}

/// The first two literals of the clause are watched, if it has two.
pub(crate) fn watch_both(arena: &mut [u32], heads: &mut [u32], clause: u32) {
    let place = clause as usize;
    if at(arena, place.wrapping_add(LENGTH), 0) < 2 {
        return;
    }
    let first = at(arena, place.wrapping_add(LITERALS), 0);
    let second = at(arena, place.wrapping_add(LITERALS + 1), 0);
    watch(arena, heads, clause, 0, first);
    watch(arena, heads, clause, 1, second);
}

/// Watches all clauses anew, by their first two literals.
pub(crate) fn watch_all(clauses: &mut Clauses, count: usize) {
    let heads = &mut clauses.heads;
    heads.clear();
    heads.fill(count);
    watch_each(clauses.arena.items_mut(), heads.items_mut());
}

/// Watches each clause of the arena.
fn watch_each(arena: &mut [u32], heads: &mut [u32]) {
    let mut place: usize = 0;
    for _ in 0..arena.len() {
        if place >= arena.len() {
            break;
        }
        let length = at(arena, place.wrapping_add(LENGTH), 0) as usize;
        watch_both(arena, heads, short(place));
        place = place.wrapping_add(LITERALS).wrapping_add(length);
    }
}

/// The place of a literal of the clause beside the first two that does not fail, or 0, where no literal stands.
fn find_other(known: &Known, arena: &[u32], clause: u32) -> usize {
    let place = clause as usize;
    let length = at(arena, place.wrapping_add(LENGTH), 0) as usize;
    let first = place.wrapping_add(LITERALS);
    for found in first.wrapping_add(2)..first.wrapping_add(length) {
        if known.value(at(arena, found, 0)) != -1 {
            return found;
        }
    }
    0
}

/// What becomes of a clause that watches a literal which fails, its first or second: another one is watched that does not fail, where there is
/// one and the clause needs it. It gives the literal that has to hold: the only other one, or the one that always does, as another is watched.
fn visit(
    known: &Known,
    arena: &mut [u32],
    heads: &mut [u32],
    clause: u32,
    side: usize,
    failing: u32,
) -> u32 {
    let first = (clause as usize).wrapping_add(LITERALS);
    let other = at(arena, first.wrapping_add(1).wrapping_sub(side), 0);
    if known.value(other) != 1 {
        let found = find_other(known, arena, clause);
        if found != 0 {
            let literal = at(arena, found, 0);
            set(arena, first.wrapping_add(side), literal);
            set(arena, found, failing);
            watch(arena, heads, clause, side, literal);
            return TRUE;
        }
    }
    watch(arena, heads, clause, side, failing);
    other
}

/// By which of the clause's first two literals it watches the literal.
fn side_of(arena: &[u32], clause: u32, literal: u32) -> usize {
    let first = (clause as usize).wrapping_add(LITERALS);
    usize::from(at(arena, first, 0) != literal)
}

/// The clause after this one of those that watch the same literal, or none.
fn next_of(arena: &[u32], clause: u32, side: usize) -> u32 {
    let place = (clause as usize).wrapping_add(LINK).wrapping_add(side);
    at(arena, place, NONE)
}

/// Looks at the clauses in which a literal fails, as its opposite holds. It gives a clause that fails, or none; the rest is not looked at then,
/// and stays in the list.
fn visit_all(known: &mut Known, arena: &mut [u32], heads: &mut [u32], failing: u32) -> u32 {
    let mut next = at(heads, failing as usize, NONE);
    set(heads, failing as usize, NONE);
    let mut failed = NONE;
    for _ in 0..arena.len() {
        if next == NONE {
            break;
        }
        let clause = next;
        let side = side_of(arena, clause, failing);
        next = next_of(arena, clause, side);
        known.work = known.work.wrapping_add(1);
        if failed != NONE {
            watch(arena, heads, clause, side, failing);
            continue;
        }
        let other = visit(known, arena, heads, clause, side, failing);
        let value = known.value(other);
        if value == -1 {
            failed = clause;
        }
        if value == 0 {
            assign(known, other, Antecedent::Clause(clause));
        }
    }
    failed
}

/// Follows the clauses from all literals that they have not seen.
pub(crate) fn follow_clauses(
    known: &mut Known,
    arena: &mut [u32],
    heads: &mut [u32],
) -> Option<Conflict> {
    for _ in known.seen..known.trail.len() {
        if known.seen >= known.count {
            break;
        }
        let literal = known.trail.at(known.seen);
        known.seen = known.seen.wrapping_add(1);
        let failed = visit_all(known, arena, heads, neg(literal));
        if failed != NONE {
            return Some(Conflict::Clause(failed));
        }
    }
    None
}
