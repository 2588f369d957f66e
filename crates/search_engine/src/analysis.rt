//! What is learned from what cannot be.

use crate::explanation::{Explained, View, explain, explain_conflict};
use crate::heap::{Heap, bump};
use crate::known::{Antecedent, Conflict, Known};
use crate::literals::{Table, at, neg, set, var};
use std::alloc::Global;

/// A clause that is being learned.
#[derive(Drop)]
pub(crate) struct Analysis {
    /// Literals that hold, of which one is to fail.
    pub explained: Explained,
    /// The clause. Its first literal is to hold where the others fail.
    pub clause: Table<u32>,
    /// The literals that were replaced by their antecedents, and those antecedents that hold in any case.
    pub used: Table<u32>,
    pub sure: Table<u32>,
    /// The variables that were met, and whether each one was.
    met: Table<usize>,
    is_met: Table<bool>,
    /// For each level when a literal of it was last counted.
    stamps: Table<u64>,
    stamp: u64,
}

impl Analysis {
    /// Of nothing. It does not allocate.
    pub(crate) fn empty(alloc: Global) -> Analysis {
        Analysis {
            explained: Explained::empty(alloc),
            clause: Table::new(alloc, 0),
            used: Table::new(alloc, 0),
            sure: Table::new(alloc, 0),
            met: Table::new(alloc, 0),
            is_met: Table::new(alloc, false),
            stamps: Table::new(alloc, 0),
            stamp: 0,
        }
    }

    /// Whether some growth was refused.
    pub(crate) fn is_short(&self) -> bool {
        self.explained.is_short()
            | self.clause.is_short()
            | self.used.is_short()
            | self.sure.is_short()
            | self.met.is_short()
            | self.is_met.is_short()
            | self.stamps.is_short()
    }
}

/// Room for so many variables.
pub(crate) fn make_marks(analysis: &mut Analysis, count: usize) {
    analysis.is_met.fill(count);
    analysis.stamps.fill(count.wrapping_add(2));
}

/// Takes in the literals that hold and were not met before: those of the level are counted, and of the lower ones one may fail.
fn take_in(analysis: &mut Analysis, heap: &mut Heap, known: &Known, level: u32) -> usize {
    let mut count: usize = 0;
    for place in 0..analysis.explained.literals.len() {
        let literal = analysis.explained.literals.at(place);
        let variable = var(literal);
        let since = known.state(literal).level;
        if since == 0 {
            analysis.sure.add(literal);
        } else if !analysis.is_met.at(variable) && variable < analysis.is_met.len() {
            analysis.is_met.set(variable, true);
            analysis.met.add(variable);
            bump(heap, variable);
            if since < level {
                analysis.clause.add(neg(literal));
            } else {
                count = count.wrapping_add(1);
            }
        }
    }
    count
}

/// The place of the last literal of the trail before that place that was met.
fn last_met(known: &Known, is_met: &Table<bool>, before: usize) -> usize {
    let mut place = before;
    for _ in 0..before {
        place = place.wrapping_sub(1);
        if is_met.at(var(known.trail.at(place))) {
            break;
        }
    }
    place
}

/// Goes back along the trail to the first literal of the level from which alone the conflict follows.
fn find_first(analysis: &mut Analysis, heap: &mut Heap, view: &View<'_>, level: u32) {
    let mut count: usize = 0;
    let mut place = view.known.count;
    analysis.clause.add(0);
    for _ in 0..view.known.count {
        let more = take_in(analysis, heap, view.known, level);
        count = count.wrapping_add(more).saturating_sub(1);
        place = last_met(view.known, &analysis.is_met, place);
        let literal = view.known.trail.at(place);
        if count == 0 {
            analysis.clause.set(0, neg(literal));
            break;
        }
        analysis.explained.literals.clear();
        explain(view, literal, &mut analysis.explained);
        analysis.used.add(literal);
    }
}

/// Whether the literal of the clause follows from the others: then it is left out.
fn follows(analysis: &mut Analysis, view: &View<'_>, literal: u32) -> bool {
    if let Antecedent::Choice = view.known.state(literal).antecedent {
        return false;
    }
    analysis.explained.literals.clear();
    explain(view, neg(literal), &mut analysis.explained);
    for found in analysis.explained.literals.items() {
        if view.known.state(*found).level != 0 && !analysis.is_met.at(var(*found)) {
            return false;
        }
    }
    for found in analysis.explained.literals.items() {
        if view.known.state(*found).level == 0 {
            analysis.sure.add(*found);
        }
    }
    analysis.used.add(neg(literal));
    true
}

/// Leaves out the literals of the clause that follow from the others.
fn shorten(analysis: &mut Analysis, view: &View<'_>) {
    let mut kept: usize = 1;
    for place in 1..analysis.clause.len() {
        let literal = analysis.clause.at(place);
        if !follows(analysis, view, literal) {
            analysis.clause.set(kept, literal);
            kept = kept.wrapping_add(1);
        }
    }
    analysis.clause.truncate(kept);
}

/// Puts a literal of the highest level of the others after the first one, and gives that level, from which on the clause forces the first.
fn order_clause(clause: &mut [u32], known: &Known) -> u32 {
    let mut best: usize = 1;
    let mut level = 0;
    for place in 1..clause.len() {
        let own = known.state(clause[place]).level;
        if own >= level {
            level = own;
            best = place;
        }
    }
    let first = at(clause, best, 0);
    let second = at(clause, 1, 0);
    set(clause, best, second);
    set(clause, 1, first);
    level
}

/// Learns a clause from a conflict at the level, of whose literals `explained` has those that hold. It gives the level from which on the clause
/// forces its first literal.
pub(crate) fn learn(analysis: &mut Analysis, heap: &mut Heap, view: &View<'_>, level: u32) -> u32 {
    analysis.clause.clear();
    analysis.used.clear();
    analysis.sure.clear();
    find_first(analysis, heap, view, level);
    shorten(analysis, view);
    for variable in analysis.met.items() {
        analysis.is_met.set(*variable, false);
    }
    analysis.met.clear();
    order_clause(analysis.clause.items_mut(), view.known)
}

/// Reads the literals that hold and cannot all do, and gives the highest of their levels.
pub(crate) fn read_conflict(analysis: &mut Analysis, view: &View<'_>, conflict: Conflict) -> u32 {
    analysis.explained.literals.clear();
    explain_conflict(view, conflict, &mut analysis.explained);
    let mut level = 0;
    for literal in analysis.explained.literals.items() {
        level = view.known.state(*literal).level.max(level);
    }
    level
}

/// Of how many levels the literals of the clause are.
pub(crate) fn count_levels(analysis: &mut Analysis, known: &Known) -> u32 {
    analysis.stamp = analysis.stamp.wrapping_add(1);
    let mut count: u32 = 0;
    for place in 0..analysis.clause.len() {
        let level = known.state(analysis.clause.at(place)).level as usize;
        if analysis.stamps.at(level) != analysis.stamp {
            analysis.stamps.set(level, analysis.stamp);
            count = count.wrapping_add(1);
        }
    }
    count
}
