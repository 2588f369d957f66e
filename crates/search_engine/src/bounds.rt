//! What the bounds of sums force.

use crate::known::{Antecedent, Conflict, Known, assign};
use crate::literals::{Table, neg, var};
use crate::sums::{Slack, Sum, Sums, Term};

/// The sum is to be looked at, if it does not wait yet.
fn wake(slack: &mut Slack, waiting: &mut Table<u32>, number: u32) {
    if !slack.waits {
        waiting.add(number);
        slack.waits = true;
    }
}

/// One more of the term's literals holds. True where that may force something.
fn note_holding(term: &mut Term, slack: &mut Slack) -> bool {
    term.holding = term.holding.wrapping_add(1);
    if term.failing > 0 {
        return false;
    }
    let is_whole = term.holding == 2;
    if term.gain > 0 {
        if is_whole {
            slack.below = slack.below.wrapping_sub(term.gain);
        }
        slack.below < if is_whole { slack.most } else { term.gain }
    } else {
        if is_whole {
            slack.above = slack.above.wrapping_add(term.gain);
        }
        slack.above
            < if is_whole {
                slack.most
            } else {
                term.gain.wrapping_neg()
            }
    }
}

/// One more of the term's literals fails. True where that may force something.
fn note_failing(term: &mut Term, slack: &mut Slack) -> bool {
    term.failing = term.failing.wrapping_add(1);
    if term.failing > 1 {
        return false;
    }
    if term.gain > 0 {
        slack.above = slack.above.wrapping_sub(term.gain);
        slack.above < slack.most
    } else {
        slack.below = slack.below.wrapping_add(term.gain);
        slack.below < slack.most
    }
}

/// Takes back that one of the term's literals holds, or fails.
fn forget(term: &mut Term, slack: &mut Slack, holds: bool) {
    if holds {
        if term.holding == 2 && term.failing == 0 {
            if term.gain > 0 {
                slack.below = slack.below.wrapping_add(term.gain);
            } else {
                slack.above = slack.above.wrapping_sub(term.gain);
            }
        }
        term.holding = term.holding.wrapping_sub(1);
        return;
    }
    term.failing = term.failing.wrapping_sub(1);
    if term.failing == 0 {
        if term.gain > 0 {
            slack.above = slack.above.wrapping_add(term.gain);
        } else {
            slack.below = slack.below.wrapping_sub(term.gain);
        }
    }
}

/// One of the term's literals holds, or fails, from now on or no longer.
fn count_term(
    term: &mut Term,
    slack: &mut Slack,
    waiting: &mut Table<u32>,
    holds: bool,
    is_new: bool,
) {
    if !is_new {
        forget(term, slack, holds);
        return;
    }
    let forces = if holds {
        note_holding(term, slack)
    } else {
        note_failing(term, slack)
    };
    if forces {
        wake(slack, waiting, term.sum);
    }
}

/// The literal holds from now on, or no longer: the terms that it is in change.
pub(crate) fn count_terms(sums: &mut Sums, literal: u32, is_new: bool) -> usize {
    let from = sums.starts.at(var(literal)) as usize;
    let to = sums.starts.at(var(literal).wrapping_add(1)) as usize;
    let (terms, slacks) = (sums.terms.items_mut(), sums.slacks.items_mut());
    let (occurrences, waiting) = (&sums.occurrences, &mut sums.waiting);
    for place in from..to {
        let used = occurrences.at(place);
        let holds = (used & 1) == (literal & 1);
        if let Some(term) = terms.get_mut((used >> 1) as usize) {
            if let Some(slack) = slacks.get_mut(term.sum as usize) {
                count_term(term, slack, waiting, holds, is_new);
            }
        }
    }
    to.saturating_sub(from)
}

/// The sum is looked at where its guard comes to hold.
pub(crate) fn wake_guarded(sums: &mut Sums, number: u32) {
    let mut slack = sums.slacks.at(number as usize);
    wake(&mut slack, &mut sums.waiting, number);
    sums.slacks.set(number as usize, slack);
}

/// Forces what the term has to be: out, where it would take the sum past a bound, or in, where it is needed.
fn force(known: &mut Known, term: &Term, slack: Slack, number: u32) {
    let gain = term.gain;
    let change = gain.saturating_abs();
    let (is_past, is_short) = (change > slack.below, change > slack.above);
    let (is_out, is_in) = if gain > 0 {
        (is_past, is_short)
    } else {
        (is_short, is_past)
    };
    let low = Antecedent::Low(number);
    let high = Antecedent::High(number);
    if is_out {
        let [first, second] = term.literals;
        let why = if gain > 0 { low } else { high };
        match (known.value(first), known.value(second)) {
            (0, 1) => assign(known, neg(first), why),
            (1, 0) => assign(known, neg(second), why),
            _ => {}
        }
    } else if is_in {
        for literal in &term.literals {
            if known.value(*literal) == 0 {
                assign(known, *literal, if gain > 0 { high } else { low });
            }
        }
    }
}

/// The sum waits no longer.
fn settle(sums: &mut Sums, number: u32) {
    let mut slack = sums.slacks.at(number as usize);
    slack.waits = false;
    sums.slacks.set(number as usize, slack);
}

/// The sum cannot be what is wanted, as its least is above that, or its greatest below it: its guard fails, if it is open.
fn deny_guard(known: &mut Known, guard: u32, number: u32, is_low: bool) -> Option<Conflict> {
    if known.value(guard) != 0 {
        return Some(Conflict::Sum(number, is_low));
    }
    let mut antecedent = Antecedent::High(number);
    if is_low {
        antecedent = Antecedent::Low(number);
    }
    assign(known, neg(guard), antecedent);
    None
}

/// Forces what the open terms of the sum have to be.
fn force_terms(known: &mut Known, terms: &Table<Term>, sum: Sum, slack: Slack, number: u32) {
    for place in sum.from..sum.to {
        let term = terms.at(place);
        if (term.failing == 0) & (term.holding < 2) {
            force(known, &term, slack, number);
        }
    }
    let count = sum.to.saturating_sub(sum.from);
    known.work = known.work.wrapping_add(count as u64);
}

/// Looks at the sum: whether it can be what is wanted, and what that forces.
fn propagate_sum(known: &mut Known, sums: &Sums, number: u32) -> Option<Conflict> {
    let sum = sums.sums.at(number as usize);
    let guard = known.value(sum.guard);
    if guard == -1 {
        return None;
    }
    let slack = sums.slacks.at(number as usize);
    let is_low = slack.below < 0;
    if is_low | (slack.above < 0) {
        return deny_guard(known, sum.guard, number, is_low);
    }
    let is_wide = (slack.below >= slack.most) & (slack.above >= slack.most);
    if (guard == 1) & !is_wide {
        force_terms(known, &sums.terms, sum, slack, number);
    }
    None
}

/// Looks at the last sum that waits, if one does.
pub(crate) fn propagate_waiting(known: &mut Known, sums: &mut Sums) -> Option<Conflict> {
    let number = sums.waiting.pop()?;
    settle(sums, number);
    propagate_sum(known, sums, number)
}

/// No sum waits any longer.
pub(crate) fn clear_waiting(sums: &mut Sums) {
    for place in 0..sums.waiting.len() {
        let number = sums.waiting.at(place);
        settle(sums, number);
    }
    sums.waiting.clear();
}
