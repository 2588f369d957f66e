//! Clauses that list which additions may be what is taken.

ghost use Rattle.std.specs.Prelude.{◌≡◌, true, false, Some, slice_get, IsTrue};
ghost use Rattle.aud_history.specs.Table.{RowOf, table_of};
ghost use Rattle.judge_clauses.specs.Clauses.{says, Unless, IsValid};
ghost use Rattle.judge_clauses.specs.declared.clause.Atom.TheVariants.{Item};
ghost use Rattle.search_model.specs.Blocks.{is_addition_of};
ghost use Rattle.judge_queues.specs.Laws.{NoItem, IsNoAdder, AreNoAdders};

use crate::known::{is_queue, may_come, taken_by};
use aud_history::TxRow;
use aud_object::Execution;
use judge_clauses::{Atom, KnownFacts, Literal, Take};
use search_model::{is_addition, is_addition_of};
use std::alloc::Allocator;

/// Whose addition may be what is taken, and with which value.
#[derive(Clone, Copy)]
struct Candidate {
    take: Take,
    adder: u32,
    value: i64,
}

/// Whether the addition of this number is not what is taken where the clause does not hold, if it is of the value.
fn is_no_item<A: Allocator + Copy>(
    facts: &KnownFacts<A>,
    clause: &[Literal],
    candidate: Candidate,
    addition: u32,
    execution: &Execution,
) -> bool
    ensures { IsTrue result → is_addition_of candidate.take.object candidate.value execution.now ≡ true → Unless facts.now clause.now (λ p. says facts.now.history p (Item candidate.take candidate.adder addition) ≡ false) }
{
    if !is_addition_of(execution, candidate.take.object, candidate.value) {
        return true;
    }
    facts.is_not_so(
        clause,
        Atom::Item(candidate.take, candidate.adder, addition),
    )
}

/// Whether none of the first additions of the value among the executions, so many, is what is taken where the clause does not hold.
fn is_none_item<A: Allocator + Copy>(
    facts: &KnownFacts<A>,
    clause: &[Literal],
    candidate: Candidate,
    limit: usize,
    executions: &[Execution],
) -> bool
    ensures { IsTrue result → NoItem facts.now clause.now candidate.take candidate.adder candidate.value limit executions.now }
{
    let mut number: u32 = 0;
    for execution in executions {
        if is_addition(execution, candidate.take.object) {
            if number as usize >= limit {
                return true;
            }
            if !is_no_item(facts, clause, candidate, number, execution) {
                return false;
            }
            let Some(next) = number.checked_add(1) else {
                return false;
            };
            number = next;
        }
    }
    true
}

/// Whether none of the row's additions of the value is what is taken where the clause does not hold, if the row commits and stands before
/// the taker.
fn is_no_adder<A: Allocator + Copy>(
    facts: &KnownFacts<A>,
    clause: &[Literal],
    take: Take,
    value: i64,
    row: &TxRow<A>,
) -> bool
    ensures { IsTrue result → IsNoAdder facts.now clause.now take value row.now }
{
    let adder = row.tx();
    if !may_come(facts, adder, take.taker) {
        return true;
    }
    let executions = row.block().executions();
    let candidate = Candidate { take, adder, value };
    is_none_item(facts, clause, candidate, executions.len(), executions)
}

/// Whether none of the additions of the value by the row of the place is what is taken where the clause does not hold, if the row commits and
/// stands before the taker. It looks at no executions of a row that does not touch the queue.
fn is_no_adder_at<A: Allocator + Copy>(
    facts: &KnownFacts<A>,
    clause: &[Literal],
    take: Take,
    value: i64,
    place: usize,
) -> bool
    ensures { IsTrue result → (row : RowOf) → slice_get (table_of facts.now.history) place ≡ Some row → IsNoAdder facts.now clause.now take value row }
{
    if !facts.touches(place, take.object) {
        return true;
    }
    match facts.rows().get(place) {
        Some(row) => is_no_adder(facts, clause, take, value, row),
        None => false,
    }
}

/// Whether no addition of the value by a row that commits and stands before the taker is what is taken where the clause does not hold.
fn are_no_adders<A: Allocator + Copy>(
    facts: &KnownFacts<A>,
    clause: &[Literal],
    take: Take,
    value: i64,
) -> bool
    ensures { IsTrue result → AreNoAdders facts.now clause.now take value }
{
    for place in 0..facts.rows().len() {
        if !is_no_adder_at(facts, clause, take, value, place) {
            return false;
        }
    }
    true
}

/// Whether the clause lists each addition that may be what is taken.
pub(crate) fn lists_items<A: Allocator + Copy>(
    facts: &KnownFacts<A>,
    clause: &[Literal],
    take: Take,
) -> bool
    ensures { IsTrue result → IsValid facts.now clause.now }
{
    let _history = facts.history();
    if !is_queue(facts, take.object) {
        return false;
    }
    let Some(item) = taken_by(facts, take) else {
        return false;
    };
    let Some(row) = facts.row(take.taker) else {
        return false;
    };
    let own = Candidate {
        take,
        adder: take.taker,
        value: item.value,
    };
    if !is_none_item(facts, clause, own, item.additions, row.block().executions()) {
        return false;
    }
    are_no_adders(facts, clause, take, item.value)
}
