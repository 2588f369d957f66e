//! Clauses on items that stood in front, which somebody must have taken before.

ghost use Rattle.std.specs.Prelude.{◌≡◌, ℕ, true, false, Some, slice_get, IsTrue};
ghost use Rattle.aud_history.specs.Table.{RowOf, row_of, table_of};
ghost use Rattle.judge_clauses.specs.Clauses.{IsValid};
ghost use Rattle.search_model.specs.Blocks.{added_of, takes_value};
ghost use Rattle.judge_queues.specs.Laws.{IsNoTaker, AreNoTakers, IsStuck};

use crate::known::{asked_in, has_take, is_queue};
use crate::places::never_comes;
use aud_event::Answer;
use aud_history::TxRow;
use judge_clauses::{Atom, KnownFacts, Literal, Take};
use search_model::{adds_value, takes_value};
use std::alloc::Allocator;

/// An item that stood in front: who added it, and its value.
#[derive(Clone, Copy)]
pub struct FrontItem {
    pub adder: u32,
    pub value: i64,
}

/// An item of this value on the queue.
#[derive(Clone, Copy)]
struct Goods {
    queue: u16,
    value: i64,
}

/// Whether the row does not take the value and come before the taker where the clause does not hold.
fn is_no_taker<A: Allocator + Copy>(
    facts: &KnownFacts<A>,
    clause: &[Literal],
    goods: Goods,
    taker: u32,
    row: &TxRow<A>,
) -> bool
    ensures { IsTrue result → IsNoTaker facts.now clause.now goods.queue goods.value taker row.now }
{
    if !takes_value(row.block().executions(), goods.queue, goods.value) {
        return true;
    }
    never_comes(facts, clause, row.tx(), taker)
}

/// Whether the row of the place does not take the value and come before the taker where the clause does not hold. It looks at no executions of
/// a row that does not touch the queue.
fn is_no_taker_at<A: Allocator + Copy>(
    facts: &KnownFacts<A>,
    clause: &[Literal],
    goods: Goods,
    taker: u32,
    place: usize,
) -> bool
    ensures { IsTrue result → (row : RowOf) → slice_get (table_of facts.now.history) place ≡ Some row → IsNoTaker facts.now clause.now goods.queue goods.value taker row }
{
    if !facts.touches(place, goods.queue) {
        return true;
    }
    match facts.rows().get(place) {
        Some(row) => is_no_taker(facts, clause, goods, taker, row),
        None => false,
    }
}

/// Whether no row takes the value and comes before the taker where the clause does not hold.
fn are_no_takers<A: Allocator + Copy>(
    facts: &KnownFacts<A>,
    clause: &[Literal],
    goods: Goods,
    taker: u32,
) -> bool
    ensures { IsTrue result → AreNoTakers facts.now clause.now goods.queue goods.value taker }
{
    for place in 0..facts.rows().len() {
        if !is_no_taker_at(facts, clause, goods, taker, place) {
            return false;
        }
    }
    true
}

/// Whether the transaction takes no such item.
fn takes_none<A: Allocator + Copy>(facts: &KnownFacts<A>, goods: Goods, tx: u32) -> bool
    ensures { IsTrue result → takes_value goods.queue goods.value (row_of facts.now.history tx).block.executions ≡ false }
{
    match facts.row(tx) {
        Some(row) => !takes_value(row.block().executions(), goods.queue, goods.value),
        None => false,
    }
}

/// Whether the transaction adds such an item.
fn adds_some<A: Allocator + Copy>(facts: &KnownFacts<A>, goods: Goods, tx: u32) -> bool
    ensures { IsTrue result → (i : ℕ) × (slice_get (added_of facts.now.history goods.queue tx) i ≡ Some goods.value) }
{
    match facts.row(tx) {
        Some(row) => adds_value(row.block().executions(), goods.queue, goods.value),
        None => false,
    }
}

/// Whether such an item of another transaction stood in front of those of the adder, and neither the taker nor any before it takes it, where
/// the clause does not hold.
fn is_stuck<A: Allocator + Copy>(
    facts: &KnownFacts<A>,
    clause: &[Literal],
    goods: Goods,
    taker: u32,
    adder: u32,
    other: u32,
) -> bool
    ensures { IsTrue result → IsStuck facts.now clause.now goods.queue goods.value taker adder other }
{
    if !adds_some(facts, goods, other) || !takes_none(facts, goods, taker) {
        return false;
    }
    if !facts.is_so(clause, Atom::Before(other, adder)) {
        return false;
    }
    if !facts.is_so(clause, Atom::Commits(other)) {
        return false;
    }
    are_no_takers(facts, clause, goods, taker)
}

/// Whether an item of another transaction stood in front of what is taken where the clause does not hold, and nobody took it.
pub(crate) fn has_item_in_front<A: Allocator + Copy>(
    facts: &KnownFacts<A>,
    clause: &[Literal],
    take: Take,
    item: (u32, u32),
    front: FrontItem,
) -> bool
    ensures { IsTrue result → IsValid facts.now clause.now }
{
    let _history = facts.history();
    let (adder, addition) = item;
    let goods = Goods {
        queue: take.object,
        value: front.value,
    };
    if !is_queue(facts, take.object) || !has_take(facts, take) {
        return false;
    }
    if !facts.is_so(clause, Atom::Item(take, adder, addition)) {
        return false;
    }
    is_stuck(facts, clause, goods, take.taker, adder, front.adder)
}

/// Whether an item of another transaction stood in the queue that was found empty where the clause does not hold, and nobody took it.
pub(crate) fn is_left<A: Allocator + Copy>(
    facts: &KnownFacts<A>,
    clause: &[Literal],
    taker: u32,
    queue: u16,
    place: usize,
    front: FrontItem,
) -> bool
    ensures { IsTrue result → IsValid facts.now clause.now }
{
    let _history = facts.history();
    if !is_queue(facts, queue) {
        return false;
    }
    let Some(asked) = asked_in(facts, taker, queue, place) else {
        return false;
    };
    let Answer::Empty = asked.answer else {
        return false;
    };
    let goods = Goods {
        queue,
        value: front.value,
    };
    is_stuck(facts, clause, goods, taker, taker, front.adder)
}
