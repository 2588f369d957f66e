//! What is known of a queue and of who asks it.

ghost use Rattle.std.specs.Prelude.{◌≡◌, ◌≤◌, true, false, IfSome, IsTrue};
ghost use Rattle.aud_history.specs.Histories.{is_in};
ghost use Rattle.search_model.specs.Queues.{takes_of};
ghost use Rattle.judge_queues.specs.Laws.{IsQueue, AsksIn, IsTaken, NeverAdds};

use aud_event::{Answer, ObjKind};
use judge_clauses::{Atom, KnownFacts, Take};
use search_model::{Asked, asked_at, count_takes, place_of_take};
use std::alloc::Allocator;

/// Whether the object is a queue.
pub(crate) fn is_queue<A: Allocator + Copy>(facts: &KnownFacts<A>, object: u16) -> bool
    ensures { IsTrue result → IsQueue facts.now object }
{
    match facts.history().plan().object(usize::from(object)) {
        Some(decl) => matches!(decl.kind, ObjKind::Queue),
        None => false,
    }
}

/// What the transaction was answered by its execution at the place, if that asked the queue for an item.
pub(crate) fn asked_in<A: Allocator + Copy>(
    facts: &KnownFacts<A>,
    taker: u32,
    queue: u16,
    place: usize,
) -> Option<Asked>
    ensures { IfSome result (λ asked. AsksIn facts.now taker queue asked.takes asked.additions asked.answer) }
{
    let row = facts.row(taker)?;
    asked_at(row.block().executions(), queue, place)
}

/// A value that was taken, after so many additions of its block.
#[derive(Clone, Copy)]
pub(crate) struct Taken {
    pub(crate) value: i64,
    pub(crate) additions: usize,
}

/// What the take took, if it is there.
pub(crate) fn taken_by<A: Allocator + Copy>(facts: &KnownFacts<A>, take: Take) -> Option<Taken>
    ensures { IfSome result (λ item. IsTaken facts.now take item.value item.additions) }
{
    let row = facts.row(take.taker)?;
    let number = take.number as usize;
    let place = place_of_take(row.block().executions(), take.object, number)?;
    let asked = asked_in(facts, take.taker, take.object, place)?;
    if asked.takes != number {
        return None;
    }
    match asked.answer {
        Answer::Int(value) => Some(Taken {
            value,
            additions: asked.additions,
        }),
        _ => None,
    }
}

/// Whether the take is there, or it is the one after the last.
pub(crate) fn has_take<A: Allocator + Copy>(facts: &KnownFacts<A>, take: Take) -> bool
    ensures { IsTrue result → (is_in facts.now.history take.taker ≡ true) × (take.number ≤ takes_of facts.now.history take.object take.taker) }
{
    match facts.row(take.taker) {
        Some(row) => { take.number as usize <= count_takes(row.block().executions(), take.object) }
        None => false,
    }
}

/// Whether the first transaction may commit and stand before the second one, by real time and sure fates.
pub(crate) fn may_come<A: Allocator + Copy>(facts: &KnownFacts<A>, first: u32, second: u32) -> bool
    ensures { result ≡ false → NeverAdds facts.now first second }
{
    if let Some(false) = facts.sure(Atom::Commits(first)) {
        return false;
    }
    if let Some(false) = facts.sure(Atom::Before(first, second)) {
        return false;
    }
    true
}
