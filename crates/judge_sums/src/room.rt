//! Counters that cannot come to the ends of their range.

ghost use Rattle.std.specs.Prelude.{◌≡◌, pos, Some, slice_get, IfSome, IsTrue};
ghost use Rattle.aud_history.specs.Table.{RowOf, transactions, table_of};
ghost use Rattle.search_model.specs.declared.quantity.Quantity.TheVariants.{Count};
ghost use Rattle.search_model.specs.Quantities.{reach_by, reaches, reach_of};
ghost use Rattle.judge_sums.specs.Sums.{sum_of};
ghost use Rattle.judge_sums.specs.Room.{HasRoomForAll, IsWiderBy};

use crate::bounds::Bounds;
use aud_object::Execution;
use judge_clauses::KnownFacts;
use search_model::{Quantity, change_by};
use std::alloc::Allocator;

/// What a count lies between, if it lay between these before the execution.
fn after_one(room: Bounds, counter: u16, execution: &Execution) -> Option<Bounds>
    ensures { IfSome result (λ wide. IsWiderBy wide room (pos (reach_by (Count counter) execution.now))) }
{
    let change = change_by(Quantity::Count(counter), execution);
    if change < 0 {
        Some(Bounds {
            low: room.low.checked_add(change)?,
            high: room.high.checked_sub(change)?,
        })
    } else {
        Some(Bounds {
            low: room.low.checked_sub(change)?,
            high: room.high.checked_add(change)?,
        })
    }
}

/// What a count lies between, if it lay between these before some of the executions ran.
fn after_some(room: Bounds, counter: u16, executions: &[Execution]) -> Option<Bounds>
    ensures { IfSome result (λ wide. IsWiderBy wide room (pos (reaches (Count counter) executions.now))) }
{
    let mut wide = room;
    for execution in executions {
        wide = after_one(wide, counter, execution)?;
    }
    Some(wide)
}

/// What a count lies between, if it lay between these before some executions of the row of the place ran.
fn after_row<A: Allocator + Copy>(
    room: Bounds,
    counter: u16,
    facts: &KnownFacts<A>,
    place: usize,
) -> Option<Bounds>
    ensures { IfSome result (λ wide. (row : RowOf) → slice_get (table_of facts.now.history) place ≡ Some row → IsWiderBy wide room (pos (reaches (Count counter) row.block.executions))) }
{
    if !facts.touches(place, counter) {
        return Some(room);
    }
    let row = facts.rows().get(place)?;
    after_some(room, counter, row.block().executions())
}

/// What a count lies between, if it lay between these before some of the transactions ran.
fn after_rows<A: Allocator + Copy>(
    room: Bounds,
    counter: u16,
    facts: &KnownFacts<A>,
) -> Option<Bounds>
    ensures { IfSome result (λ wide. IsWiderBy wide room (sum_of (λ t. pos (reach_of facts.now.history (Count counter) t)) (transactions facts.now.history))) }
{
    let mut wide = room;
    for place in 0..facts.rows().len() {
        wide = after_row(wide, counter, facts, place)?;
    }
    Some(wide)
}

/// Whether the counter, which opens at the count, stays in its range whichever transactions run.
pub(crate) fn has_room<A: Allocator + Copy>(
    facts: &KnownFacts<A>,
    counter: u16,
    opening: i64,
) -> bool
    ensures { IsTrue result → HasRoomForAll facts.now counter opening }
{
    let room = Bounds {
        low: opening,
        high: opening,
    };
    match after_rows(room, counter, facts) {
        Some(_) => true,
        None => false,
    }
}
