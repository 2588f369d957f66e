//! Changes of cells.

ghost use Rattle.std.specs.Prelude.{◌≡◌, None, Some, true, false, IfNone, IfSome, IsTrue};
ghost use Rattle.aud_history.specs.Histories.{is_in};
ghost use Rattle.search_model.specs.Cells.{needs, leaves, moves, changes};

use aud_object::Execution;
use judge_clauses::KnownFacts;
use search_model::{Cell, leaves, moves, needs};
use std::alloc::Allocator;

/// What the executions leave in the cell, if they change it.
pub(crate) fn change(executions: &[Execution], object: u16, cell: Cell) -> Option<Option<i64>>
    ensures none { IfNone result (moves (needs cell object executions.now) (leaves cell object None executions.now) ≡ false) }
    ensures moved { IfSome result (λ left. moves (needs cell object executions.now) (leaves cell object None executions.now) ≡ true) }
    ensures left { IfSome result (λ left. leaves cell object None executions.now ≡ Some left) }
{
    let left = leaves(executions, object, cell)?;
    if moves(needs(executions, object, cell), Some(left)) {
        Some(left)
    } else {
        None
    }
}

/// Whether the transaction is in the history and changes the cell.
pub(crate) fn is_change<A: Allocator + Copy>(
    facts: &KnownFacts<A>,
    tx: u32,
    object: u16,
    cell: Cell,
) -> bool
    ensures { IsTrue result → (is_in facts.now.history tx ≡ true) × (changes facts.now.history cell object tx ≡ true) }
{
    match facts.row(tx) {
        Some(row) => change(row.block().executions(), object, cell).is_some(),
        None => false,
    }
}
