//! What executions need of a cell, and what they leave there.

ghost use Rattle.std.specs.Prelude.{◌≡◌, None};
ghost use Rattle.search_model.specs.Cells.{meets, stays, moves, needs, leaves};

use crate::cell::{Cell, Need};
use crate::operations::{asks, puts};
use aud_object::Execution;

/// Whether the cell, which holds this, is as it is needed.
pub fn meets(need: Need, content: Option<i64>) -> bool
    ensures { result ≡ meets need content }
{
    match (need, content) {
        (Need::Absent, None) => true,
        (Need::Present, Some(_)) => true,
        (Need::Holding(wanted), Some(value)) => value == wanted,
        _ => false,
    }
}

/// Whether to leave this where that was needed is no change.
fn stays(need: Need, left: Option<i64>) -> bool
    ensures { result ≡ stays need left }
{
    match (need, left) {
        (Need::Absent, None) => true,
        (Need::Holding(wanted), Some(value)) => value == wanted,
        _ => false,
    }
}

/// Whether what is left, if something is, is other than what was there, as far as the need tells.
pub fn moves(need: Option<Need>, left: Option<Option<i64>>) -> bool
    ensures { result ≡ moves need left }
{
    match (need, left) {
        (_, None) => false,
        (None, Some(_)) => true,
        (Some(need), Some(left)) => !stays(need, left),
    }
}

/// What the executions first need of the cell, before they change it.
pub fn needs(executions: &[Execution], object: u16, cell: Cell) -> Option<Need>
    ensures { result ≡ needs cell object executions.now }
{
    for execution in executions {
        if execution.object == object {
            if let Some(need) = asks(cell, execution.op, execution.answer) {
                return Some(need);
            }
            if puts(cell, execution.op, execution.answer).is_some() {
                return None;
            }
        }
    }
    None
}

/// What the executions leave in the cell, if one of them changes it.
pub fn leaves(executions: &[Execution], object: u16, cell: Cell) -> Option<Option<i64>>
    ensures { result ≡ leaves cell object None executions.now }
{
    let mut last = None;
    for execution in executions {
        if execution.object == object {
            if let Some(left) = puts(cell, execution.op, execution.answer) {
                last = Some(left);
            }
        }
    }
    last
}
