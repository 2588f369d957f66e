//! Blocks that contradict themselves on a cell.

ghost use Rattle.std.specs.Prelude.{◌≡◌, None, IsTrue};
ghost use Rattle.judge_clauses.specs.Clauses.{IsValid};
ghost use Rattle.judge_cells.specs.Clashes.{are_apart, learned, kept_known, fails, clashes};

use crate::opening::opening;
use aud_object::Execution;
use judge_clauses::{KnownFacts, Literal};
use search_model::{Cell, Need, asks, puts};
use std::alloc::Allocator;

/// Whether no cell is as both need it.
fn are_apart(need: Need, known: Need) -> bool
    ensures { result ≡ are_apart need known }
{
    match (need, known) {
        (Need::Absent, Need::Absent) => false,
        (Need::Absent, _) | (_, Need::Absent) => true,
        (Need::Holding(value), Need::Holding(other)) => value != other,
        _ => false,
    }
}

/// What is known of the cell once a need of it was met.
fn learned(need: Option<Need>, known: Option<Need>) -> Option<Need>
    ensures { result ≡ learned need known }
{
    match (need, known) {
        (None, _) => known,
        (Some(Need::Present), Some(_)) => known,
        _ => need,
    }
}

/// What is known of it once it was left so, if it was changed.
fn kept_known(left: Option<Option<i64>>, known: Option<Need>) -> Option<Need>
    ensures { result ≡ kept_known left known }
{
    match left {
        None => known,
        Some(None) => Some(Need::Absent),
        Some(Some(value)) => Some(Need::Holding(value)),
    }
}

/// Whether what is needed is other than what is known.
fn fails(need: Option<Need>, known: Option<Need>) -> bool
    ensures { result ≡ fails need known }
{
    match (need, known) {
        (Some(need), Some(known)) => are_apart(need, known),
        _ => false,
    }
}

/// Whether some execution needs of the cell other than what is known of it from those before.
fn clashes(executions: &[Execution], object: u16, cell: Cell) -> bool
    ensures { result ≡ clashes cell object None executions.now }
{
    let mut known = None;
    for execution in executions {
        if execution.object == object {
            let need = asks(cell, execution.op, execution.answer);
            if fails(need, known) {
                return true;
            }
            let left = puts(cell, execution.op, execution.answer);
            known = kept_known(left, learned(need, known));
        }
    }
    false
}

/// Whether the transaction's block contradicts itself on the cell: then no order shows the history, and every clause holds in each.
pub(crate) fn is_clash<A: Allocator + Copy>(
    facts: &KnownFacts<A>,
    clause: &[Literal],
    tx: u32,
    object: u16,
    cell: Cell,
) -> bool
    ensures { IsTrue result → IsValid facts.now clause.now }
{
    let _history = facts.history();
    let Some(row) = facts.row(tx) else {
        return false;
    };
    let Some(_) = opening(facts, object, cell) else {
        return false;
    };
    clashes(row.block().executions(), object, cell)
}
