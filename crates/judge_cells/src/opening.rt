//! What cells hold where their objects open.

ghost use Rattle.std.specs.Prelude.{IfSome};
ghost use Rattle.judge_cells.specs.Sources.{OpensWith};

use aud_event::ObjKind;
use judge_clauses::KnownFacts;
use search_model::Cell;
use std::alloc::Allocator;

/// What the cell holds where its object opens, if the object has such a cell.
pub(crate) fn opening<A: Allocator + Copy>(
    facts: &KnownFacts<A>,
    object: u16,
    cell: Cell,
) -> Option<Option<i64>>
    ensures { IfSome result (OpensWith facts.now object cell) }
{
    let decl = facts.history().plan().object(usize::from(object))?;
    match (cell, decl.kind) {
        (Cell::Whole, ObjKind::Register) => Some(Some(decl.opening)),
        (Cell::Element(_), ObjKind::SetOf) => Some(None),
        (Cell::Key(_), ObjKind::MapOf) => Some(None),
        _ => None,
    }
}
