//! Whether a cover closes a prefix.

ghost use Rattle.std.specs.Prelude.{◌≡◌, ◌↔◌, IfOk, OnOk, IsTrue};
ghost use Rattle.aud_order.specs.Shapes.{objects_of, history_of};
ghost use Rattle.aud_cover.specs.Closings.{IsClosed};
ghost use Rattle.aud_cover.specs.Leading.{ReportsClosed};

use aud_event::OutOfMemory;
use aud_lattice::{Cover, Mark, Trie};
use aud_order::{Cursor, Shape};
use aud_witness::{Decision, Prefix};
use std::alloc::Allocator;

/// Whether the cursor's prefix is closed, where it leads to the node. The cursor comes back to it.
fn closed_here<A: Allocator + Copy>(
    alloc: A,
    node: &Trie<Decision, A>,
    cursor: &mut Cursor<A>,
) -> Result<bool, OutOfMemory>
    ensures closed { IfOk result (ReportsClosed cursor.old node.now) }
    ensures back { OnOk result (cursor.new ≡ cursor.old) }
{
    let _good = cursor.prefix();
    match node.here() {
        Mark::Covered => return Ok(true),
        Mark::Outside => return Ok(false),
        Mark::Inner => {}
    }
    if cursor.full() {
        return Ok(false);
    }
    let kids = cursor.kids(alloc)?;
    for kid in &kids {
        let Some(below) = node.step(kid) else {
            return Ok(false);
        };
        let _ = cursor.push(*kid)?;
        let is_closed = closed_here(alloc, below, cursor)?;
        let _ = cursor.pop();
        if !is_closed {
            return Ok(false);
        }
    }
    Ok(true)
}

/// Whether the cover closes the prefix: it has a beginning of it; or the prefix is not good; or it is not full, is a proper
/// beginning of a member, and all its good extensions by one decision are closed. It looks at no prefix that is not a
/// beginning of a member, or a kid of one.
pub fn closed<A: Allocator + Copy>(
    alloc: A,
    cover: &Cover<Decision, A>,
    shape: &Shape<A>,
    prefix: &Prefix<A>,
) -> Result<bool, OutOfMemory>
    ensures { IfOk result (λ closed. IsTrue closed ↔ IsClosed (objects_of shape.now) (history_of shape.now) cover.now prefix.now) }
{
    if let Mark::Covered = cover.mark(prefix.decisions()) {
        return Ok(true);
    }
    let Some(mut cursor) = Cursor::after(alloc, shape, prefix.decisions())? else {
        return Ok(true);
    };
    match cover.trie().at(prefix.decisions()) {
        Some(node) => closed_here(alloc, node, &mut cursor),
        None => Ok(false),
    }
}
