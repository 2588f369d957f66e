//! What a cover leaves open.

ghost use Rattle.std.specs.Prelude.{◌≡◌, IfOk, OnOk};
ghost use Rattle.aud_order.specs.Shapes.{objects_of, history_of};
ghost use Rattle.aud_cover.specs.Openings.{AreOpen, IsEmptyWhereClosed};
ghost use Rattle.aud_cover.specs.Leading.{AddsOpen};

use aud_event::OutOfMemory;
use aud_lattice::{Cover, Mark, Trie};
use aud_order::{Cursor, Shape};
use aud_witness::{Decision, Prefix, add_copy};
use std::alloc::Allocator;

/// Adds the open prefixes that begin with the cursor's, the least first, where it leads to the node. The cursor comes back to it.
fn open_here<A: Allocator + Copy>(
    alloc: A,
    node: &Trie<Decision, A>,
    cursor: &mut Cursor<A>,
    list: &mut Vec<Prefix<A>, A>,
) -> Result<(), OutOfMemory>
    ensures added { OnOk result (AddsOpen cursor.old node.now list.old.items list.new.items) }
    ensures back { OnOk result (cursor.new ≡ cursor.old) }
{
    let path = cursor.prefix();
    match node.here() {
        Mark::Covered => return Ok(()),
        Mark::Outside => return add_copy(alloc, path, list),
        Mark::Inner => {}
    }
    if cursor.full() {
        return Ok(());
    }
    let kids = cursor.kids(alloc)?;
    for kid in &kids {
        let _ = cursor.push(*kid)?;
        match node.step(kid) {
            Some(below) => open_here(alloc, below, cursor, list)?,
            None => add_copy(alloc, cursor.prefix(), list)?,
        }
        let _ = cursor.pop();
    }
    Ok(())
}

/// The good prefixes at which the cover stops, the least first: it has no beginning of them, they begin no
/// member, and they are empty or their parents are good proper beginnings of members without a beginning in the cover.
/// Where no member has more decisions than the history has transactions, there is none exactly where the empty prefix is
/// closed. It looks at no prefix that is not a beginning of a member, or a kid of one.
pub fn open_list<A: Allocator + Copy>(
    alloc: A,
    cover: &Cover<Decision, A>,
    shape: &Shape<A>,
) -> Result<Vec<Prefix<A>, A>, OutOfMemory>
    ensures open { IfOk result (λ list. AreOpen (objects_of shape.now) (history_of shape.now) cover.now list.items) }
    ensures empty { IfOk result (λ list. IsEmptyWhereClosed (objects_of shape.now) (history_of shape.now) cover.now list.items) }
{
    let mut list = Vec::new(alloc);
    let mut cursor = Cursor::root(alloc, shape)?;
    open_here(alloc, cover.trie(), &mut cursor, &mut list)?;
    Ok(list)
}
