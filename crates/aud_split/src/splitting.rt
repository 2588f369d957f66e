//! The search below a prefix, split into tasks.

ghost use Rattle.std.specs.Prelude.{◌≡◌, [], IfOk, OnOk};
ghost use Rattle.aud_witness.specs.Orders.{IsGood};
ghost use Rattle.aud_order.specs.Shapes.{objects_of, history_of};
ghost use Rattle.aud_split.specs.Tasks.{AddsTasks, AreTasks};

use aud_event::OutOfMemory;
use aud_order::{Cursor, Shape};
use aud_witness::{Decision, Prefix, add_copy};
use std::alloc::Allocator;

/// Adds the tasks below the cursor's prefix, the least first. The cursor comes back to it.
fn split_here<A: Allocator + Copy>(
    alloc: A,
    cursor: &mut Cursor<A>,
    depth: u32,
    list: &mut Vec<Prefix<A>, A>,
) -> Result<(), OutOfMemory>
    ensures added { OnOk result (AddsTasks cursor.old depth list.old.items list.new.items) }
    ensures back { OnOk result (cursor.new ≡ cursor.old) }
{
    let path = cursor.prefix();
    if depth == 0 || cursor.full() {
        return add_copy(alloc, path, list);
    }
    let kids = cursor.kids(alloc)?;
    if kids.is_empty() {
        return add_copy(alloc, cursor.prefix(), list);
    }
    for kid in &kids {
        let _ = cursor.push(*kid)?;
        split_here(alloc, cursor, depth - 1, list)?;
        let _ = cursor.pop();
    }
    Ok(())
}

/// The good extensions of the prefix by `depth` decisions, or by fewer where the extension is full or has no kids, the least
/// first: the tasks into which the search below the prefix falls. Of a prefix that is not good there is none.
pub fn split<A: Allocator + Copy>(
    alloc: A,
    shape: &Shape<A>,
    prefix: &Prefix<A>,
    depth: u32,
) -> Result<Vec<Prefix<A>, A>, OutOfMemory>
    ensures tasks { IfOk result (λ tasks. AreTasks (objects_of shape.now) (history_of shape.now) prefix.now depth tasks.items) }
    ensures bad { IfOk result (λ tasks. (IsGood (objects_of shape.now) (history_of shape.now) prefix.now → ⊥) → tasks.items ≡ []) }
{
    let mut list = Vec::new(alloc);
    if let Some(mut cursor) = Cursor::after(alloc, shape, prefix.decisions())? {
        split_here(alloc, &mut cursor, depth, &mut list)?;
    }
    Ok(list)
}
