//! Copies of lists.

ghost use Rattle.std.specs.Prelude.{◌≡◌, IfOk, OnOk, OnErr, [], ◌∷◌, ◌++◌};

use base_values::{Dup, OutOfMemory};
use std::alloc::Allocator;

/// Puts a copy of the item at the end.
pub fn push_copy<T: Dup, A: Allocator>(all: &mut Vec<T, A>, item: &T) -> Result<(), OutOfMemory>
    ensures ok { OnOk result (all.new.items ≡ all.old.items ++ item.now ∷ []) }
    ensures err { OnErr result (all.new.items ≡ all.old.items) }
{
    all.push(item.dup()?)?;
    Ok(())
}

/// A list with copies of the items, of as much memory as they take.
pub fn copied<T: Dup, A: Allocator>(alloc: A, items: &[T]) -> Result<Vec<T, A>, OutOfMemory>
    ensures { IfOk result (λ all. all.items ≡ items.now) }
{
    let mut all = Vec::with_capacity(alloc, items.len())?;
    for item in items {
        push_copy(&mut all, item)?;
    }
    Ok(all)
}
