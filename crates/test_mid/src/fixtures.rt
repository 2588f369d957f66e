//! What several modules share: shapes of facts, and one push for all lists.

use aud_event::OutOfMemory;
use aud_facts::Sealed;
use aud_order::Shape;
use std::alloc::{Allocator, Global};
use std::sync::Arc;
use test_worked::{Unread, sealed_of};

/// Puts the item at the end. One function meets the refusal for all lists, so the others are proved faster.
pub fn push<T: Drop>(items: &mut Vec<T>, item: T) -> Result<(), OutOfMemory> {
    items.push(item)?;
    Ok(())
}

/// The shape of a sealed set, where its history is well-formed.
fn shape_of_sealed<A: Allocator + Copy>(
    alloc: A,
    sealed: Arc<Sealed<A>, A>,
) -> Result<Option<Shape<A>>, Unread> {
    match sealed.history().first_fault() {
        Some(_) => Ok(None),
        None => Ok(Some(Shape::of(alloc, sealed)?)),
    }
}

/// The shape of the facts that a text says, which are sealed and have a well-formed history.
pub fn shape_of(alloc: Global, text: &str) -> Result<Shape, Unread> {
    shape_of_sealed(alloc, sealed_of(alloc, text)?)?.ok_or(Unread::Unsealed)
}
