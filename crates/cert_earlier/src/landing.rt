//! Where a prefix leads, in a few numbers.

ghost use Rattle.std.specs.Prelude.{◌≡◌, ◌∷◌, [], length, map, IfSome, IsTrue};
ghost use Rattle.base_bits.specs.Marked.{marks_of};
ghost use Rattle.aud_object.specs.States.{numbered};
ghost use Rattle.cert_earlier.specs.Landings.{IsLandingOf};

use arrayvec::ArrayVec;
use aud_object::{Number, Store};
use aud_order::Cursor;
use base_bits::Marks;
use std::alloc::Allocator;

/// Of how many objects the states are kept.
const OBJECTS: usize = 4;

/// Where a prefix leads: which transactions are placed, of at most 63, and the states of at most four objects, each a register or
/// a counter.
#[derive(Drop)]
pub struct Landing {
    placed: u64,
    states: ArrayVec<Number, OBJECTS>,
}

/// The marks, if one word has them all.
fn word_of<A: Allocator + Drop>(marks: &Marks<A>) -> Option<u64>
    ensures { IfSome result (λ word. marks.now ≡ marks_of (word ∷ []) (length marks.now)) }
{
    match marks.words() {
        [word] => Some(*word),
        _ => None,
    }
}

/// The states, if they are few and one number each.
fn numbers_of<A: Allocator + Drop>(store: &Store<A>) -> Option<ArrayVec<Number, OBJECTS>>
    ensures { IfSome result (λ numbers. map numbered numbers.items ≡ store.now.now) }
{
    let mut numbers = ArrayVec::new();
    for object in 0..store.len() {
        let number = store.number(object)?;
        if numbers.try_push(number).is_err() {
            return None;
        }
    }
    Some(numbers)
}

fn is_same_number(a: Number, b: Number) -> bool
    ensures { IsTrue result → a ≡ b }
{
    match (a, b) {
        (Number::Register(v), Number::Register(w)) => v == w,
        (Number::Counter(v), Number::Counter(w)) => v == w,
        _ => false,
    }
}

fn are_same(a: &[Number], b: &[Number]) -> bool
    ensures { IsTrue result → a.now ≡ b.now }
{
    if a.len() != b.len() {
        return false;
    }
    for object in 0..a.len() {
        if !is_same_number(a[object], b[object]) {
            return false;
        }
    }
    true
}

impl Landing {
    /// Where the cursor stands, if that is few numbers.
    pub fn of<A: Allocator + Copy>(cursor: &Cursor<A>) -> Option<Landing>
        ensures { IfSome result (IsLandingOf cursor.now.shape cursor.now.path) }
    {
        let placed = word_of(cursor.placed())?;
        let states = numbers_of(cursor.store())?;
        Some(Landing { placed, states })
    }

    /// Whether it is where the cursor stands.
    pub(crate) fn is_of<A: Allocator + Copy>(&self, cursor: &Cursor<A>) -> bool
        ensures { IsTrue result → IsLandingOf cursor.now.shape cursor.now.path self.now }
    {
        match Landing::of(cursor) {
            Some(own) => self.placed == own.placed && are_same(&self.states, &own.states),
            None => false,
        }
    }
}
