//! Queues.

ghost use Rattle.std.specs.Prelude.{◌≡◌};
ghost use Rattle.aud_event.specs.declared.object.ObjKind.TheVariants as kind;
ghost use Rattle.aud_kinds.specs.Objects.{queue, front_of};
ghost use Rattle.base_undo.specs.Keeps.{items_in, back_items};
ghost use Rattle.aud_kinds.specs.Kinds.{queue_answers, queue_stays};

use crate::spec::ObjectSpec;
use aud_event::{Answer, Dup, Op, OutOfMemory};
use base_undo::{Items, ItemsChange};
use std::alloc::{Allocator, Global};
use std::cmp::Ordering;
use std::marker::PhantomData;

/// A queue of i64, at first empty, first in, first out: Enq puts an item after the others, Deq takes the front one.
pub struct Queue<A = Global> {
    of: PhantomData<A>,
}

/// What is answered to a removal from the front of these items.
fn front_answer(items: &[i64]) -> Answer
    ensures { result ≡ front_of items.now }
{
    match items.first() {
        Some(front) => Answer::Int(*front),
        None => Answer::Empty,
    }
}

impl<A: Allocator + Drop> ObjectSpec for Queue<A> {
    type State = Items<A>;

    type Change = ItemsChange;

    type Alloc = A;

    ghost kind = { kind.Queue };

    ghost means = { λ q. queue (items_in q) };

    ghost before = { back_items };

    ghost answers = { queue_answers };

    ghost stays_put = { queue_stays };

    fn opening(alloc: A, _value: i64) -> Items<A> {
        Items::new(alloc)
    }

    fn apply_with_undo(
        state: &mut Items<A>,
        op: &Op,
    ) -> Result<(Answer, Option<ItemsChange>), OutOfMemory>
    where
        A: Clone,
    {
        match *op {
            Op::Enq(v) => {
                state.enqueue(v)?;
                Ok((Answer::Done, Some(ItemsChange::Came)))
            }
            Op::Deq => match state.dequeue() {
                Some(v) => Ok((Answer::Int(v), Some(ItemsChange::Left))),
                None => Ok((Answer::Empty, None)),
            },
            // of another kind
            _ => Ok((Answer::Done, None)),
        }
    }

    fn back(state: &mut Items<A>, change: ItemsChange) {
        state.back(change);
    }

    fn observes(_op: &Op) -> bool {
        false
    }

    fn answer(state: &Items<A>, op: &Op) -> Answer {
        match op {
            Op::Deq => front_answer(state.left()),
            // to an item that comes, and to what is of another kind
            _ => Answer::Done,
        }
    }

    fn same(state: &Items<A>, other: &Items<A>) -> bool {
        state.same(other)
    }

    fn order(state: &Items<A>, other: &Items<A>) -> Ordering {
        state.order(other)
    }

    fn digest(state: &Items<A>) -> u64 {
        state.digest(4)
    }

    fn size(state: &Items<A>) -> usize {
        state.size()
    }

    fn copy(state: &Items<A>) -> Result<Items<A>, OutOfMemory>
    where
        A: Clone,
    {
        state.dup()
    }
}
