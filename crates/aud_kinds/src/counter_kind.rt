//! Counters.

ghost use Rattle.std.specs.Prelude.{◌≡◌};
ghost use Rattle.aud_event.specs.declared.object.ObjKind.TheVariants as kind;
ghost use Rattle.aud_kinds.specs.Objects.{counter};
ghost use Rattle.aud_kinds.specs.Kinds.{counter_answers, counter_stays};

use crate::spec::ObjectSpec;
use aud_event::{Answer, Op, OutOfMemory};
use base_undo::stir;
use std::alloc::{Allocator, Global};
use std::cmp::Ordering;
use std::marker::PhantomData;

/// A counter: Inc and Dec move it by one, Plus by a number, Get answers it. Where the next count is no i64, it stays. A change
/// is the count before it.
pub struct Counter<A = Global> {
    of: PhantomData<A>,
}

impl<A: Allocator + Drop> ObjectSpec for Counter<A> {
    type State = i64;

    type Change = i64;

    type Alloc = A;

    ghost kind = { kind.Counter };

    ghost means = { counter };

    ghost before = { λ _ old. old };

    ghost answers = { counter_answers };

    ghost stays_put = { counter_stays };

    fn opening(_alloc: A, value: i64) -> i64 {
        value
    }

    fn apply_with_undo(state: &mut i64, op: &Op) -> Result<(Answer, Option<i64>), OutOfMemory>
    where
        A: Clone,
    {
        match op {
            Op::Get => Ok((Answer::Int(*state), None)),
            Op::Inc => {
                let old = *state;
                if old != i64::MAX {
                    *state = old + 1;
                }
                Ok((Answer::Done, Some(old)))
            }
            Op::Dec => {
                let old = *state;
                if old != i64::MIN {
                    *state = old - 1;
                }
                Ok((Answer::Done, Some(old)))
            }
            Op::Plus(addend) => {
                let old = *state;
                if let Some(sum) = old.checked_add(*addend) {
                    *state = sum;
                }
                Ok((Answer::Done, Some(old)))
            }
            // of another kind
            _ => Ok((Answer::Done, None)),
        }
    }

    fn back(state: &mut i64, change: i64) {
        *state = change;
    }

    fn observes(op: &Op) -> bool {
        match op {
            Op::Get => true,
            _ => false,
        }
    }

    fn answer(state: &i64, op: &Op) -> Answer {
        match op {
            Op::Get => Answer::Int(*state),
            // to a step, and to what is of another kind
            _ => Answer::Done,
        }
    }

    fn same(state: &i64, other: &i64) -> bool {
        *state == *other
    }

    fn order(state: &i64, other: &i64) -> Ordering {
        state.cmp(other)
    }

    fn digest(state: &i64) -> u64 {
        stir(2, state.cast_unsigned())
    }

    fn size(_state: &i64) -> usize {
        0
    }

    fn copy(state: &i64) -> Result<i64, OutOfMemory>
    where
        A: Clone,
    {
        Ok(*state)
    }
}
