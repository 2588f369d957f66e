//! Registers.

ghost use Rattle.std.specs.Prelude.{◌≡◌};
ghost use Rattle.aud_event.specs.declared.object.ObjKind.TheVariants as kind;
ghost use Rattle.aud_kinds.specs.Objects.{register};
ghost use Rattle.aud_kinds.specs.Kinds.{register_answers, register_stays};

use crate::spec::ObjectSpec;
use aud_event::{Answer, Op, OutOfMemory};
use base_undo::stir;
use std::alloc::{Allocator, Global};
use std::cmp::Ordering;
use std::marker::PhantomData;

/// A register of an i64: Read answers its value, Write sets it. It opens at any i64. A change is the value before it.
pub struct Register<A = Global> {
    of: PhantomData<A>,
}

impl<A: Allocator + Drop> ObjectSpec for Register<A> {
    type State = i64;

    type Change = i64;

    type Alloc = A;

    ghost kind = { kind.Register };

    ghost means = { register };

    ghost before = { λ _ old. old };

    ghost answers = { register_answers };

    ghost stays_put = { register_stays };

    fn opening(_alloc: A, value: i64) -> i64 {
        value
    }

    fn apply_with_undo(state: &mut i64, op: &Op) -> Result<(Answer, Option<i64>), OutOfMemory>
    where
        A: Clone,
    {
        match *op {
            Op::Read => Ok((Answer::Int(*state), None)),
            Op::Write(v) => {
                let old = *state;
                *state = v;
                Ok((Answer::Done, Some(old)))
            }
            // of another kind
            _ => Ok((Answer::Done, None)),
        }
    }

    fn back(state: &mut i64, change: i64) {
        *state = change;
    }

    fn observes(op: &Op) -> bool {
        match op {
            Op::Read => true,
            _ => false,
        }
    }

    fn answer(state: &i64, op: &Op) -> Answer {
        match op {
            Op::Read => Answer::Int(*state),
            // to a write, and to what is of another kind
            _ => Answer::Done,
        }
    }

    fn same(state: &i64, other: &i64) -> bool {
        *state == *other
    }

    fn order(state: &i64, other: &i64) -> Ordering {
        state.cmp(other)
    }

    fn digest(state: &i64) -> u64 {
        stir(1, state.cast_unsigned())
    }

    fn size(_state: &i64) -> usize {
        0
    }

    fn copy(state: &i64) -> Result<i64, OutOfMemory>
    where
        A: Clone,
    {
        Ok(*state)
    }
}
