//! Sets.

ghost use Rattle.std.specs.Prelude.{◌≡◌};
ghost use Rattle.aud_event.specs.declared.object.ObjKind.TheVariants as kind;
ghost use Rattle.aud_kinds.specs.Objects.{set_of};
ghost use Rattle.base_undo.specs.Keeps.{members, back_kept};
ghost use Rattle.aud_kinds.specs.Kinds.{set_answers, set_stays};

use crate::spec::ObjectSpec;
use aud_event::{Answer, Dup, Op, OutOfMemory};
use base_undo::{TombstoneChange, TombstoneMap};
use std::alloc::{Allocator, Global};
use std::cmp::Ordering;
use std::marker::PhantomData;

/// A set of i64, at first empty: Add and Remove answer whether they changed it, Contains whether the value is a member.
pub struct SetOf<A = Global> {
    of: PhantomData<A>,
}

#[tactic(auto, using(crate::proofs::Sets::members))]
impl<A: Allocator + Drop> ObjectSpec for SetOf<A> {
    type State = TombstoneMap<(), A>;

    type Change = TombstoneChange<()>;

    type Alloc = A;

    ghost kind = { kind.SetOf };

    ghost means = { λ s. set_of (members s) };

    ghost before = { back_kept };

    ghost answers = { set_answers };

    ghost stays_put = { set_stays };

    fn opening(alloc: A, _value: i64) -> TombstoneMap<(), A> {
        TombstoneMap::new(alloc)
    }

    fn apply_with_undo(
        state: &mut TombstoneMap<(), A>,
        op: &Op,
    ) -> Result<(Answer, Option<TombstoneChange<()>>), OutOfMemory>
    where
        A: Clone,
    {
        match *op {
            Op::Add(v) => {
                if state.get(v).is_some() {
                    return Ok((Answer::Flag(false), None));
                }
                let change = state.put(v, ())?;
                Ok((Answer::Flag(true), Some(change)))
            }
            Op::Remove(v) => {
                let change = state.take(v);
                Ok((Answer::Flag(change.is_some()), change))
            }
            Op::Contains(v) => Ok((Answer::Flag(state.get(v).is_some()), None)),
            // of another kind
            _ => Ok((Answer::Done, None)),
        }
    }

    fn back(state: &mut TombstoneMap<(), A>, change: TombstoneChange<()>) {
        state.back(change);
    }

    fn observes(op: &Op) -> bool {
        match op {
            Op::Contains(_) => true,
            _ => false,
        }
    }

    fn answer(state: &TombstoneMap<(), A>, op: &Op) -> Answer {
        match *op {
            Op::Add(v) => Answer::Flag(state.get(v).is_none()),
            Op::Remove(v) => Answer::Flag(state.get(v).is_some()),
            Op::Contains(v) => Answer::Flag(state.get(v).is_some()),
            // to what is of another kind
            _ => Answer::Done,
        }
    }

    fn same(state: &TombstoneMap<(), A>, other: &TombstoneMap<(), A>) -> bool {
        state.same(other)
    }

    fn order(state: &TombstoneMap<(), A>, other: &TombstoneMap<(), A>) -> Ordering {
        state.order(other)
    }

    fn digest(state: &TombstoneMap<(), A>) -> u64 {
        state.digest(3)
    }

    fn size(state: &TombstoneMap<(), A>) -> usize {
        state.size()
    }

    fn copy(state: &TombstoneMap<(), A>) -> Result<TombstoneMap<(), A>, OutOfMemory>
    where
        A: Clone,
    {
        state.dup()
    }
}
