//! Maps.

ghost use Rattle.std.specs.Prelude.{◌≡◌};
ghost use Rattle.aud_event.specs.declared.object.ObjKind.TheVariants as kind;
ghost use Rattle.aud_kinds.specs.Objects.{map_of, found};
ghost use Rattle.base_undo.specs.Keeps.{entries_in, back_kept};
ghost use Rattle.aud_kinds.specs.Kinds.{map_answers, map_stays};

use crate::spec::ObjectSpec;
use aud_event::{Answer, Dup, Op, OutOfMemory};
use base_undo::{TombstoneChange, TombstoneMap};
use std::alloc::{Allocator, Global};
use std::cmp::Ordering;
use std::marker::PhantomData;

/// A map from i64 to i64, at first empty: Put puts a value under a key, Look answers the value under it or that there is none, Del
/// answers whether it took one from there.
pub struct MapOf<A = Global> {
    of: PhantomData<A>,
}

/// What is answered to a look that found this.
fn answer_found(value: Option<i64>) -> Answer
    ensures { result ≡ found value }
{
    match value {
        Some(value) => Answer::Int(value),
        None => Answer::Empty,
    }
}

#[tactic(auto, using(crate::proofs::Sets::members))]
impl<A: Allocator + Drop> ObjectSpec for MapOf<A> {
    type State = TombstoneMap<i64, A>;

    type Change = TombstoneChange<i64>;

    type Alloc = A;

    ghost kind = { kind.MapOf };

    ghost means = { λ s. map_of (entries_in s) };

    ghost before = { back_kept };

    ghost answers = { map_answers };

    ghost stays_put = { map_stays };

    fn opening(alloc: A, _value: i64) -> TombstoneMap<i64, A> {
        TombstoneMap::new(alloc)
    }

    fn apply_with_undo(
        state: &mut TombstoneMap<i64, A>,
        op: &Op,
    ) -> Result<(Answer, Option<TombstoneChange<i64>>), OutOfMemory>
    where
        A: Clone,
    {
        match *op {
            Op::Put(key, value) => {
                let change = state.put(key, value)?;
                Ok((Answer::Done, Some(change)))
            }
            Op::Look(key) => Ok((answer_found(state.get(key)), None)),
            Op::Del(key) => {
                let change = state.take(key);
                Ok((Answer::Flag(change.is_some()), change))
            }
            // of another kind
            _ => Ok((Answer::Done, None)),
        }
    }

    fn back(state: &mut TombstoneMap<i64, A>, change: TombstoneChange<i64>) {
        state.back(change);
    }

    fn observes(op: &Op) -> bool {
        match op {
            Op::Look(_) => true,
            _ => false,
        }
    }

    fn answer(state: &TombstoneMap<i64, A>, op: &Op) -> Answer {
        match *op {
            Op::Look(key) => answer_found(state.get(key)),
            Op::Del(key) => Answer::Flag(state.get(key).is_some()),
            // to a put, and to what is of another kind
            _ => Answer::Done,
        }
    }

    fn same(state: &TombstoneMap<i64, A>, other: &TombstoneMap<i64, A>) -> bool {
        state.same(other)
    }

    fn order(state: &TombstoneMap<i64, A>, other: &TombstoneMap<i64, A>) -> Ordering {
        state.order(other)
    }

    fn digest(state: &TombstoneMap<i64, A>) -> u64 {
        state.digest(5)
    }

    fn size(state: &TombstoneMap<i64, A>) -> usize {
        state.size()
    }

    fn copy(state: &TombstoneMap<i64, A>) -> Result<TombstoneMap<i64, A>, OutOfMemory>
    where
        A: Clone,
    {
        state.dup()
    }
}
