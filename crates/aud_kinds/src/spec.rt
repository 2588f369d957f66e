//! What a store needs of a kind of objects.

ghost use Rattle.std.specs.Prelude.{◌≡◌, ◌↔◌, IfOk, OnOk, OnErr, IsTrue, MatchOption, true};
ghost use Rattle.aud_event.specs.declared.object.ObjKind.{ObjKind};
ghost use Rattle.aud_event.specs.Objects.{name_of, is_of_kind, is_observing};
ghost use Rattle.aud_kinds.specs.Objects.{ObjState, opens_at, answer_of, after_op, digest_of};
ghost use Rattle.aud_kinds.specs.Orders.{state_cmp};
ghost use Rattle.aud_kinds.specs.Kinds.{HasAnswers, StaysPut};

use aud_event::{Answer, Op, OutOfMemory};
use std::alloc::Allocator;
use std::cmp::Ordering;

/// A kind of objects: where they open, what they answer to an operation, what they then hold, and how that is taken back.
///
/// An operation of another kind is answered Done and changes nothing, as the tables say of it.
pub trait ObjectSpec {
    /// What is kept of an object.
    type State: Drop;

    /// What has to be known to take a change back.
    type Change: Copy;

    /// What the states keep their memory in.
    type Alloc: Allocator + Drop;

    ghost kind: { ObjKind };

    // what a state means
    ghost means: { Self.State → ObjState };

    // the state once a change is taken back
    ghost before: { Self.State → Self.Change → Self.State };

    /// The state at which an object opens. It does not allocate.
    fn opening(alloc: Self::Alloc, value: i64) -> Self::State
        ensures { means result ≡ opens_at kind value };

    /// Runs the operation, and says what it changed. The answer, and the state after it, are those of the tables; a refused
    /// call leaves the state.
    fn apply_with_undo(
        state: &mut Self::State,
        op: &Op,
    ) -> Result<(Answer, Option<Self::Change>), OutOfMemory>
    where
        Self::Alloc: Clone,
        ensures answer { IfOk result (λ a. a.0 ≡ answer_of (means state.old) op.now) }
        ensures after { OnOk result (means state.new ≡ after_op (means state.old) op.now) }
        ensures back { IfOk result (λ a. MatchOption a.1 (state.new ≡ state.old) (λ change. before state.new change ≡ state.old)) }
        ensures err { OnErr result (state.new ≡ state.old) };

    /// Runs the operation, for those who take nothing back. The answer, and the state after it, are those of the tables; a
    /// refused call leaves the state.
    fn apply(state: &mut Self::State, op: &Op) -> Result<Answer, OutOfMemory>
    where
        Self::Alloc: Clone,
        ensures answer { IfOk result (λ a. a ≡ answer_of (means state.old) op.now) }
        ensures after { OnOk result (means state.new ≡ after_op (means state.old) op.now) }
        ensures err { OnErr result (state.new ≡ state.old) }
    {
        let (answer, _change) = Self::apply_with_undo(state, op)?;
        Ok(answer)
    }

    /// Takes back what the change was. It does not allocate.
    fn back(state: &mut Self::State, change: Self::Change)
        ensures { state.new ≡ before state.old change };

    /// Whether the operation, which is of the kind, observes: it then leaves every state as it is.
    fn observes(op: &Op) -> bool
        requires { is_of_kind kind (name_of op.now) ≡ true }
        ensures stays { IsTrue result → (s : Self.State) → after_op (means s) op.now ≡ means s }
        ensures row { result ≡ is_observing op.now };

    /// What the operation would be answered now.
    fn answer(state: &Self::State, op: &Op) -> Answer
        ensures { result ≡ answer_of (means state.now) op.now };

    /// Whether two states mean the same, in time linear in their sizes.
    fn same(state: &Self::State, other: &Self::State) -> bool
        ensures { IsTrue result ↔ (means state.now ≡ means other.now) };

    /// The order of two states of the kind, in time linear in their sizes.
    fn order(state: &Self::State, other: &Self::State) -> Ordering
        ensures { result ≡ state_cmp (means state.now) (means other.now) };

    /// A number that is the same for states that mean the same, in time linear in their size.
    fn digest(state: &Self::State) -> u64
        ensures { result ≡ digest_of (means state.now) };

    /// How many numbers are kept beside the state's own: what a copy costs.
    fn size(state: &Self::State) -> usize;

    /// A state that equals this one, in the same allocator.
    fn copy(state: &Self::State) -> Result<Self::State, OutOfMemory>
    where
        Self::Alloc: Clone,
        ensures { IfOk result (λ copy. copy ≡ state.now) };

    // every operation of the kind has an answer of its own in every state
    ghost answers: { HasAnswers kind means };

    // an observing operation leaves every state as it is
    ghost stays_put: { StaysPut means };
}
