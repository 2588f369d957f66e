//! What hears of the prefixes that a search refutes, and why each is.

ghost use Rattle.std.specs.Prelude.{◌<◌, List, length, IfOk, IfSome, IsTrue, MatchOption};
ghost use Rattle.aud_witness.specs.declared.decision.Decision.{Decision};
ghost use Rattle.aud_order.specs.Shapes.{ShapeOf};
ghost use Rattle.search_visited.specs.Visited.{with_place};
ghost use Rattle.search_memo.specs.Known.{MarksRows, IsKnownFor, IsKnownOf};
ghost use Rattle.search_memo.specs.Recorders.{IsHearable, HasNote, IsReason};

use aud_event::OutOfMemory;
use aud_object::Store;
use aud_witness::Decision;
use base_bits::Marks;
use std::alloc::Allocator;
use std::sync::Arc;

/// Why a prefix is refuted.
#[derive(Clone, Copy)]
pub enum RefutedBy<N> {
    /// It is not full, and each good prefix that is one decision longer was noted.
    Kids,
    /// The decision is of a silent transaction and good after the prefix, and the prefix after it was noted.
    Silent(Decision),
    /// The note is of a good prefix that places the same transactions and leaves the same states.
    Same(N),
}

/// What hears of each good prefix that a search refutes, in the order in which they are refuted. A prefix that it noted is named by
/// its note.
pub trait Recorder<N: Copy, A: Allocator>: Drop {
    // It is for searches of the shape.
    ghost is_for: { Self → ShapeOf → Type 0 };

    // The note is of the prefix.
    ghost noted: { Self → N → List Decision → Type 0 };

    // The second knows what the first one did.
    ghost grows: { Self → Self → Type 0 };

    /// Whether it needs to hear of nothing.
    fn records_nothing(&self) -> bool
        ensures { IsTrue result → ((p : List Decision) → HasNote (noted self.now) p) };

    /// Whether it may know of prefixes that others refuted, and have others know of those that it hears of.
    fn is_sharing(&self) -> bool {
        false
    }

    /// The note of a refuted prefix that places the rows that are marked, with one further where there is one, and leaves the states,
    /// which have the digest, if it knows of one. It does not allocate.
    fn find(
        &self,
        digest: u64,
        states: &Store<A>,
        placed: &Marks<A>,
        further: Option<usize>,
    ) -> Option<N>
        requires rows { MarksRows (is_for self.now) placed.now }
        requires further { MatchOption further (Unit {0}) (λ k. k < length placed.now) }
        ensures { IfSome result (λ note. IsKnownFor (is_for self.now) (noted self.now note) states.now.now
            (with_place placed.now further)) }
    {
        None
    }

    /// Others may know of the refuted prefix of the note, which places the rows that are marked and leaves the states. It answers
    /// whether `find` comes to know of it, and so need not be remembered elsewhere.
    fn keep(&self, digest: u64, states: &Arc<Store<A>, A>, placed: &Marks<A>, note: N) -> bool
        requires { IsKnownOf (is_for self.now) (noted self.now note) states.now.value.now placed.now }
    {
        false
    }

    /// Notes the good prefix, which is refuted for the reason.
    fn note(&mut self, prefix: &[Decision], reason: RefutedBy<N>) -> Result<N, OutOfMemory>
        requires { IsHearable (is_for self.old) prefix.now (λ shape. IsReason (noted self.old) shape prefix.now reason) }
        ensures noted { IfOk result (λ note. noted self.new note prefix.now) }
        ensures grows { grows self.old self.new };

    ghost noted_stays: { (r s : Self) (note : N) (p : List Decision) → grows r s → noted r note p → noted s note p };

    ghost still_for: { (r s : Self) (shape : ShapeOf) → grows r s → is_for r shape → is_for s shape };

    ghost grows_from_itself: { (r : Self) → grows r r };

    ghost grows_onward: { (r s t : Self) → grows r s → grows s t → grows r t };
}

/// What names a prefix where none is noted.
#[derive(Clone, Copy)]
pub struct Unnoted;

/// Notes nothing.
#[derive(Drop)]
pub struct Unrecorded;

impl<A: Allocator> Recorder<Unnoted, A> for Unrecorded {
    ghost use Rattle.std.specs.Prelude.{◌≡◌};

    ghost is_for = { λ r shape. Unit {0} };

    ghost noted = { λ r note p. Unit {0} };

    ghost grows = { λ r s. Unit {0} };

    fn records_nothing(&self) -> bool {
        true
    }

    fn note(
        &mut self,
        _prefix: &[Decision],
        _reason: RefutedBy<Unnoted>,
    ) -> Result<Unnoted, OutOfMemory>
        ensures { self.new ≡ self.old }
    {
        Ok(Unnoted)
    }

    ghost noted_stays = { λ r s note p on was. tt };

    ghost still_for = { λ r s shape on was. tt };

    ghost grows_from_itself = { λ r. tt };

    ghost grows_onward = { λ r s t first second. tt };
}
