//! The verdict on what is known.

ghost use Rattle.std.specs.Prelude.{◌≡◌, [], None, Some, IfOk};
ghost use Rattle.aud_history.specs.WellFormed.{IsWellFormed};
ghost use Rattle.aud_know.specs.Truth.{AreShownBy, AreRefutedAt};
ghost use Rattle.aud_know.specs.Verdicts.{IsVerdict};

use crate::knowledge::Knowledge;
use crate::reading::well_formed_history;
use crate::verdict::Verdict;
use aud_cover::closed;
use aud_cover::laws::closed_is_refuted;
use aud_event::{Dup, OutOfMemory};
use aud_facts::Sealed;
use aud_facts::laws::quiet_is_no_conflict;
use aud_order::Shape;
use aud_witness::Prefix;
use std::alloc::Allocator;
use std::sync::Arc;

impl<A: Allocator + Copy> Knowledge<A> {
    /// The verdict: the first that holds of a conflict, a log that waits, a gap, a history that is not well-formed, a
    /// witness, no order left, and unfinished. Where a witness is known it is answered as it is; else a sealed set is read
    /// as a history, and its cover walked.
    pub fn verdict(&self) -> Result<Verdict<A>, OutOfMemory>
        ensures first { IfOk result (λ v. IsVerdict self.now v) }
        ensures opaque { IfOk result (λ v. (p : _) → v ≡ Verdict.Opaque p → AreShownBy self.now.plan self.now.held.facts p) }
        ensures not_opaque { IfOk result (λ v. v ≡ Verdict.NotOpaque → AreRefutedAt self.now.plan self.now.held.facts []) }
    {
        quiet_is_no_conflict();
        closed_is_refuted();
        let _facts = self.facts();
        let verdict = self.judged()?;
        Ok(verdict)
    }

    // The first that holds.
    fn judged(&self) -> Result<Verdict<A>, OutOfMemory>
        ensures { IfOk result (λ v. IsVerdict self.now v) }
    {
        match &self.witness {
            Some(order) => self.with_witness(order),
            None => self.without_witness(),
        }
    }

    // Where a witness is known. It needs no history.
    fn with_witness(&self, order: &Prefix<A>) -> Result<Verdict<A>, OutOfMemory>
        requires { self.now.held.witness ≡ Some order.now }
        ensures { IfOk result (λ v. IsVerdict self.now v) }
    {
        quiet_is_no_conflict();
        match Verdict::of_status(self.facts.status()) {
            Some(reported) => Ok(reported),
            None => {
                let copy = order.dup()?;
                Ok(Verdict::Opaque(copy))
            }
        }
    }

    // Where none is known.
    fn without_witness(&self) -> Result<Verdict<A>, OutOfMemory>
        requires { self.now.held.witness ≡ None }
        ensures { IfOk result (λ v. IsVerdict self.now v) }
    {
        match well_formed_history(&self.facts)? {
            Ok(sealed) => self.of_well_formed(sealed),
            Err(reported) => Ok(reported),
        }
    }

    // Where the history is well-formed.
    fn of_well_formed(&self, sealed: Arc<Sealed<A>, A>) -> Result<Verdict<A>, OutOfMemory>
        requires facts { sealed.value.facts ≡ record { plan = self.now.plan; facts = self.now.held.facts } }
        requires well_formed { IsWellFormed sealed.value.history }
        requires no_witness { self.now.held.witness ≡ None }
        ensures { IfOk result (λ v. IsVerdict self.now v) }
    {
        let _facts = sealed.facts();
        let shape = Shape::of(self.alloc, sealed)?;
        let empty = Prefix::empty(self.alloc);
        if closed(self.alloc, &self.cover, &shape, &empty)? {
            return Ok(Verdict::NotOpaque);
        }
        Ok(Verdict::Unfinished)
    }
}
