//! The way from facts to a well-formed history.

ghost use Rattle.std.specs.Prelude.{◌≡◌, IfOk, MatchResult};
ghost use Rattle.aud_facts.specs.Sets.{IsSealedWith};
ghost use Rattle.aud_history.specs.WellFormed.{IsWellFormed};
ghost use Rattle.aud_know.specs.Verdicts.{FactsReportAtOnce, status_reported};

use crate::verdict::Verdict;
use aud_event::OutOfMemory;
use aud_facts::{FactStatus, Facts, Sealed};
use std::alloc::Allocator;
use std::sync::Arc;

impl<A: Allocator> Verdict<A> {
    // What is reported of facts by their status alone, if it says anything.
    pub(crate) fn of_status(status: FactStatus) -> Option<Verdict<A>>
        ensures { result ≡ status_reported status }
    {
        match status {
            FactStatus::Conflict(kind, log, at) => Some(Verdict::Conflict(kind, log, at)),
            FactStatus::Waiting(log) => Some(Verdict::Waiting(log)),
            FactStatus::Gap(stamp) => Some(Verdict::Gap(stamp)),
            FactStatus::Sealed => None,
        }
    }
}

/// The facts with their history, where that is well-formed; else the verdict, which needs no more: the first that holds of
/// a conflict, a log that waits, a gap, and a rule that the history breaks.
pub fn well_formed_history<A: Allocator + Copy>(
    facts: &Facts<A>,
) -> Result<Result<Arc<Sealed<A>, A>, Verdict<A>>, OutOfMemory>
    ensures { IfOk result (λ read. MatchResult read
        (λ sealed. (sealed.value.facts ≡ facts.now) × IsSealedWith facts.now sealed.value.history × IsWellFormed sealed.value.history)
        (λ reported. FactsReportAtOnce facts.now.plan.logs facts.now.facts reported)) }
{
    match facts.seal_or_status()? {
        Ok(sealed) => Ok(without_fault(sealed)),
        Err(status) => match Verdict::of_status(status) {
            Some(reported) => Ok(Err(reported)),
            None => unreachable!(),
        },
    }
}

// The facts with their history, or the rule that it breaks.
fn without_fault<A: Allocator + Copy>(
    sealed: Arc<Sealed<A>, A>,
) -> Result<Arc<Sealed<A>, A>, Verdict<A>>
    ensures { MatchResult result
        (λ same. (same.value ≡ sealed.value) × IsWellFormed sealed.value.history)
        (λ reported. FactsReportAtOnce sealed.value.facts.plan.logs sealed.value.facts.facts reported) }
{
    match sealed.history().first_fault() {
        Some((stamp, rule)) => Err(Verdict::IllFormed(stamp, rule)),
        None => Ok(sealed),
    }
}
