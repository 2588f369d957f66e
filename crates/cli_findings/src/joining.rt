//! What two nodes know together.

ghost use Rattle.std.specs.Prelude.{◌≡◌, IfOk};
ghost use Rattle.aud_know.specs.Known.{Takes};
ghost use Rattle.aud_know.specs.Norms.{atoms_of};
ghost use Rattle.cli_findings.specs.Searches.{KeepsEnds};

use aud_event::OutOfMemory;
use aud_know::laws::knowledge_is_norm;
use aud_know::{KnowFault, Knowledge};
use aud_split::laws::known_is_kept;

/// What both know, which are of one plan: what they say of the end of a task is known then. What either has of the other is shared.
pub fn joined(one: Knowledge, other: &Knowledge) -> Result<Knowledge, OutOfMemory>
    requires { one.plan ≡ other.now.plan }
    ensures taken { IfOk result (λ k. Takes one.held k.held (atoms_of other.now.held)) }
    ensures plan { IfOk result (λ k. k.plan ≡ one.plan) }
    ensures one { IfOk result (KeepsEnds one) }
    ensures other { IfOk result (KeepsEnds other.now) }
{
    known_is_kept();
    knowledge_is_norm();
    let _one = one.facts();
    let _other = other.facts();
    let mut all = one;
    match all.join(other) {
        Ok(()) => Ok(all),
        Err(KnowFault::OutOfMemory) => Err(OutOfMemory),
        Err(KnowFault::PlanMismatch) => unreachable!(),
    }
}
