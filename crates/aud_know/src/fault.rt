//! Why a Knowledge takes nothing.

ghost use Rattle.std.specs.Prelude.{◌≡◌};
ghost use Rattle.aud_know.specs.KnowFaultNumbers.{know_fault_number};

use aud_event::OutOfMemory;
use thiserror::Error;

/// Why an item is not taken, in the order in which the causes are looked for.
#[derive(Clone, Copy, Debug, PartialEq, Eq, Error)]
pub enum KnowFault {
    #[error("the plan refuses the fact, or it is another plan than that of the facts so far")]
    PlanMismatch,
    #[error("out of memory")]
    OutOfMemory,
}

impl KnowFault {
    /// The fault's number, 1 or 2, as it is printed.
    pub fn number(&self) -> u32
        ensures { result ≡ know_fault_number self.now }
    {
        match self {
            KnowFault::PlanMismatch => 1,
            KnowFault::OutOfMemory => 2,
        }
    }
}

impl From<OutOfMemory> for KnowFault {
    ghost use Rattle.std.specs.Prelude.{◌≡◌};
    ghost use Rattle.aud_know.specs.declared.fault.KnowFault.TheVariants as fault;

    ghost from_gives = { λ _ made. made ≡ fault.OutOfMemory };

    fn from(_error: OutOfMemory) -> KnowFault {
        KnowFault::OutOfMemory
    }
}
