//! Why an outbox takes no packet.

ghost use Rattle.std.specs.Prelude.{◌≡◌};
ghost use Rattle.aud_gossip.specs.Faults.{since_fault_number};

use aud_event::OutOfMemory;
use thiserror::Error;

/// Why a packet is not taken, in the order in which the causes are looked for.
#[derive(Clone, Copy, Debug, PartialEq, Eq, Error)]
pub enum SinceFault {
    #[error("the packet is of another plan than those before it")]
    PlanMismatch,
    #[error("out of memory")]
    OutOfMemory,
}

impl SinceFault {
    /// The fault's number, 1 or 2.
    pub fn number(&self) -> u32
        ensures { result ≡ since_fault_number self.now }
    {
        match self {
            SinceFault::PlanMismatch => 1,
            SinceFault::OutOfMemory => 2,
        }
    }
}

impl From<OutOfMemory> for SinceFault {
    ghost use Rattle.std.specs.Prelude.{◌≡◌};
    ghost use Rattle.aud_gossip.specs.declared.fault.SinceFault.TheVariants as fault;

    ghost from_gives = { λ _ made. made ≡ fault.OutOfMemory };

    fn from(_error: OutOfMemory) -> SinceFault {
        SinceFault::OutOfMemory
    }
}
