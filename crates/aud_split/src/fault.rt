//! Why a pool does not begin, and why a worker ends before the tasks do.

ghost use Rattle.std.specs.Prelude.{◌≡◌};
ghost use Rattle.aud_split.specs.Pools.{pool_fault_number};

use thiserror::Error;

/// Why a pool does not begin, and why a worker of it ends before the tasks do. Of a pool that does not begin the first in this
/// order is answered; `NoThread` never is.
#[derive(Clone, Copy, Debug, PartialEq, Eq, Error)]
pub enum PoolFault {
    #[error("a pool has at least one worker")]
    NoWorkers,
    #[error("a pool has at most 16 workers")]
    TooManyWorkers,
    #[error("the shape is of another plan than the node")]
    PlanMismatch,
    #[error("a pass is of another node")]
    WrongNode,
    #[error("out of memory")]
    OutOfMemory,
    #[error("a thread could not be had")]
    NoThread,
}

impl PoolFault {
    /// The fault's number, 1 to 6.
    pub fn number(&self) -> u32
        ensures { result ≡ pool_fault_number self.now }
    {
        match self {
            PoolFault::NoWorkers => 1,
            PoolFault::TooManyWorkers => 2,
            PoolFault::PlanMismatch => 3,
            PoolFault::WrongNode => 4,
            PoolFault::OutOfMemory => 5,
            PoolFault::NoThread => 6,
        }
    }
}
