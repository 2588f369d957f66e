//! Why a node does not do what it is asked.

ghost use Rattle.std.specs.Prelude.{◌≡◌};
ghost use Rattle.aud_node.specs.Faults.{start_fault_number, offer_fault_number, read_fault_number, close_fault_number};

use thiserror::Error;

/// Why a node is not started.
#[derive(Clone, Copy, Debug, PartialEq, Eq, Error)]
pub enum StartFault {
    #[error("a node has 1 to 32 seats")]
    SeatRange,
    #[error("out of memory")]
    OutOfMemory,
    #[error("the reader pair has no place left")]
    NoPlace,
}

impl StartFault {
    /// The fault's number, 1 to 3.
    pub fn number(&self) -> u32
        ensures { result ≡ start_fault_number self.now }
    {
        match self {
            StartFault::SeatRange => 1,
            StartFault::OutOfMemory => 2,
            StartFault::NoPlace => 3,
        }
    }
}

/// Why an offer is not taken. `PlanMismatch` is looked for first, and `WrongNode` next.
#[derive(Clone, Copy, Debug, PartialEq, Eq, Error)]
pub enum OfferFault {
    #[error("the plan refuses the fact, or what was found or is known is of another plan")]
    PlanMismatch,
    #[error("out of memory")]
    OutOfMemory,
    #[error("the pass is of another node")]
    WrongNode,
}

impl OfferFault {
    /// The fault's number, 1 to 3.
    pub fn number(&self) -> u32
        ensures { result ≡ offer_fault_number self.now }
    {
        match self {
            OfferFault::PlanMismatch => 1,
            OfferFault::OutOfMemory => 2,
            OfferFault::WrongNode => 3,
        }
    }
}

/// Why a pass is not read.
#[derive(Clone, Copy, Debug, PartialEq, Eq, Error)]
pub enum ReadFault {
    #[error("out of memory")]
    OutOfMemory,
    #[error("the pass is of another node")]
    WrongNode,
}

impl ReadFault {
    /// The fault's number, 1 or 2.
    pub fn number(&self) -> u32
        ensures { result ≡ read_fault_number self.now }
    {
        match self {
            ReadFault::OutOfMemory => 1,
            ReadFault::WrongNode => 2,
        }
    }
}

/// Why a node is not closed.
#[derive(Clone, Copy, Debug, PartialEq, Eq, Error)]
pub enum CloseFault {
    /// The least seat whose pass is missing.
    #[error("the pass of seat {0} is missing")]
    PassMissing(u32),
    #[error("out of memory")]
    OutOfMemory,
    /// The first pass of another node.
    #[error("pass {0} is of another node")]
    ForeignPass(usize),
}

impl CloseFault {
    /// The fault's number, 1 to 3.
    pub fn number(&self) -> u32
        ensures { result ≡ close_fault_number self.now }
    {
        match self {
            CloseFault::PassMissing(_) => 1,
            CloseFault::OutOfMemory => 2,
            CloseFault::ForeignPass(_) => 3,
        }
    }
}
