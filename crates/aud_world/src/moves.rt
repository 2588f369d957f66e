//! What may happen in a world, and why a move is not made.

ghost use Rattle.std.specs.Prelude.{◌≡◌};
ghost use Rattle.aud_world.specs.Faults.{node_of, fault_of, fault_number};

use aud_event::{Fact, OutOfMemory};
use aud_know::{Finding, KnowFault};
use std::alloc::{Allocator, Global};
use thiserror::Error;

/// What may happen in a world. Nodes and packets are numbered from 0, the packets in the order of their posts.
#[derive(Drop)]
pub enum Move<A: Allocator + Copy = Global> {
    /// The node takes the fact.
    Feed(u32, Fact),
    /// The node takes the finding.
    Find(u32, Finding<A>),
    /// The node posts a packet of what it knows now.
    Post(u32),
    /// The packet, of the first number, is delivered to the node, of the second. Any packet may be delivered to any node,
    /// at any later move and any number of times.
    Deliver(u32, u32),
}

impl<A: Allocator + Copy> Move<A> {
    /// The node that is fed, finds, posts, or gets the packet.
    pub fn node(&self) -> u32
        ensures { result ≡ node_of self.now }
    {
        match self {
            Move::Feed(node, _) | Move::Find(node, _) | Move::Post(node) | Move::Deliver(_, node) =>
                *node,
        }
    }
}

/// Why a move is not made, in the order in which the causes are looked for.
#[derive(Clone, Copy, Debug, PartialEq, Eq, Error)]
pub enum MoveFault {
    #[error("the world does not have the node")]
    NoNode,
    #[error("the packet was not posted")]
    NoPacket,
    #[error("the plan refuses the fact, or the finding is of another plan")]
    PlanMismatch,
    #[error("out of memory")]
    OutOfMemory,
}

impl MoveFault {
    /// The fault's number, 1 to 4.
    pub fn number(&self) -> u32
        ensures { result ≡ fault_number self.now }
    {
        match self {
            MoveFault::NoNode => 1,
            MoveFault::NoPacket => 2,
            MoveFault::PlanMismatch => 3,
            MoveFault::OutOfMemory => 4,
        }
    }
}

impl From<OutOfMemory> for MoveFault {
    ghost use Rattle.aud_world.specs.declared.moves.MoveFault.TheVariants as fault;

    ghost from_gives = { λ _ e. e ≡ fault.OutOfMemory };

    fn from(_error: OutOfMemory) -> MoveFault {
        MoveFault::OutOfMemory
    }
}

impl From<KnowFault> for MoveFault {
    ghost from_gives = { λ k e. e ≡ fault_of k };

    fn from(fault: KnowFault) -> MoveFault {
        match fault {
            KnowFault::PlanMismatch => MoveFault::PlanMismatch,
            KnowFault::OutOfMemory => MoveFault::OutOfMemory,
        }
    }
}
