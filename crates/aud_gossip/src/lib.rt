#![tactic(auto)]
//! Packets between running nodes: posting what a node knows to others, and offering all that comes from them.
//!
//! For programs that run several nodes. An `Outbox` has the senders to the others: `post` sends a snapshot to each, `since` makes a packet of
//! what it did not take before. `receive_all` offers what comes to a node until nobody can send any more.
//!
//! ```
//! let sent = outbox.post(rt, &node.snapshot(&mut pass)?)?;
//! let received = receive_all(rt, alloc, &inbox, &other, &mut seat)?;
//! ```

mod fault;
pub mod laws;
mod outbox;
mod receiving;

pub use fault::SinceFault;
pub use outbox::{Delta, Outbox};
pub use receiving::{Received, Stopped, receive_all};
