#![tactic(auto)]
//! A running node: one history of offered items, a writer under a lock, and readers that wait for nobody.
//!
//! For threads that share what they know of a run. `Node::start` gives a pass for each seat; `offer` waits for its turn and adds an item;
//! `verdict`, `knows` and `snapshot` answer at once, of what the pass sees; `close` ends the node, once all passes are back.
//!
//! ```
//! let (node, mut passes) = Running::<J, &R>::start(rt, alloc, opened, plan, 2)?;
//! node.offer(rt, alloc, &mut passes[0], Item::Fact(fact))?;
//! let verdict = node.verdict(&mut passes[1])?;
//! let closed = node.close(rt, passes)?;
//! ```

mod book;
mod desk;
mod fault;
pub mod laws;
mod node;
mod pass;
mod published;
mod seats;

pub use book::Fleet;
pub use desk::Desk;
pub use fault::{CloseFault, OfferFault, ReadFault, StartFault};
pub use node::{Closed, Node, Opened, Running};
pub use pass::{Packet, Pass};
