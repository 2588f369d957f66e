#![tactic(auto)]
//! A world of nodes: what each of them knows after any list of moves, in which they are fed facts, find what holds of a
//! history, post what they know, and get what others posted.
//!
//! For whoever asks whether the order in which nodes hear of things matters: the headline stands on `World::run`, as its clause. `World::new`
//! makes nodes of a plan, `run` takes them through moves, `node` lends what one of them knows.
//!
//! ```
//! let mut world = World::new(alloc, plan, 2)?;
//! world.run(&[Move::Feed(0, fact), Move::Post(0), Move::Deliver(0, 1)])?;
//! let verdict = world.node(1).unwrap().verdict()?;
//! ```

pub mod laws;
mod moves;
mod world;

pub use moves::{Move, MoveFault};
pub use world::World;
