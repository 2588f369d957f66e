#![tactic(auto)]
//! Clauses on what transactions take from queues.

mod gone;
mod items;
mod known;
mod law;
mod places;

pub use gone::FrontItem;
pub use law::QueueLaw;
