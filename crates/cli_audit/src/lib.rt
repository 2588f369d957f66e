#![tactic(auto)]
//! The audit of an input: nodes that took different logs tell each other what they have, and their workers search side by side.

mod closing;
mod collector;
mod crew;
mod fault;
mod gate;
mod meeting;
mod mesh;
mod room;
mod run;

pub use gate::NoGate;
pub use node_pool::Gate;
pub use run::{answer_audit, run_audit};
