#![tactic(auto)]
//! Decides whether a history is opaque by learning clauses over the order of its transactions. Nothing is said of its answers:
//! an order is tried by whoever asks, and a refutation is judged.

mod analysis;
mod betweens;
mod bounds;
mod cell_index;
mod cells;
mod closure;
mod counting;
mod encoding;
mod engine;
mod explanation;
mod heap;
mod known;
mod literals;
mod log;
mod orders;
mod problem;
mod queues;
mod reading;
mod reduce;
mod refuted;
mod solver;
mod spans;
mod sums;
mod watches;

pub use engine::{Effort, Solved, solve};
