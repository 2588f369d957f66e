#![tactic(auto)]
//! A pool of workers over one queue of tasks.
//!
//! Each worker has a seat, takes tasks one after another and works them, all workers at once where threads can be had. What is
//! done with a task, and what a seat knows afterwards, is the caller's `Work`.

mod queue;
mod rule;
mod running;
mod work;
mod worker;

pub use running::{Refusal, RunEnd, run};
pub use work::{Gate, Work};
pub use worker::WorkerEnd;
