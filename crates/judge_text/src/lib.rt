#![tactic(auto)]
//! Refutations as texts: a header, and a line of JSON for each step. What is read is judged by whoever reads it, so nothing here has a
//! contract on its answers.

mod atoms;
mod fields;
mod read;
mod reasons;
mod write;

pub use read::{EvidenceFault, ReadRefutation, read_refutation};
pub use write::write_refutation;
