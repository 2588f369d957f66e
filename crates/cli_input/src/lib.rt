#![tactic(auto)]
//! Inputs: a plan, then facts, a line each.

mod input;

pub use input::{Input, InputFault, read_input, take_input};
