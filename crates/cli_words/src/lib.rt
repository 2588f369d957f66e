#![tactic(auto)]
//! The program's words: from them to the run that they ask for, and from its end to the exit status.

mod command_line;
mod order_text;
mod usage;
mod words;

pub use usage::{Usage, exit_status};
pub use words::job_of;
