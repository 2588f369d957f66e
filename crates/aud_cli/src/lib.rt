#![tactic(auto)]
//! The program's commands, under one name.
//!
//! For whoever writes a program around them. `job_of` reads the words; `run_lines` does what they ask for over the lines of an input, `run_audit`
//! where it is an audit, and `run_command` whichever it is, over an input in memory; `Ended` says how a run ended, and its exit status. All but
//! `run_command` stand with their contracts in the crates that they come from: the words in `cli_words`, runs over lines in `cli_lines`,
//! audits in `cli_audit`.
//!
//! ```
//! let command = job_of(alloc, &words)?;
//! let input = read_whole(alloc, &mut reader, 1_000_000)?;
//! let (line, ended) = run_command(rt, alloc, &command, input);
//! ```

mod command;

pub use cli_audit::{Gate, NoGate, run_audit};
pub use cli_lines::{AuditJob, Cause, Command, Ended, Job, read_whole, run_lines};
pub use cli_words::{Usage, exit_status, job_of};
pub use command::run_command;
