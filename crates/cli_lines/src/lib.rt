#![tactic(auto)]
//! The program's runs: from an input's bytes to the line that is said of it.
//!
//! For programs that answer as opaq does. `answer_text` gives the line for bytes in memory, `run_lines` from a source into a sink; `Ended` is
//! how the run ends, with its exit status.
//!
//! ```
//! let (line, ended) = answer_text(alloc, &Job::Decide(None, false), text)?;
//! ```

mod ended;
mod evidence;
mod job;
mod reading;
mod request;
mod run;

pub use ended::{Cause, Ended, end_of};
pub use job::{AuditJob, Command, Job};
pub use reading::read_whole;
pub use request::Request;
pub use run::{answer_text, judge_facts, refuse_input, run_lines};
