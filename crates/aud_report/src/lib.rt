#![tactic(auto)]
//! What goes in and out: sources and sinks of bytes, and the line that a run prints.
//!
//! For whoever prints what is said of a run, or reads and writes by devices that may fail. `write_line` spells a line, `write_report` writes a
//! verdict; `read_all` and `write_all` go through a `Source` or a `Sink`, which count their failures.
//!
//! ```
//! let line = write_line(alloc, &Said::Verdict(Verdict::NotOpaque))?;
//! write_all(&mut sink, &line)?;
//! ```

mod device;
mod memory;
mod report;
mod said;

pub use device::{ReadAllFault, Sink, SinkFault, Source, SourceFault, read_all, write_all};
pub use memory::{MemorySink, MemorySource};
pub use report::{ReportFault, write_report};
pub use said::{Said, write_line};
