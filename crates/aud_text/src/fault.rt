//! Why a plan's text is refused.

use aud_json::TextFault;
use thiserror::Error;

/// Why a plan's text is refused, and at which of its lines, counted from 1.
///
/// Of the faults that a plan itself can have, those that its header shows stand at the header's line: no logs, too many
/// logs, too many objects. Those that show when all objects are read stand at line 0: two objects of one name, an opening
/// out of range, a bad name.
#[derive(Clone, Copy, Debug, PartialEq, Eq, Error)]
#[error("line {line}: {fault}")]
pub struct PlanTextFault {
    pub line: usize,
    pub fault: TextFault,
}
