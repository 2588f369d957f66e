//! Why a text is refused, and the numbers under which that is reported.

ghost use Rattle.std.specs.Prelude.{◌≡◌};
ghost use Rattle.aud_json.specs.Faults.{fault_number, inner_number};

use aud_event::{FactFault, PlanFault};
use thiserror::Error;

/// Why a line, or an order text, is refused. Of several faults the one with the least number is reported.
#[derive(Clone, Copy, Debug, PartialEq, Eq, Error)]
pub enum TextFault {
    #[error("too long")]
    TooLong,
    #[error("not one JSON value")]
    NotJson,
    #[error("not a JSON object")]
    NotObject,
    #[error("a key is missing, or the text ends too early")]
    KeyMissing,
    #[error("a key may not stand there")]
    KeyUnknown,
    #[error("a value has the wrong type or is out of range")]
    TypeOrRange,
    #[error("an unknown word")]
    UnknownWord,
    #[error("the fact does not fit the plan: {0}")]
    Fact(FactFault),
    #[error("out of memory")]
    OutOfMemory,
    #[error("no plan: {0}")]
    Plan(PlanFault),
}

impl TextFault {
    /// The number of the fault, from 1 to 10.
    pub fn number(&self) -> u32
        ensures { result ≡ fault_number self.now }
    {
        match self {
            TextFault::TooLong => 1,
            TextFault::NotJson => 2,
            TextFault::NotObject => 3,
            TextFault::KeyMissing => 4,
            TextFault::KeyUnknown => 5,
            TextFault::TypeOrRange => 6,
            TextFault::UnknownWord => 7,
            TextFault::Fact(_) => 8,
            TextFault::OutOfMemory => 9,
            TextFault::Plan(_) => 10,
        }
    }

    /// The number of the fact's or the plan's own fault, where the fault is one of these.
    pub fn inner_number(&self) -> Option<u32>
        ensures { result ≡ inner_number self.now }
    {
        match self {
            TextFault::Fact(fault) => Some(fault.number()),
            TextFault::Plan(fault) => Some(fault.number()),
            _ => None,
        }
    }
}
