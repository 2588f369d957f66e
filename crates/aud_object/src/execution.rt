//! What a transaction did on one object.

use aud_event::{Answer, Op};

/// An operation on an object, by the object's number in the plan, and the answer that was recorded.
#[derive(Clone, Copy, Debug, PartialEq, Eq)]
pub struct Execution {
    pub object: u16,
    pub op: Op,
    pub answer: Answer,
}

/// An operation on an object, by the object's number in the plan, that has no response.
#[derive(Clone, Copy, Debug, PartialEq, Eq)]
pub struct Invocation {
    pub object: u16,
    pub op: Op,
}
