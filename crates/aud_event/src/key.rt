//! The orders of operations, answers, events and facts tie only what is equal.

ghost use Rattle.aud_event.specs.Rows.{op_exact, op_name_exact};
ghost use Rattle.aud_event.specs.Exactness.{answer_exact, event_exact, record_exact, end_mark_exact, fact_exact};

use crate::fact::{EndMark, Event, Fact, Record};
use crate::object::{Answer, Op, OpName};
use base_values::Key;

impl Key for Op {
    ghost exact = { op_exact };
}

impl Key for OpName {
    ghost exact = { op_name_exact };
}

impl Key for Answer {
    ghost exact = { answer_exact };
}

impl Key for Event {
    ghost exact = { event_exact };
}

impl Key for Record {
    ghost exact = { record_exact };
}

impl Key for EndMark {
    ghost exact = { end_mark_exact };
}

impl Key for Fact {
    ghost exact = { fact_exact };
}
