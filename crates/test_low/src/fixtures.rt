//! What the tests of several crates use: facts.

use aud_event::{EndMark, Event, Fact, Record};

pub fn record(log: u32, at: u32, stamp: u32, tx: u32, event: Event) -> Fact {
    Fact::Rec(Record {
        log,
        at,
        stamp,
        tx,
        event,
    })
}

pub fn end(log: u32, count: u32) -> Fact {
    Fact::End(EndMark { log, count })
}
