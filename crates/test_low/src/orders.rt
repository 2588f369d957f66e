//! Keys are copied.

use crate::fixtures::{end, record};
use aud_event::{Dup, Event, Key, OutOfMemory};
use aud_witness::{Decision, Fate};

const C2: Decision = Decision {
    tx: 2,
    fate: Fate::C,
};

/// Whether a copy ties with its source, at any type that is a key and is copied.
fn copy_ties<K: Key + Dup>(key: &K) -> Result<bool, OutOfMemory> {
    Ok(key.dup()?.cmp(key).is_eq())
}

#[test]
fn copies_tie_with_their_sources(rt: HostRuntime) {
    let ties = [
        copy_ties(&7u32),
        copy_ties(&-7i64),
        copy_ties(&record(0, 0, 0, 0, Event::TryC)),
        copy_ties(&end(0, 0)),
        copy_ties(&C2),
    ];
    assert!(rt; ties == [Ok(true); 5]);
}
