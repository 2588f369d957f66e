//! A verdict that is reported to a sink that fails, and bytes in memory. How runs end on devices that fail `tests/refused` asks.

use aud_know::Verdict;
use aud_report::{MemorySink, MemorySource, ReportFault, read_all, write_all, write_report};
use std::alloc::{AllocError, Global};
use test_devices::ChokingSink;

/// How the report of a gap ends on a sink that fails after so many bytes, and how many it took, if they begin the line.
fn reported(alloc: Global, writes: u64) -> (Result<(), ReportFault>, Option<u64>) {
    let mut sink = ChokingSink {
        bytes: Vec::new(alloc),
        writes,
        takes_nothing: false,
        failures: 0,
    };
    let verdict: Verdict = Verdict::Gap(7);
    let ended = write_report(alloc, &verdict, &mut sink);
    let taken = sink.bytes.as_slice();
    let is_beginning = b"gap at stamp 7\n".starts_with(taken);
    (ended, is_beginning.then_some(taken.len() as u64))
}

/// The line has 15 bytes.
#[test]
fn a_verdict_is_reported(rt: HostRuntime) {
    for writes in 0..16u64 {
        let wanted = if writes < 15 {
            Err(ReportFault::OutputFailed)
        } else {
            Ok(())
        };
        assert!(rt;
            reported(rt.alloc(), writes) == (wanted, Some(writes)),
            "after {writes} bytes"
        );
    }
}

/// Whether a text of 40,000 bytes is read from memory.
fn is_read_back(alloc: Global) -> Result<bool, AllocError> {
    let text = "ab".repeat(alloc, 20_000)?;
    let mut source = MemorySource::new(text.as_bytes().to_vec(alloc)?);
    match read_all(alloc, &mut source) {
        Ok(read) => Ok(read.as_slice() == text.as_bytes()),
        Err(_) => Ok(false),
    }
}

/// Whether two bytes are written, and held by the sink.
fn is_held(alloc: Global) -> bool {
    let mut sink = MemorySink::new(alloc);
    write_all(&mut sink, b"ab").is_ok() && sink.held() == b"ab".as_slice()
}

#[test]
fn in_memory(rt: HostRuntime) {
    assert!(rt; is_read_back(rt.alloc()) == Ok(true));
    assert!(rt; is_held(rt.alloc()));
}
