//! A source and a sink in memory.

ghost use Rattle.std.specs.Prelude.{◌≡◌, [], false};

use crate::device::{Sink, SinkFault, Source, SourceFault};
use std::alloc::{Allocator, Global};
use std::marker::Model;

/// Bytes in memory, given in as few reads as the buffers allow. It never fails.
#[derive(Drop)]
pub struct MemorySource {
    bytes: Vec<u8>,
    at: usize,
}

impl Model for MemorySource {
    ghost use Rattle.std.specs.Prelude.{ℕ, ◌≤◌, List, drop, length};

    ghost Value = { List ℕ };

    ghost view = { λ s. drop s.at s.bytes.items };

    ghost invariant = { λ s. s.at ≤ length s.bytes.items };
}

impl MemorySource {
    /// A source that has these bytes. It does not allocate.
    pub fn new(bytes: Vec<u8>) -> MemorySource
        ensures { result ≡ bytes.items }
    {
        MemorySource { bytes, at: 0 }
    }
}

impl Source for MemorySource {
    ghost left = { λ s. s };

    ghost failures = { λ _. 0 };

    ghost ready = { λ _. Unit {0} };

    fn read(&mut self, buf: &mut [u8]) -> Result<usize, SourceFault> {
        let left = self.bytes.len() - self.at;
        let count = left.min(buf.len());
        let end = self.at + count;
        buf[..count].copy_from_slice(&self.bytes[self.at..end]);
        self.at = end;
        Ok(count)
    }
}

/// What was written, in memory. Running out of memory is its only failure, and it is written to no more after one.
#[derive(Drop)]
pub struct MemorySink<A: Allocator = Global> {
    bytes: Vec<u8, A>,
    failed: bool,
}

impl<A: Allocator> Model for MemorySink<A> {
    ghost use Rattle.aud_report.specs.Devices.{HeldBytes};

    ghost Value = { HeldBytes };

    ghost view = { λ s. record { bytes = s.bytes.items; failed = s.failed } };
}

impl<A: Allocator> MemorySink<A> {
    /// A sink that holds nothing. It does not allocate.
    pub fn new(alloc: A) -> MemorySink<A>
        ensures { result ≡ record { bytes = []; failed = false } }
    {
        MemorySink {
            bytes: Vec::new(alloc),
            failed: false,
        }
    }

    /// The bytes that were written.
    pub fn held(&self) -> &[u8]
        ensures { result.now ≡ self.now.bytes }
    {
        self.bytes.as_slice()
    }
}

impl<A: Allocator> Sink for MemorySink<A> {
    ghost use Rattle.std.specs.Prelude.{◌≡◌, false, if◌then◌else◌};

    ghost held = { λ s. s.bytes };

    ghost failures = { λ s. if s.failed then 1 else 0 };

    ghost ready = { λ s. s.failed ≡ false };

    fn write(&mut self, buf: &[u8]) -> Result<usize, SinkFault> {
        match self.bytes.extend_from_slice(buf) {
            Ok(()) => Ok(buf.len()),
            Err(_) => {
                self.failed = true;
                Err(SinkFault)
            }
        }
    }
}
