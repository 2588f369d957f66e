//! Devices for tests, which give and take a byte at a time and fail where they are told to.

ghost use Rattle.std.specs.Prelude.{◌≤◌, vec_len};

use aud_report::{Sink, SinkFault, Source, SourceFault};
use std::alloc::{Allocator, Global};

/// Gives one byte a read, and fails once it was read so many times.
#[derive(Drop)]
pub struct DrippingSource<A: Allocator = Global> {
    pub bytes: Vec<u8, A>,
    pub at: usize,
    pub reads: u64,
    pub failures: u64,
    ghost within: { at ≤ vec_len bytes },
}

impl<A: Allocator> Source for DrippingSource<A> {
    ghost use Rattle.std.specs.Prelude.{drop, ◌<◌};

    ghost left = { λ s. drop s.at s.bytes.items };

    ghost failures = { λ s. s.failures };

    ghost ready = { λ s. s.failures < 18446744073709551615 };

    fn read(&mut self, buf: &mut [u8]) -> Result<usize, SourceFault> {
        if self.reads == 0 {
            self.failures += 1;
            return Err(SourceFault);
        }
        self.reads -= 1;
        if buf.is_empty() || self.at == self.bytes.len() {
            return Ok(0);
        }
        buf[0] = self.bytes[self.at];
        self.at += 1;
        Ok(1)
    }
}

/// Takes one byte a write, and fails, or takes nothing, once it was written to so many times.
#[derive(Drop)]
pub struct ChokingSink<A: Allocator = Global> {
    pub bytes: Vec<u8, A>,
    pub writes: u64,
    pub takes_nothing: bool,
    pub failures: u64,
}

impl<A: Allocator> Sink for ChokingSink<A> {
    ghost use Rattle.std.specs.Prelude.{◌<◌};

    ghost held = { λ s. s.bytes.items };

    ghost failures = { λ s. s.failures };

    ghost ready = { λ s. s.failures < 18446744073709551615 };

    fn write(&mut self, buf: &[u8]) -> Result<usize, SinkFault> {
        if buf.is_empty() {
            return Ok(0);
        }
        if self.writes > 0 && self.bytes.push(buf[0]).is_ok() {
            self.writes -= 1;
            return Ok(1);
        }
        self.failures += 1;
        if self.takes_nothing {
            Ok(0)
        } else {
            Err(SinkFault)
        }
    }
}
