//! Out of memory as an ordinary error, and copies that may meet it.

ghost use Rattle.std.specs.Prelude.{◌≡◌, IfOk};

use std::alloc::{AllocError, AllocFailed};
use thiserror::Error;

/// A growth was refused. The value that was to grow is as it was.
#[derive(Clone, Copy, Debug, PartialEq, Eq, Error)]
#[error("out of memory")]
pub struct OutOfMemory;

impl From<AllocError> for OutOfMemory {
    fn from(_error: AllocError) -> OutOfMemory {
        OutOfMemory
    }
}

impl<T: Drop> From<AllocFailed<T>> for OutOfMemory {
    fn from(_error: AllocFailed<T>) -> OutOfMemory {
        OutOfMemory
    }
}

/// A copy that may run out of memory. A copy equals its source, and a value that keeps an allocator is copied into the same
/// one.
pub trait Dup: Sized + Drop {
    fn dup(&self) -> Result<Self, OutOfMemory>
        ensures { IfOk result (λ copy. copy ≡ self.now) };
}

impl Dup for u32 {
    fn dup(&self) -> Result<u32, OutOfMemory> {
        Ok(*self)
    }
}

impl Dup for i64 {
    fn dup(&self) -> Result<i64, OutOfMemory> {
        Ok(*self)
    }
}
