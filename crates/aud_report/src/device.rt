//! Sources and sinks of bytes, and whole texts from the ones and into the others.

ghost use Rattle.std.specs.Prelude.{◌≡◌, ◌<◌, ◌+◌, ◌++◌, ℕ, List, [], length, Ok, Err, OnOk, OnErr, IfOk, take};
ghost use Rattle.aud_report.specs.Devices.{ReadsInto, Writes, BeginsOnly, nothing_taken};

use std::alloc::{AllocError, Allocator, Global};

/// A read failed.
#[derive(Clone, Copy, Debug, PartialEq, Eq)]
pub struct SourceFault;

/// A write failed.
#[derive(Clone, Copy, Debug, PartialEq, Eq)]
pub struct SinkFault;

/// What gives bytes. It says which bytes it has left, and counts its failures.
///
/// A read that gives nothing into a buffer with room says that no bytes are left. A read that fails takes none.
pub trait Source {
    ghost left: { Self → List ℕ };

    ghost failures: { Self → ℕ };
    /// It may be read: a count of failures that is a machine's number has room for one more.
    ghost ready: { Self → Type 0 };

    fn read(&mut self, buf: &mut [u8]) -> Result<usize, SourceFault>
        requires { ready self.old }
        ensures ready { OnOk result (ready self.new) }
        ensures ok { IfOk result (λ n. ReadsInto (left self.old) (left self.new) buf.new n) }
        ensures kept { OnOk result (failures self.new ≡ failures self.old) }
        ensures err { OnErr result (left self.new ≡ left self.old) }
        ensures failed { OnErr result (failures self.new ≡ failures self.old + 1) };
}

/// What takes bytes. It says which bytes it holds, and counts its failures.
///
/// A write that takes nothing of something is a failure too. A write that fails takes nothing.
pub trait Sink {
    ghost held: { Self → List ℕ };

    ghost failures: { Self → ℕ };
    /// It may be written to.
    ghost ready: { Self → Type 0 };

    fn write(&mut self, buf: &[u8]) -> Result<usize, SinkFault>
        requires { ready self.old }
        ensures ready { IfOk result (λ n. 0 < n → ready self.new) }
        ensures ok { IfOk result (λ n. Writes (held self.old) (held self.new) buf.now n) }
        ensures kept { IfOk result (λ n. failures self.new ≡ failures self.old + nothing_taken n (length buf.now)) }
        ensures err { OnErr result (held self.new ≡ held self.old) }
        ensures failed { OnErr result (failures self.new ≡ failures self.old + 1) };
}

/// Why not all was read.
#[derive(Clone, Copy, Debug, PartialEq, Eq)]
pub enum ReadAllFault {
    /// The source failed.
    Failed,
    /// There was no memory for what it gave.
    OutOfMemory,
}

impl From<AllocError> for ReadAllFault {
    ghost use Rattle.std.specs.Prelude.{◌≡◌};
    ghost use Rattle.aud_report.specs.declared.device.ReadAllFault.TheVariants as fault;

    ghost from_gives = { λ _ made. made ≡ fault.OutOfMemory };

    fn from(_error: AllocError) -> ReadAllFault {
        ReadAllFault::OutOfMemory
    }
}

/// How many bytes are asked for at once.
const CHUNK: usize = 16_384;

/// All that the source has left, in reads of up to 16,384 bytes. What was read before a fault stays read.
pub fn read_all<A: Allocator + Drop, R: Source>(
    alloc: A,
    source: &mut R,
) -> Result<Vec<u8, A>, ReadAllFault>
    requires { R.ready source.old }
    ensures ok { IfOk result (λ bytes. bytes.items ≡ R.left source.old) }
    ensures kept { OnOk result (R.failures source.new ≡ R.failures source.old) }
    ensures failed { result ≡ Err ReadAllFault.Failed → R.failures source.new ≡ R.failures source.old + 1 }
    ensures memory { result ≡ Err ReadAllFault.OutOfMemory → R.failures source.new ≡ R.failures source.old }
{
    let mut bytes = Vec::new(alloc);
    let mut chunk = [0u8; CHUNK];
    loop {
        let Ok(count) = source.read(&mut chunk) else {
            return Err(ReadAllFault::Failed);
        };
        if count == 0 {
            return Ok(bytes);
        }
        if bytes.extend_from_slice(&chunk[..count]).is_err() {
            return Err(ReadAllFault::OutOfMemory);
        }
    }
}

/// Writes the text, or a beginning of it up to the sink's failure.
pub fn write_all<W: Sink>(sink: &mut W, text: &[u8]) -> Result<(), SinkFault>
    requires { W.ready sink.old }
    ensures ok { OnOk result (W.held sink.new ≡ W.held sink.old ++ text.now) }
    ensures kept { OnOk result (W.failures sink.new ≡ W.failures sink.old) }
    ensures err { OnErr result (BeginsOnly (W.held sink.old) (W.held sink.new) text.now) }
    ensures failed { OnErr result (W.failures sink.new ≡ W.failures sink.old + 1) }
{
    let mut rest = text;
    while !rest.is_empty() {
        let count = sink.write(rest)?;
        if count == 0 {
            return Err(SinkFault);
        }
        rest = &rest[count..];
    }
    Ok(())
}
