//! Reading an input to its end.

ghost use Rattle.std.specs.Prelude.{◌≡◌, IfErr, IfOk, IfSome};
ghost use Rattle.cli_lines.specs.Outcomes.{IsOfReading};

use crate::ended::Cause;
use std::alloc::Global;
use std::io::{ErrorKind, Read};

/// How many bytes are asked for at once.
const CHUNK: usize = 65_536;

/// All that the reader has left, in at most so many reads. A read that a signal interrupts is made again, and counts; any other one
/// that fails, or no end by then, is a failure of the input.
pub fn read_whole<R: Read>(alloc: Global, reader: &mut R, most: u64) -> Result<Vec<u8>, Cause>
    ensures bytes { IfOk result (λ bytes. IfSome (R.remaining reader.old) (λ input. bytes.items ≡ input)) }
    ensures cause { IfErr result IsOfReading }
{
    let mut bytes = Vec::new(alloc);
    let mut chunk = [0u8; CHUNK];
    for _ in 0..most {
        match reader.read(&mut chunk) {
            Ok(0) => return Ok(bytes),
            Ok(count) => {
                if bytes.extend_from_slice(&chunk[..count]).is_err() {
                    return Err(Cause::Memory);
                }
            }
            Err(error) if error.kind() == ErrorKind::Interrupted => {}
            Err(_) => return Err(Cause::Input),
        }
    }
    Err(Cause::Input)
}
