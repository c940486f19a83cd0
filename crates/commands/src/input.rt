//! The input, read whole before anything is done with it.

ghost use Rattle.std.specs.Prelude.{◌≡◌, ◌⊎◌, IfOk, OnOk, IfSome, IfErr};
ghost use Rattle.std.specs.Io.KnownBytes.{IsAtEnd};

use crate::fault::Fault;
use std::alloc::Global;
use std::io::{ErrorKind, Read};

/// How often a reader is asked for bytes. A reader that isn't over by then is given up.
const MOST_READS: u32 = 1 << 24;

/// How many bytes are asked for at a time.
const CHUNK: usize = 8192;

/// Reads all there is. `NoMemory` comes where there is no room for it, and `ReadFailed` where a read
/// fails or none of `MOST_READS` reads says that the input is over; how much was read is then left
/// open. A read that was interrupted is no failure, and counts as one of them.
pub fn read_all<R: Read>(alloc: Global, reader: &mut R) -> Result<Vec<u8>, Fault>
    ensures whole { IfOk result (λ input.
        IfSome (R.remaining reader.old) (λ all. input.items ≡ all)) }
    ensures end { OnOk result (IsAtEnd (R.remaining reader.new)) }
    ensures fault { IfErr result (λ fault. (fault ≡ Fault.ReadFailed) ⊎ (fault ≡ Fault.NoMemory)) }
{
    let mut input = Vec::new(alloc);
    let mut chunk = [0; CHUNK];
    for _ in 0..MOST_READS {
        match reader.read(&mut chunk) {
            Ok(0) => return Ok(input),
            Ok(count) => input.extend_from_slice(&chunk[..count])?,
            Err(error) => {
                if error.kind() != ErrorKind::Interrupted {
                    return Err(Fault::ReadFailed);
                }
            }
        }
    }
    Err(Fault::ReadFailed)
}
