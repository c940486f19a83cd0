//! The output, written last and whole.

ghost use Rattle.std.specs.Prelude.{◌≡◌, IfErr, OnOk};
ghost use Rattle.std.specs.Io.KnownBytes.{Appends};

use crate::fault::Fault;
use std::io::Write;

/// Writes the text and has the writer pass it on. At `WriteFailed` it is left open how much was written.
pub fn write_all<W: Write>(writer: &mut W, text: &[u8]) -> Result<(), Fault>
    ensures written { OnOk result
        (Appends (W.contents writer.old) (W.contents writer.new) text.now) }
    ensures fault { IfErr result (λ fault. fault ≡ Fault.WriteFailed) }
{
    writer.write_all(text).map_err(|_| Fault::WriteFailed)?;
    writer.flush().map_err(|_| Fault::WriteFailed)
}
