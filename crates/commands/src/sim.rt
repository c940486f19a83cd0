//! `taskrun sim`: a script in, and what its run shows out.

ghost use Rattle.std.specs.Prelude.{◌≡◌, ◌≢◌, ℕ, Err, IfErr, IfSome, OnOk};
ghost use Rattle.std.specs.Io.KnownBytes.{IsAtEnd};
ghost use Rattle.simulator.specs.Answer.{IsGoodInput};
ghost use Rattle.commands.specs.Writes.{WritesAnswer};
ghost use Rattle.script.specs.BadLine.{IsFirstBadLine};

use crate::fault::Fault;
use crate::input;
use crate::output::write_all;
use simulator::answer;
use std::alloc::Global;
use std::io::{Read, Write};

/// Reads a script whole, runs it, and writes what its run shows, last and in one piece. The faults
/// come in this order: `ReadFailed`, `BadLine` with the first bad line, `WriteFailed`; `NoMemory` comes
/// where it is met. Only a call that ends in `WriteFailed` may have written something, and how much
/// is then left open.
pub fn sim<R: Read, W: Write>(alloc: Global, reader: &mut R, writer: &mut W) -> Result<(), Fault>
    // All there is is read, and the answer to it is written and nothing else.
    ensures read { OnOk result (IsAtEnd (R.remaining reader.new)) }
    ensures written { OnOk result (IfSome (R.remaining reader.old) (λ input.
        WritesAnswer input (W.contents writer.old) (W.contents writer.new))) }

    // At a fault the writer is as it was, unless the writing itself failed, and that is only tried
    // for an input that is answered.
    ensures unwritten { IfErr result (λ fault.
        fault ≢ Fault.WriteFailed → writer.new ≡ writer.old) }
    ensures checked { result ≡ Err Fault.WriteFailed → IfSome (R.remaining reader.old) IsGoodInput }

    // The line that is called bad is the first that is, and where none is, none is called so.
    ensures bad_line { (number : ℕ) → result ≡ Err (Fault.BadLine number) →
        IfSome (R.remaining reader.old) (λ input. IsFirstBadLine input number) }
    ensures good_lines { (number : ℕ) → IfSome (R.remaining reader.old) (λ input.
        IsGoodInput input → result ≢ Err (Fault.BadLine number)) }
    ensures no_usage { result ≢ Err Fault.Usage }
    ensures no_jobs { (number : ℕ) → result ≢ Err (Fault.Missing number) }
{
    let input = input::read_all(alloc, reader)?;
    let text = answer(alloc, input.as_slice())?;
    write_all(writer, text.as_slice())
}
