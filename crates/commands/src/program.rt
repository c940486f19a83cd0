ghost use Rattle.std.specs.Prelude.{◌≡◌, ◌≢◌, ◌↔◌, ℕ, Err, IfErr, IfSome, OnOk, map, string_bytes};
ghost use Rattle.std.specs.Io.KnownBytes.{IsAtEnd};
ghost use Rattle.commands.specs.Asked.{AskFor, IsBadFor, IsGoodFor, MissesFor};
ghost use Rattle.commands.specs.Writes.{WritesFor};

use crate::fault::Fault;
use crate::job_list::jobs;
use crate::sim::sim;
use crate::words::{Asked, read_words};
use async_task::Runtime;
use jobs::{JobRealm, JobSite, Open};
use std::alloc::Global;
use std::io::{Read, Write};
use std::thread::Threads;

/// Does what the words say that stand after the program's name in its arguments. `sim` runs a script, and `jobs` with a number
/// of workers does jobs, as the functions of these names say; any other words are `Usage`, and then nothing is read or written.
pub fn program<P, R: Runtime + Threads + Sync, I: Read, O: Write>(
    rt: R,
    alloc: Global,
    realm: &'static JobRealm<R>,
    words: &[String],
    reader: &mut I,
    writer: &mut O,
) -> Result<(), Fault>
where
    P: JobSite<R, Gate = Open> + Sync + Drop,
    ensures usage { (result ≡ Err Fault.Usage) ↔ ((asked : Asked) → ¬ (AskFor (map string_bytes words.now) asked)) }
    ensures unread { result ≡ Err Fault.Usage → reader.new ≡ reader.old }

    // All there is is read, and the answer to it is written and nothing else.
    ensures read { OnOk result (IsAtEnd (I.remaining reader.new)) }
    ensures written { OnOk result ((asked : Asked) × AskFor (map string_bytes words.now) asked ×
        IfSome (I.remaining reader.old) (λ input.
        WritesFor asked input (O.contents writer.old) (O.contents writer.new))) }

    // At a fault the writer is as it was, unless the writing itself failed, and that is only tried
    // for an input that is answered.
    ensures unwritten { IfErr result (λ fault.
        fault ≢ Fault.WriteFailed → writer.new ≡ writer.old) }
    ensures checked { result ≡ Err Fault.WriteFailed → (asked : Asked) × AskFor (map string_bytes words.now) asked ×
        IfSome (I.remaining reader.old) (IsGoodFor asked) }

    // The line that is called bad is the first that is, and where none is, none is called so.
    ensures bad_line { (number : ℕ) → result ≡ Err (Fault.BadLine number) →
        (asked : Asked) × AskFor (map string_bytes words.now) asked ×
        IfSome (I.remaining reader.old) (λ input. IsBadFor asked input number) }
    ensures missing { (number : ℕ) → result ≡ Err (Fault.Missing number) →
        (asked : Asked) × AskFor (map string_bytes words.now) asked ×
        IfSome (I.remaining reader.old) (λ input. MissesFor P.brings asked input number) }
{
    match read_words(words) {
        Some(Asked::Sim) => sim(alloc, reader, writer),
        Some(Asked::Jobs(workers)) => {
            jobs::<P, R, I, O>(rt, alloc, realm, reader, writer, workers)
        }
        None => Err(Fault::Usage),
    }
}
