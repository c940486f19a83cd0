//! `taskrun jobs`: a list of jobs in, and their answers out.

ghost use Rattle.std.specs.Prelude.{◌≡◌, ◌≢◌, ◌<◌, ◌≤◌, ℕ, Err, IfErr, IfOk, IfSome, OnOk};
ghost use Rattle.std.specs.Io.KnownBytes.{IsAtEnd};
ghost use Rattle.jobs.specs.Lines.{IsFirstBadLine};
ghost use Rattle.commands.specs.Jobs.{IsAnswerToJobs, IsFaultOf, MissesJob, SaysJobs};
ghost use Rattle.commands.specs.Writes.{WritesAnswers};

use crate::fault::Fault;
use crate::input;
use crate::output::write_all;
use async_task::Runtime;
use jobs::{JobRealm, JobSite, Open, parse, print, run_jobs};
use std::alloc::Global;
use std::io::{Read, Write};
use std::thread::Threads;

/// Reads a list of jobs whole, does them on so many workers, and writes their answers, last and in one piece. The faults come
/// in this order: `ReadFailed`, `BadLine` with the first bad line, `NoThread`, `Missing` with the least missing job,
/// `WriteFailed`; `NoMemory` comes where it is met. Only a call that ends in `WriteFailed` may have written something, and how
/// much is then left open.
pub fn jobs<P, R: Runtime + Threads + Sync, I: Read, O: Write>(
    rt: R,
    alloc: Global,
    realm: &'static JobRealm<R>,
    reader: &mut I,
    writer: &mut O,
    workers: usize,
) -> Result<(), Fault>
where
    P: JobSite<R, Gate = Open> + Sync + Drop,
    requires { (0 < workers) × (workers ≤ 64) }

    // All there is is read, and the answers to it are written and nothing else.
    ensures read { OnOk result (IsAtEnd (I.remaining reader.new)) }
    ensures written { OnOk result (IfSome (I.remaining reader.old) (λ input.
        WritesAnswers input (O.contents writer.old) (O.contents writer.new))) }

    // At a fault the writer is as it was, unless the writing itself failed, and that is only tried
    // for an input that is answered.
    ensures unwritten { IfErr result (λ fault.
        fault ≢ Fault.WriteFailed → writer.new ≡ writer.old) }
    ensures checked { result ≡ Err Fault.WriteFailed → IfSome (I.remaining reader.old) SaysJobs }

    // The line that is called bad is the first that is, and where none is, none is called so.
    ensures bad_line { (number : ℕ) → result ≡ Err (Fault.BadLine number) →
        IfSome (I.remaining reader.old) (λ input. IsFirstBadLine input number) }
    ensures good_lines { (number : ℕ) → IfSome (I.remaining reader.old) (λ input.
        SaysJobs input → result ≢ Err (Fault.BadLine number)) }
    ensures missing { (number : ℕ) → result ≡ Err (Fault.Missing number) →
        IfSome (I.remaining reader.old) (λ input. MissesJob P.brings workers input number) }
    ensures no_usage { result ≢ Err Fault.Usage }
{
    let input = input::read_all(alloc, reader)?;
    let text = answers::<P, R>(rt, alloc, realm, &input, workers)?;
    write_all(writer, text.as_slice())
}

/// The text of the answers of the jobs that this input says.
fn answers<P: JobSite<R, Gate = Open> + Sync + Drop, R: Runtime + Threads + Sync>(
    rt: R,
    alloc: Global,
    realm: &'static JobRealm<R>,
    input: &[u8],
    workers: usize,
) -> Result<Vec<u8>, Fault>
    requires { (0 < workers) × (workers ≤ 64) }
    ensures answer { IfOk result (λ text. IsAnswerToJobs input.now text.items) }
    ensures fault { IfErr result (IsFaultOf P.brings workers input.now) }
    ensures good_lines { (number : ℕ) → SaysJobs input.now → result ≢ Err (Fault.BadLine number) }
{
    let list = parse(alloc, input)?;
    let answers = run_jobs::<P, R>(rt, alloc, realm, &list, workers, Open)?;
    Ok(print(alloc, &answers)?)
}
