//! `taskrun jobs <workers>` does jobs on worker threads and prints their answers; `taskrun sim` reads a script of calls and
//! prints what they do, line by line.
#![tactic(auto)]

mod shown;

use async_task::Runtime;
use commands::Fault;
use commands::program::program;
use jobs::{JobPlace, JobRealm, JobSite, Open};
use shown::{Shown, Teller};
use std::alloc::Global;
use std::io::{ErrorKind, IsTerminal};
use std::process::ExitCode;
use std::rt::Env;
use std::thread::Threads;
use std::{env, io};

/// The place where jobs are done, and one that tells how far they are.
type Place = JobPlace<Open, HostRuntime>;

type ShownPlace = Shown<JobPlace<Teller<HostRuntime>, HostRuntime>, HostRuntime>;

fn main(rt: HostRuntime) -> ExitCode {
    // Generic code that makes a realm and works on it gets no proof, so it is made here, before it is known whether there are
    // jobs.
    let ended = match JobRealm::<HostRuntime>::leak(rt, rt.alloc()) {
        Ok(realm) if rt.stderr().is_terminal() => run::<ShownPlace, HostRuntime>(rt, realm),
        Ok(realm) => run::<Place, HostRuntime>(rt, realm),
        Err(error) => Err(Fault::from(error)),
    };
    match ended {
        Ok(()) => ExitCode::SUCCESS,
        Err(fault) => {
            // A fault that can't be printed still has its status.
            let _ = eprintln!(rt; "{fault}");
            ExitCode::from(fault.status())
        }
    }
}

/// Runs the program on its arguments, standard input and standard output.
fn run<P, R>(rt: R, realm: &'static JobRealm<R>) -> Result<(), Fault>
where
    P: JobSite<R, Gate = Open> + Sync + Drop,
    R: Runtime + AllocGlobal + Env + Input + Print + Threads + Sync,
{
    let words = arguments(&rt)?;
    program::<P, R, _, _>(
        rt,
        rt.alloc(),
        realm,
        words.as_slice(),
        &mut rt.reader(),
        &mut io::writer(&rt),
    )
}

/// The arguments behind the program's name. A list that can't be read as text is none that the
/// program knows.
fn arguments<R: AllocGlobal + Env>(rt: &R) -> Result<Vec<String>, Fault> {
    match env::args(rt) {
        Ok(all) => Ok(all.skip(1).collect(rt.alloc())?),
        Err(error) if error.kind() == ErrorKind::OutOfMemory => Err(Fault::NoMemory),
        Err(_) => Err(Fault::Usage),
    }
}
