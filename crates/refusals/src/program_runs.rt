//! What `taskrun` does with these words on this input: `jobs 2` on two jobs, and `sim` on a short script. One request for memory
//! may be refused meanwhile: then the fault is want of memory or of threads, its status 3, and nothing was written.
use async_task::Runtime;
use commands::program::program;
use jobs::{JobRealm, JobSite, Open};
use refusal_rows::{Call, Place, Report};
use std::alloc::{AllocError, Global};
use std::thread::Threads;

/// A run of the program.
#[derive(Clone, Copy)]
pub struct Case {
    /// Its name, where it is refused.
    pub name: Call,
    /// The arguments.
    words: &'static [&'static str],
    /// What is read.
    input: &'static str,
    /// What has to be written.
    output: &'static str,
}

pub const SIM: Case = Case {
    name: Call::Sim,
    words: &["sim"],
    input: "limit 1\ntick t\npolltick t\nspawn x ready=1\npolltick t\npoll x\nempty\n",
    output: "tick: ok\npolltick: pending\ncall t\nspawn: ok\npoll x\nready x\ndrop x\npolltick: ready\npoll: ready 1\nempty: true\n",
};

/// Two threads do the jobs, whose schedule says which of them makes a request.
pub const TWO_JOBS: Case = Case {
    name: Call::TwoJobs,
    words: &["jobs", "2"],
    input: "sum 10\nmul 18446744073709551615 2\n",
    output: "0 55\n1 too large\n",
};

/// The status of want of memory or of threads.
const REFUSED: u8 = 3;

/// How the program ended.
#[derive(Clone, Copy)]
enum Ended {
    /// With the right answers.
    Well,
    /// Something was refused.
    Refused,
    /// With other answers, with another fault, or with some of the answers written at a fault.
    Wrong,
}

/// Runs the program, and once more where something was refused, which has to be well. Says whether it was.
pub fn do_case<P: JobSite<R, Gate = Open> + Sync + Drop, R: Runtime + Threads + Sync>(
    rt: R,
    alloc: Global,
    realm: &'static JobRealm<R>,
    case: Case,
    report: &mut Report,
) -> bool {
    report.come_to(Place::Taskrun);
    for _ in 0..2 {
        match try_once::<P, R>(rt, alloc, realm, case) {
            Ended::Well => return true,
            Ended::Refused => report.is_refused(case.name),
            Ended::Wrong => return false,
        }
    }
    false
}

fn try_once<P, R>(rt: R, alloc: Global, realm: &'static JobRealm<R>, case: Case) -> Ended
where
    P: JobSite<R, Gate = Open> + Sync + Drop,
    R: Runtime + Threads + Sync,
{
    let (Ok(words), Ok(mut written)) = (
        words(alloc, case.words),
        Vec::with_capacity(alloc, case.output.len()),
    ) else {
        return Ended::Refused;
    };
    let mut reader = case.input.as_bytes();
    match program::<P, R, _, _>(rt, alloc, realm, &words, &mut reader, &mut written) {
        Ok(()) if written.as_slice() == case.output.as_bytes() => Ended::Well,
        Err(fault) if fault.status() == REFUSED && written.is_empty() => Ended::Refused,
        _ => Ended::Wrong,
    }
}

/// The arguments behind the program's name.
fn words(alloc: Global, list: &[&'static str]) -> Result<Vec<String>, AllocError> {
    let mut words = Vec::new(alloc);
    for word in list {
        words.push(String::from_str(alloc, *word)?)?;
    }
    Ok(words)
}
