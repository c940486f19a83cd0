//! Jobs done by workers.
ghost use Rattle.std.specs.Prelude.{◌<◌, ◌≤◌, All, length};
ghost use Rattle.jobs.specs.Answers.{IsInRange};

use crate::job::list::{JOBS, jobs};
use crate::{Fault, Timing};
use async_task::Runtime;
use jobs::{Job, JobRealm, JobSite, Open, run_jobs};
use std::alloc::{AllocGlobal, Global};
use std::rt::Clock;
use std::thread::Threads;
use std::time::Instant;

/// So many jobs, 100,000 in a round, done by so many workers. The lists are made before the clock starts.
pub fn run<P, R: Runtime + AllocGlobal + Clock + Threads + Sync>(
    rt: &R,
    realm: &'static JobRealm<R>,
    workers: usize,
    ops: u64,
) -> Result<Timing, Fault>
where
    P: JobSite<R, Gate = Open> + Sync + Drop,
    requires { (0 < workers) × (workers ≤ 64) }
{
    let whole = jobs(rt.alloc(), JOBS)?;
    let rest = jobs(rt.alloc(), ops % JOBS)?;
    time_run::<P, R>(rt, realm, workers, &whole, &rest, ops / JOBS)
}

/// One list so many times, and the other one once.
fn time_run<P, R: Runtime + AllocGlobal + Clock + Threads + Sync>(
    rt: &R,
    realm: &'static JobRealm<R>,
    workers: usize,
    whole: &[Job],
    rest: &[Job],
    rounds: u64,
) -> Result<Timing, Fault>
where
    P: JobSite<R, Gate = Open> + Sync + Drop,
    requires workers { (0 < workers) × (workers ≤ 64) }
    requires whole { All IsInRange whole.now × (length whole.now ≤ 100000) }
    requires rest { All IsInRange rest.now × (length rest.now ≤ 100000) }
{
    let mut moved = 0u64;
    let start = Instant::now(rt)?;
    for _ in 0..rounds {
        moved = moved.wrapping_add(round::<P, R>(*rt, rt.alloc(), realm, whole, workers)?);
    }
    moved = moved.wrapping_add(round::<P, R>(*rt, rt.alloc(), realm, rest, workers)?);
    Timing::since(rt, start, moved)
}

/// How many answers one round gives.
fn round<P: JobSite<R, Gate = Open> + Sync + Drop, R: Runtime + Threads + Sync>(
    rt: R,
    alloc: Global,
    realm: &'static JobRealm<R>,
    list: &[Job],
    workers: usize,
) -> Result<u64, Fault>
    requires workers { (0 < workers) × (workers ≤ 64) }
    requires ranges { All IsInRange list.now }
    requires few { length list.now ≤ 100000 }
{
    match run_jobs::<P, R>(rt, alloc, realm, list, workers, Open) {
        Ok(answers) => Ok(answers.len() as u64),
        Err(_) => Err(Fault::Refused),
    }
}
