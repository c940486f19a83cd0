//! Jobs on worker threads.
ghost use Rattle.std.specs.Prelude.{◌≡◌, ◌<◌, ◌≤◌, ℕ, All, Err, IfOk, Ok, length, map};
ghost use Rattle.jobs.specs.Answers.{IsInRange, answer_of};
ghost use Rattle.jobs.specs.declared.errors.JobsError.TheVariants.{Missing};
ghost use Rattle.jobs.specs.Coming.{AllCameBack, AreBrought, CameBackUpTo};

use crate::place::{JobSite, Labor};
use crate::site::JobRealm;
use crate::{Answer, Job, JobsError, Solved, gather};
use async_task::{NoMemory, Runtime};
use std::alloc::Global;
use std::marker::PhantomData;
use std::sync::Wait;
use std::thread::{self, Promise, Threads};

/// Does jobs on worker threads, and answers the result of each, in order. At most 100,000 jobs and 1 to 64 workers.
///
/// 1. The jobs are pushed into an unbounded queue, which is closed. Each worker's thread runs a future that pops a job, spawns
///    it on one executor, polls one that is due, awaits the handle of its own and pops the next.
/// 2. Where a thread couldn't be started, those that were are joined, and the answer is `NoThread`; where one met a want of
///    memory it is `NoMemory`; where a job didn't come back once it is `Missing` with the least such number.
pub fn run_jobs<P: JobSite<R> + Sync + Drop, R: Runtime + Threads + Sync>(
    rt: R,
    alloc: Global,
    realm: &'static JobRealm<R>,
    jobs: &[Job],
    workers: usize,
    gate: P::Gate,
) -> Result<Vec<Answer>, JobsError>
    requires ranges { All IsInRange jobs.now }
    requires few { length jobs.now ≤ 100000 }
    requires some { 0 < workers }
    requires bounded { workers ≤ 64 }
    ensures answers { IfOk result (λ answers. answers.items ≡ map answer_of jobs.now) }
    ensures once { IfOk result (λ answers. AllCameBack P.brings workers jobs.now) }
    ensures missing { (number : ℕ) → result ≡ Err (Missing number) → CameBackUpTo P.brings workers jobs.now number }
{
    let place = match P::new(rt, alloc, realm, jobs, gate) {
        Ok(place) => place,
        Err(NoMemory) => return Err(JobsError::NoMemory),
    };
    match work_together(&rt, alloc, &place, workers) {
        Ok(returned) => gather(alloc, jobs, &returned),
        Err(Refusal::NoThread) => Err(JobsError::NoThread),
        Err(Refusal::NoMemory) => Err(JobsError::NoMemory),
    }
}

/// Why not all workers came to their end.
#[derive(Clone, Copy)]
enum Refusal {
    NoThread,
    NoMemory,
}

/// The promise that a thread comes back with what this place brings.
struct WorkOf<'a, P, R>(&'a P, PhantomData<R>);

impl<P, R> Drop for WorkOf<'_, P, R> {
    fn drop(self) {
        let WorkOf(_, _) = self;
    }
}

impl<P: Labor<R>, R: Wait> Promise<Result<Vec<Solved>, NoMemory>> for WorkOf<'_, P, R> {
    ghost use Rattle.std.specs.Prelude.{IfOk};

    ghost kept_by = { λ promise ended. IfOk ended (P.brings promise.0.now) };
}

/// Starts the workers, and joins those that were started. Answers what came back to each.
fn work_together<P: Labor<R> + Sync, R: Threads + Sync + Wait>(
    rt: &R,
    alloc: Global,
    place: &P,
    workers: usize,
) -> Result<Vec<Vec<Solved>>, Refusal>
    ensures { IfOk result (λ returned. AreBrought (P.brings place.now) workers returned.items) }
{
    thread::scope(
        thread::scope_env(),
        rt,
        move |scope| -> Result<Vec<Vec<Solved>>, Refusal>
            ensures { IfOk result (λ returned. AreBrought (P.brings place.entry.now) workers returned.items) }
        {
            let Ok(mut threads) = Vec::with_capacity(alloc, workers) else {
                return Err(Refusal::NoMemory);
            };
            for seed in 0..workers {
                let promise = WorkOf(place, PhantomData);
                let Ok(thread) = scope.spawn_with(promise, move || place.work(rt, seed as u64))
                else {
                    return Err(Refusal::NoThread);
                };
                if threads.push(thread).is_err() {
                    return Err(Refusal::NoMemory);
                }
            }
            match thread::join_promised(rt, threads) {
                Ok(ended) => all_well(alloc, ended),
                Err(_) => Err(Refusal::NoMemory),
            }
        },
    )
}

/// What came back to each of the workers, where all came to their end.
fn all_well(
    alloc: Global,
    ended: Vec<Result<Vec<Solved>, NoMemory>>,
) -> Result<Vec<Vec<Solved>>, Refusal>
    ensures { IfOk result (λ returned. map Ok returned.items ≡ ended.items) }
{
    let mut returned = Vec::new(alloc);
    for one in ended {
        let Ok(solved) = one else {
            return Err(Refusal::NoMemory);
        };
        if returned.push(solved).is_err() {
            return Err(Refusal::NoMemory);
        }
    }
    Ok(returned)
}
