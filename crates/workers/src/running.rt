//! A thread that runs an executor until one future is ready.
ghost use Rattle.std.specs.Prelude.{◌≡◌, ◌⊎◌, IfErr};
ghost use Rattle.workers.specs.Faults.{answered};
ghost use Rattle.workers.specs.declared.fault.Fault.TheVariants as fault;

use crate::fault::Fault;
use crate::until::Until;
use async_executor::{ExWaker, Executor, RunError};
use async_task::{Future, NoMemory, Output, Runtime, TaskError};
use blocking::{Beside, ThreadWaker, block_on, block_on_beside};
use std::alloc::Global;
use std::time::Clock;

/// Runs the executor on this thread until the future is ready, and answers its output. The seed says at which other runs it begins
/// to look for work; each thread takes another seed. The only fault is want of memory.
pub fn run_until<F, T: Output, R: Runtime, G>(
    rt: &R,
    alloc: Global,
    executor: &Executor<F, T, ThreadWaker, R>,
    seed: u64,
    future: G,
) -> Result<G::Output, Fault>
where
    F: Future<ExWaker<T, ThreadWaker, R>, Output = T> + Drop,
    G: Future<ExWaker<T, ThreadWaker, R>> + Drop,
    G::Output: Drop,
    ensures { IfErr result (λ why. why ≡ fault.NoMemory) }
{
    match executor.run_from(future, seed) {
        Ok(run) => match block_on(rt, alloc, Until::of(run)) {
            Ok(Ok(output)) => Ok(output),
            Ok(Err(NoMemory)) => Err(Fault::NoMemory),
            Err(_) => Err(Fault::NoMemory),
        },
        Err(_) => Err(Fault::NoMemory),
    }
}

/// As `run_until`, on a thread that drives something else between two polls of its run. Each poll runs two hundred futures at
/// most. With a `Timer`, the program needs no thread that only sleeps. Of several threads that run an executor, one does so.
pub fn run_until_beside<F, T: Output, R: Runtime + Clock, G, B>(
    rt: &R,
    alloc: Global,
    executor: &Executor<F, T, ThreadWaker, R>,
    beside: &B,
    future: G,
) -> Result<G::Output, Fault>
where
    F: Future<ExWaker<T, ThreadWaker, R>, Output = T> + Drop,
    G: Future<ExWaker<T, ThreadWaker, R>> + Drop,
    G::Output: Drop,
    B: Beside<ExWaker<T, ThreadWaker, R>>,
    ensures { IfErr result (λ why. why ≡ fault.NoMemory) }
{
    match executor.run_from(future, 0) {
        Ok(run) => match block_on_beside(rt, alloc, beside, Until::of(run)) {
            Ok(Ok(output)) => Ok(output),
            Ok(Err(NoMemory)) => Err(Fault::NoMemory),
            Err(_) => Err(Fault::NoMemory),
        },
        Err(_) => Err(Fault::NoMemory),
    }
}

/// Runs the executor on this thread until the task is over, and answers the output of its future: `block_on` of a run of a handle,
/// with one answer. The faults are `NoMemory`, and `TaskClosed` where the task has no output to give.
///
/// Where several threads do so, each should take another seed: `complete_from`.
pub fn complete<F, T: Output, R: Runtime, G, U: Drop>(
    rt: &R,
    alloc: Global,
    executor: &Executor<F, T, ThreadWaker, R>,
    task: G,
) -> Result<U, Fault>
where
    F: Future<ExWaker<T, ThreadWaker, R>, Output = T> + Drop,
    G: Future<ExWaker<T, ThreadWaker, R>, Output = Result<U, TaskError>> + Drop,
    ensures { IfErr result (λ why. (why ≡ fault.NoMemory) ⊎ (why ≡ fault.TaskClosed)) }
{
    complete_from(rt, alloc, executor, 0, task)
}

/// As `complete`, with a seed that says where it begins to look for work, as `run_until` has.
pub fn complete_from<F, T: Output, R: Runtime, G, U: Drop>(
    rt: &R,
    alloc: Global,
    executor: &Executor<F, T, ThreadWaker, R>,
    seed: u64,
    task: G,
) -> Result<U, Fault>
where
    F: Future<ExWaker<T, ThreadWaker, R>, Output = T> + Drop,
    G: Future<ExWaker<T, ThreadWaker, R>, Output = Result<U, TaskError>> + Drop,
    ensures { IfErr result (λ why. (why ≡ fault.NoMemory) ⊎ (why ≡ fault.TaskClosed)) }
{
    match run_until(rt, alloc, executor, seed, task) {
        Ok(Ok(output)) => Ok(output),
        Ok(Err(error)) => Err(Fault::from(error)),
        Err(fault) => Err(fault),
    }
}

/// One answer from the three that `block_on` of a run of a handle gives: that of the parker, of the run and of the task.
pub fn answer<T: Drop, G: Drop>(
    ended: Result<Result<Result<T, TaskError>, RunError>, G>,
) -> Result<T, Fault>
    ensures { result ≡ answered ended }
{
    match ended {
        Ok(Ok(Ok(output))) => Ok(output),
        Ok(Ok(Err(error))) => Err(Fault::from(error)),
        Ok(Err(error)) => Err(Fault::from(error)),
        Err(_) => Err(Fault::NoMemory),
    }
}
