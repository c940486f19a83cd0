//! The executor of one thread that never ends, for users.
ghost use Rattle.std.specs.Prelude.{◌≡◌, ◌<◌, Some, IsSome, IfOk, IfErr};
ghost use Rattle.solo.specs.Solo.{refused};
ghost use Rattle.local_executor.specs.Starts.{drawn, seeded};

use super::{LocalExWaker, LocalHandle, LocalRun, LocalTick, Unlocked};
use crate::body::Body;
use crate::debug::{counts_of, show};
use crate::errors::LocalError;
use crate::making;
use async_task::{Future, NoMemory, Wake};
use executor_parts::Mark;
use solo::{Kind, SpawnError};
use std::alloc::Global;
use std::random::RandomSource;
use std::sync::Wait;
use std::{fmt, mem};

/// An executor of futures `F`, whose outputs are `T`, on one thread, which never ends: what it still holds when it goes is leaked.
/// It counts no wakers of its own: a detached future that nobody can wake any more is dropped by the executor.
pub struct StaticLocalExecutor<F: Drop, T: Drop, W: Wake + Drop, R: Wait + Copy + Drop> {
    pub(crate) body: Body<F, T, W, R>,
}

impl<F, T: Drop, W: Wake + Drop, R: Wait + Copy + Drop> StaticLocalExecutor<F, T, W, R>
where
    F: Future<LocalExWaker<W, R>, Output = T> + Drop,
{
    /// Makes an executor with places for this many futures, as `LocalExecutor::new` does.
    pub fn new(rt: R, alloc: Global, limit: usize) -> Result<Self, LocalError>
    where
        R: RandomSource,
        requires { 0 < limit }
        ensures { IfOk result (λ executor. executor.body.link.rt ≡ rt) }
    {
        match making::body(rt, alloc, limit, Kind::Static) {
            Ok(body) => Ok(StaticLocalExecutor { body }),
            Err(error) => Err(error),
        }
    }

    /// Hands the executor a plain future. Its task is queued, and the handle is answered: a future with the output, whose drop
    /// cancels the task. Refused, the future comes back: with `Full` where as many accepted futures as the limit are not dropped
    /// yet, else with `NoMemory` for want of memory for the task.
    pub fn spawn(&self, future: F) -> Result<LocalHandle<T, W, R>, SpawnError<F>>
        ensures back { IfErr result (λ error. refused error ≡ future) }
        ensures here { IfOk result (λ handle. handle.held.link.id ≡ self.now.body.link.id) }
    {
        self.spawn_marked(future, Mark::Plain)
    }

    /// As `spawn`, with this mark. An urgent future's task goes into the urgent queue, which seven of eight searches look at
    /// before the other. A tick and `try_tick` search for each task. A run searches only once its own queue of 512 is empty:
    /// until then an urgent task waits, too. So mark little, and tick where it can't wait.
    pub fn spawn_marked(&self, future: F, mark: Mark) -> Result<LocalHandle<T, W, R>, SpawnError<F>>
        ensures back { IfErr result (λ error. refused error ≡ future) }
        ensures here { IfOk result (λ handle. handle.held.link.id ≡ self.now.body.link.id) }
    {
        self.body.hand_in(future, mark, &mut Unlocked::at_entry())
    }

    /// Runs one task, where one is queued, and answers whether it did. It doesn't wait for one, and takes no memory.
    pub fn try_tick(&self) -> bool {
        self.body.run_one(&mut Unlocked::at_entry())
    }

    /// Makes a future that waits for a future of the executor which has to be polled, and polls it once.
    pub fn tick(&self) -> Result<LocalTick<'_, F, T, W, R>, NoMemory>
        ensures here { IfOk result (λ tick. tick.executor.now ≡ self.now.body) }
        ensures ticker { IfOk result (λ tick. IsSome tick.ticker) }
    {
        self.body.make_tick(&mut Unlocked::at_entry())
    }

    /// Makes a future that runs the executor's futures until this one is ready, and then has its output. For want of memory the
    /// future comes back.
    pub fn run<G>(&self, future: G) -> Result<LocalRun<'_, F, T, W, R, G>, G>
    where
        G: Future<LocalExWaker<W, R>> + Drop,
        ensures here { IfOk result (λ run. run.executor.now ≡ self.now.body) }
        ensures back { IfErr result (λ back. back ≡ future) }
        ensures future { IfOk result (λ run. run.future ≡ Some future) }
        ensures starts { IfOk result (λ run. run.starts ≡ drawn (seeded 0)) }
    {
        self.body.make_run(future, 0, &mut Unlocked::at_entry())
    }

    /// As `run`, with another seed for the places at which it begins to look for tasks of other runs.
    pub fn run_from<G>(&self, future: G, seed: u64) -> Result<LocalRun<'_, F, T, W, R, G>, G>
    where
        G: Future<LocalExWaker<W, R>> + Drop,
        ensures here { IfOk result (λ run. run.executor.now ≡ self.now.body) }
        ensures back { IfErr result (λ back. back ≡ future) }
        ensures future { IfOk result (λ run. run.future ≡ Some future) }
        ensures starts { IfOk result (λ run. run.starts ≡ drawn (seeded seed)) }
    {
        self.body.make_run(future, seed, &mut Unlocked::at_entry())
    }
}

impl<F: Drop, T: Drop, W: Wake + Drop, R: Wait + Copy + Drop> Drop
    for StaticLocalExecutor<F, T, W, R> {
    /// What it still holds is leaked.
    fn drop(self) {
        let StaticLocalExecutor { body } = self;
        mem::forget(body);
    }
}

/// The text of a `LocalExecutor`, except that its table has no wakers: none is counted.
impl<F: Drop, T: Drop, W: Wake + Drop, R: Wait + Copy + Drop> fmt::Debug
    for StaticLocalExecutor<F, T, W, R> {
    fn fmt<O: fmt::Write>(&self, f: &mut fmt::Formatter<O>) -> fmt::Result {
        let link = &self.body.link;
        let counts = counts_of(link, Kind::Static, &mut Unlocked::at_entry());
        show(link, "StaticLocalExecutor", counts, f)
    }
}
