//! The executor that never ends, for users.
ghost use Rattle.std.specs.Prelude.{◌≡◌, ◌<◌, true, false, Some, IfOk, IfErr};
ghost use Rattle.std.specs.Arc.{arc_value};
ghost use Rattle.async_executor.specs.Errors.{refused};
ghost use Rattle.async_executor.specs.Foreign.{value_of};
ghost use Rattle.async_executor.specs.Making.{IsNew};
ghost use Rattle.async_executor.specs.Polls.{has_left};
ghost use Rattle.async_executor.specs.Seeds.{seeded};

use super::{Run, Tick, Unlocked, begun};
use crate::body::Body;
use crate::errors::SpawnError;
use crate::names::{ExRealm, ExTask, ExWaker};
use async_task::{Future, NoMemory, Output, OutsideWaker, Runtime};
use call_steps::Asked;
use executor_parts::Mark;
use std::alloc::Global;
use std::fmt;

/// An executor of futures `F`, whose outputs are `T`, which never ends: what it still holds when it goes is leaked. Its table
/// keeps no wakers: a detached future that nobody can wake any more is dropped by the executor.
///
/// It is `StaticExecutor` of the Rust crate `async-executor`, where a feature turns it on. It asks for what an `Executor` asks
/// for, has the same limit and errors, and takes memory in the same calls. It has no `spawn_many` and no `is_empty`.
/// `Executor::leak` makes one from an executor.
///
/// In `never_ended` of `examples`, over any `R: Runtime`, the future gives twice its number:
///
/// ```
/// let Ok(executor) = StaticExecutor::new(rt, alloc, realm, 10) else {
///     return false;
/// };
/// let Ok(mut task) = executor.spawn(Double(21)) else {
///     return false;
/// };
/// let is_run = executor.try_tick();
/// is_run & matches!(task.poll(&Awaiter::Outside(Nobody)), Poll::Ready(Ok(42)))
/// ```
pub struct StaticExecutor<F: Drop, T: Output, W: OutsideWaker, R: Runtime> {
    pub(crate) body: Body<F, T, W, R>,
}

impl<F, T: Output, W: OutsideWaker, R: Runtime> StaticExecutor<F, T, W, R>
where
    F: Future<ExWaker<T, W, R>, Output = T> + Drop,
{
    /// Makes an executor with places for this many futures, whose tasks lie in this realm. It keeps the runtime value, the
    /// allocator and the realm for its calls. It takes the memory for all places of its queues and its table.
    pub fn new(
        rt: R,
        alloc: Global,
        realm: &'static ExRealm<T, W, R>,
        limit: usize,
    ) -> Result<Self, NoMemory>
        requires { 0 < limit }
        ensures urgent { IfOk result (λ executor. (arc_value executor.body.state).queues.urgent.capacity ≡ Some limit) }
        ensures plain { IfOk result (λ executor. (arc_value executor.body.state).queues.plain.capacity ≡ Some limit) }
        ensures here { IfOk result (λ executor. executor.body.realm.now.number ≡ realm.now.number) }
        ensures kind { IfOk result (λ executor. executor.body.is_static ≡ true) }
    {
        match Body::new(rt, alloc, realm, true, limit) {
            Ok(body) => Ok(StaticExecutor { body }),
            Err(NoMemory) => Err(NoMemory),
        }
    }

    /// Hands the executor a plain future. Its task is queued, and the handle is answered: a future with the output, whose drop
    /// cancels the task. Refused, the future comes back: with `Full` where as many accepted futures as the limit are not dropped
    /// yet, else with `NoMemory` for want of memory for the task.
    pub fn spawn(&self, future: F) -> Result<ExTask<T, W, R>, SpawnError<F>>
        ensures future { IfErr result (λ error. refused error ≡ future) }
        ensures here { IfOk result (λ task. task.identity.realm ≡ self.now.body.realm.now.number) }
        ensures plain { IfOk result (λ task. task.metadata ≡ Mark.Plain) }
    {
        self.spawn_marked(future, Mark::Plain)
    }

    /// As `spawn`, with this mark. An urgent future's task goes into the urgent queue, which seven of eight searches look at
    /// before the other. A tick and `try_tick` search for each task. A run searches only once its own queue of 512 is empty:
    /// until then an urgent task waits, too. So mark little, and tick on one thread where it can't wait.
    pub fn spawn_marked(&self, future: F, mark: Mark) -> Result<ExTask<T, W, R>, SpawnError<F>>
        ensures future { IfErr result (λ error. refused error ≡ future) }
        ensures here { IfOk result (λ task. task.identity.realm ≡ self.now.body.realm.now.number) }
        ensures marked { IfOk result (λ task. task.metadata ≡ mark) }
    {
        let steps = begun(Asked::Spawn(mark));
        let (spawned, _last) = self
            .body
            .hand_in(future, mark, steps, &mut Unlocked::at_entry());
        spawned
    }

    /// Runs one task, where one is queued, and answers whether it did. It doesn't wait for one, and takes no memory.
    pub fn try_tick(&self) -> bool {
        let steps = begun(Asked::TryTick);
        let (is_run, _last) = self.body.run_one(steps, &mut Unlocked::at_entry());
        is_run
    }

    /// Makes a future that waits for a future of the executor which has to be polled, and polls it once.
    pub fn tick(&self) -> Result<Tick<'_, F, T, W, R>, NoMemory>
        ensures { IfOk result (λ tick. has_left tick.ticker ≡ false) }
    {
        let steps = begun(Asked::NewTick);
        let (made, _last) = self.body.make_tick(steps, &mut Unlocked::at_entry());
        made
    }

    /// Makes a future that runs the executor's futures until this one is ready, and then has its output. For want of memory the
    /// future comes back.
    pub fn run<G>(&self, future: G) -> Result<Run<'_, F, T, W, R, G>, G>
    where
        G: Future<ExWaker<T, W, R>> + Drop,
        ensures back { IfErr result (λ back. back ≡ future) }
        ensures future { IfOk result (λ run. value_of run.future ≡ Some future) }
        ensures words { IfOk result (λ run. run.runner.words ≡ seeded 0) }
        ensures new { IfOk result (λ run. IsNew run.runner run.ticker run.counts) }
    {
        let steps = begun(Asked::NewRun);
        let (made, _last) = self
            .body
            .make_run(future, 0, steps, &mut Unlocked::at_entry());
        made
    }

    /// As `run`, with another seed for the places at which it begins to look for tasks of other runs.
    pub fn run_from<G>(&self, future: G, seed: u64) -> Result<Run<'_, F, T, W, R, G>, G>
    where
        G: Future<ExWaker<T, W, R>> + Drop,
        ensures back { IfErr result (λ back. back ≡ future) }
        ensures future { IfOk result (λ run. value_of run.future ≡ Some future) }
        ensures words { IfOk result (λ run. run.runner.words ≡ seeded seed) }
        ensures new { IfOk result (λ run. IsNew run.runner run.ticker run.counts) }
    {
        let steps = begun(Asked::NewRun);
        let (made, _last) = self
            .body
            .make_run(future, seed, steps, &mut Unlocked::at_entry());
        made
    }
}

impl<F: Drop, T: Output, W: OutsideWaker, R: Runtime> Drop for StaticExecutor<F, T, W, R> {
    /// What it still holds is leaked.
    fn drop(self) {
        let StaticExecutor { body } = self;
        body.forget();
    }
}

/// The text of an `Executor`. No future has a waker in its table.
impl<F: Drop, T: Output, W: OutsideWaker, R: Runtime> fmt::Debug for StaticExecutor<F, T, W, R> {
    fn fmt<O: fmt::Write>(&self, f: &mut fmt::Formatter<O>) -> fmt::Result {
        self.body
            .show("StaticExecutor", f, &mut Unlocked::at_entry())
    }
}
