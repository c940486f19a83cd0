//! The types and calls of the user. Each call begins with no lock in hand, and makes an `Unlocked` to say so. Only these calls can
//! make one.
ghost use Rattle.std.specs.Prelude.{◌≡◌, true, false, Some, IfOk, IfErr, length};
ghost use Rattle.std.specs.Iterator.{IsFinite};
ghost use Rattle.async_executor.specs.Counting.{GoesOn};
ghost use Rattle.async_executor.specs.Errors.{refused};
ghost use Rattle.async_executor.specs.Foreign.{value_of};
ghost use Rattle.async_executor.specs.Making.{IsNew};
ghost use Rattle.async_executor.specs.Polls.{has_left, HasLeft, IsRunAnswer, IsTickAnswer};
ghost use Rattle.async_executor.specs.Seeds.{seeded};
ghost use Rattle.async_executor.specs.Spawning.{SpawnsMany};
ghost use Rattle.call_steps.specs.Begins.{begins};

use crate::body::Body;
use crate::counts::Counts;
use crate::debug::LocalRunners;
use crate::deeds::Steps;
use crate::errors::{RunError, SpawnError};
use crate::foreign::Foreign;
use crate::handles::Handles;
use crate::leaving::Leaving;
use crate::names::{ExScheduled, ExTask, ExWaker};
use crate::queue::ExQueue;
use crate::runner::Runner;
use crate::steps::Answered;
use crate::task_name::{TaskName, name_given_to};
use crate::ticker::Ticker;
use crate::{executor, run, tick};
use async_task::{
    Future, NoMemory, Output, OutsideWaker, Poll, Returning, Runtime, Schedule, ScheduleInfo,
    StoredWaker,
};
use call_steps::{Asked, RunPoll, Sleeping, TickOrRun};
use executor_parts::Mark;
use std::collections::VecDeque;
use std::fmt;
use std::sync::Wait;

mod static_executor;

pub use static_executor::StaticExecutor;

/// Says that a party has none of an executor's locks. It has no bytes. It is lent to a lock's holder for as long as the lock is
/// taken, and to whatever calls, copies or drops a value of a user's.
#[derive(Drop)]
pub struct Unlocked {
    own: (),
}

impl Unlocked {
    /// Makes one at the beginning of a call.
    fn at_entry() -> Unlocked {
        Unlocked { own: () }
    }
}

/// Says that a call of a user's begins. Only the calls here can make one, so no other function begins a call.
#[derive(Drop)]
pub struct Entered {
    own: (),
}

/// Begins the steps of a call of a user's that is asked for this.
#[inline(always)]
fn begun(asked: Asked<TaskName, ()>) -> Steps
    ensures { result ≡ begins asked }
{
    Steps::begin(asked, Entered { own: () })
}

/// An executor of futures `F`, whose outputs are `T`, on any number of threads: `Executor` of the Rust crate `async-executor`.
///
/// Threads share it by `&`. They run it by a `run`, a `tick` or `try_tick`, which may move futures and outputs from one thread to
/// another. A future is polled with an `ExWaker<T, W, R>`: `W` is the type of wakers from outside, `R` that of the runtime value.
///
/// It asks for a runtime value, the allocator, a realm where its tasks lie, and a limit of accepted futures that aren't dropped yet.
/// A spawn beyond that is `Full`, and one without memory for its task `NoMemory`; both give the future back. `new` takes all places
/// of the queues and the table. `spawn`, `tick` and `run` take memory too.
///
/// In `hello` of `examples` the future gives 42, and `complete` of `workers` runs the executor until its task is over:
///
/// ```
/// let (alloc, realm) = (rt.alloc(), Realm::leak(rt, rt.alloc())?);
/// let executor = Executor::new(rt, alloc, realm, 1)?;
/// let task = executor.spawn(Hello)?;
/// let answer = complete(&rt, alloc, &executor, task)?;
/// assert!(rt; answer == 42);
/// ```
pub struct Executor<F: Drop, T: Output, W: OutsideWaker, R: Runtime> {
    pub(crate) body: Body<F, T, W, R>,
    /// Empty room for the wakers that the executor's drop takes out of the table.
    pub(crate) leaving: VecDeque<Returning<StoredWaker>>,
}

impl<F, T: Output, W: OutsideWaker, R: Runtime> Executor<F, T, W, R>
where
    F: Future<ExWaker<T, W, R>, Output = T> + Drop,
{
    /// Whether each future that was accepted is dropped. It takes no memory.
    pub fn is_empty(&self) -> bool {
        let steps = begun(Asked::IsEmpty);
        let (has_none, _last) = self.body.has_none(steps, &mut Unlocked::at_entry());
        has_none
    }

    /// Hands the executor a plain future. Its task is queued, and the handle is answered: a future with the output, whose drop
    /// cancels the task. Refused, the future comes back: with `Full` where as many accepted futures as the limit are not dropped
    /// yet, else with `NoMemory` for want of memory for the task.
    pub fn spawn(&self, future: F) -> Result<ExTask<T, W, R>, SpawnError<F>>
        ensures future { IfErr result (λ error. refused error ≡ future) }
        ensures here { IfOk result (λ task. task.identity.realm ≡ self.now.body.realm.now.number) }
        ensures plain { IfOk result (λ task. task.metadata ≡ Mark.Plain) }
    {
        self.spawn_marked(future, Mark::Plain)
    }

    /// As `spawn`, with this mark. An urgent future's task goes into the urgent queue, which seven of eight searches look at
    /// before the other. A tick and `try_tick` search for each task. A run searches only once its own queue of 512 is empty:
    /// until then an urgent task waits, too. So mark little, and tick on one thread where it can't wait.
    pub fn spawn_marked(&self, future: F, mark: Mark) -> Result<ExTask<T, W, R>, SpawnError<F>>
        ensures future { IfErr result (λ error. refused error ≡ future) }
        ensures here { IfOk result (λ task. task.identity.realm ≡ self.now.body.realm.now.number) }
        ensures marked { IfOk result (λ task. task.metadata ≡ mark) }
    {
        let steps = begun(Asked::Spawn(mark));
        let (spawned, _last) = self
            .body
            .hand_in(future, mark, steps, &mut Unlocked::at_entry());
        spawned
    }

    /// Hands the executor one plain future after the other, until the iterator ends or a future is refused. It answers the handles
    /// of the accepted futures, in order, and the refused future with the cause; the rest stays in the iterator. The room for a
    /// handle is taken before its future is spawned.
    pub fn spawn_many<I: Iterator<Item = F>>(
        &self,
        futures: &mut I,
    ) -> (Handles<T, W, R>, Result<(), SpawnError<F>>)
        requires { I.can_next futures.old × IsFinite (I.remaining futures.old) }
        ensures taken { SpawnsMany I.next_gives futures.old futures.new (length result.0.tasks) result.1 }
        ensures here { result.0.realm ≡ self.now.body.realm.now.number }
    {
        let mut handles = Handles::new(self.body.rt, self.body.alloc, self.body.realm);
        for _ in self.body.rt.forever() {
            let Some(future) = futures.next() else {
                return (handles, Ok(()));
            };
            if handles.reserve().is_err() {
                return (handles, Err(SpawnError::NoMemory(future)));
            }
            match self.spawn(future) {
                Ok(task) => handles.push_back(task),
                Err(refused) => return (handles, Err(refused)),
            }
        }
        unreachable!()
    }

    /// Runs one task, where one is queued, and answers whether it did. It doesn't wait for one, and takes no memory.
    pub fn try_tick(&self) -> bool {
        let steps = begun(Asked::TryTick);
        let (is_run, _last) = self.body.run_one(steps, &mut Unlocked::at_entry());
        is_run
    }

    /// Makes a future that waits for a future of the executor which has to be polled, and polls it once.
    pub fn tick(&self) -> Result<Tick<'_, F, T, W, R>, NoMemory>
        ensures { IfOk result (λ tick. has_left tick.ticker ≡ false) }
    {
        let steps = begun(Asked::NewTick);
        let (made, _last) = self.body.make_tick(steps, &mut Unlocked::at_entry());
        made
    }

    /// Makes a future that runs the executor's futures until this one is ready, and then has its output. For want of memory the
    /// future comes back.
    pub fn run<G>(&self, future: G) -> Result<Run<'_, F, T, W, R, G>, G>
    where
        G: Future<ExWaker<T, W, R>> + Drop,
        ensures back { IfErr result (λ back. back ≡ future) }
        ensures future { IfOk result (λ run. value_of run.future ≡ Some future) }
        ensures words { IfOk result (λ run. run.runner.words ≡ seeded 0) }
        ensures new { IfOk result (λ run. IsNew run.runner run.ticker run.counts) }
    {
        let steps = begun(Asked::NewRun);
        let (made, _last) = self
            .body
            .make_run(future, 0, steps, &mut Unlocked::at_entry());
        made
    }

    /// As `run`, with another seed for the places at which it begins to look for tasks of other runs.
    pub fn run_from<G>(&self, future: G, seed: u64) -> Result<Run<'_, F, T, W, R, G>, G>
    where
        G: Future<ExWaker<T, W, R>> + Drop,
        ensures back { IfErr result (λ back. back ≡ future) }
        ensures future { IfOk result (λ run. value_of run.future ≡ Some future) }
        ensures words { IfOk result (λ run. run.runner.words ≡ seeded seed) }
        ensures new { IfOk result (λ run. IsNew run.runner run.ticker run.counts) }
    {
        let steps = begun(Asked::NewRun);
        let (made, _last) = self
            .body
            .make_run(future, seed, steps, &mut Unlocked::at_entry());
        made
    }

    /// Makes it a static executor, whose futures nobody has to drop. Each future that was accepted is queued to be polled once
    /// more, in the order of acceptance. It takes no memory.
    pub fn leak(self) -> StaticExecutor<F, T, W, R>
        ensures kind { result.body.is_static ≡ true }
        ensures here { result.body.realm.now.number ≡ self.body.realm.now.number }
    {
        let Executor { body, leaving } = self;
        drop(leaving);
        let steps = begun(Asked::Leak);
        let (body, _last) = executor::leak(body, steps, &mut Unlocked::at_entry());
        StaticExecutor { body }
    }
}

impl<F: Drop, T: Output, W: OutsideWaker, R: Runtime> Drop for Executor<F, T, W, R> {
    /// Drops each future, in the order of acceptance, calls each waker, in that order, and closes each task that is left. It
    /// takes no memory.
    fn drop(self) {
        let Executor { body, leaving } = self;
        let steps = begun(Asked::DropExecutor);
        let leaving = Leaving::of(leaving);
        let _last = executor::end(body, leaving, steps, &mut Unlocked::at_entry());
    }
}

/// It shows how many futures have a waker in the table, and how many ticks and runs sleep. It shows how many tasks stand in the
/// two global queues, and in each run's own. It has `<locked>` for what stands under a lock that isn't free.
impl<F: Drop, T: Output, W: OutsideWaker, R: Runtime> fmt::Debug for Executor<F, T, W, R> {
    fn fmt<O: fmt::Write>(&self, f: &mut fmt::Formatter<O>) -> fmt::Result {
        self.body.show("Executor", f, &mut Unlocked::at_entry())
    }
}

impl<R: Wait> LocalRunners<'_, R> {
    /// The length of the queue at this place of the list. The writer of the text, who may be a user's, asks for it.
    pub(crate) fn length_at(&self, at: usize) -> Option<Option<usize>> {
        self.length_in(at, &mut Unlocked::at_entry())
    }
}

/// Waits for a future that has to be polled, and polls it once: a future with output `Ok(())`. After it was ready it serves as a
/// new one. Where it had been notified, its drop notifies another tick or run.
///
/// It is made by `Executor::tick` or `StaticExecutor::tick`.
#[must_use]
pub struct Tick<'a, F: Drop, T: Output, W: OutsideWaker, R: Runtime> {
    pub(crate) executor: &'a Body<F, T, W, R>,
    pub(crate) ticker: Ticker,
    /// What its last poll answered.
    pub(crate) answered: Answered,
}

impl<F, T: Output, W: OutsideWaker, R: Runtime> Future<ExWaker<T, W, R>> for Tick<'_, F, T, W, R>
where
    F: Future<ExWaker<T, W, R>, Output = T> + Drop,
{
    type Output = Result<(), NoMemory>;

    /// Runs a task, and is ready, or falls asleep and is pending.
    fn poll(&mut self, waker: &ExWaker<T, W, R>) -> Poll<Result<(), NoMemory>>
        ensures answer { IsTickAnswer self.old.answered self.new.answered result }
        ensures stays { has_left self.new.ticker ≡ has_left self.old.ticker }
    {
        let steps = begun(Asked::PollTick(Sleeping {
            waker: name_given_to(waker),
            who: TickOrRun::Tick(()),
        }));
        self.look(waker, steps, &mut Unlocked::at_entry())
    }
}

impl<F: Drop, T: Output, W: OutsideWaker, R: Runtime> Drop for Tick<'_, F, T, W, R> {
    /// Leaves the sleepers, and gives its room there back.
    fn drop(self) {
        let Tick {
            executor,
            ticker,
            answered: _,
        } = self;
        let steps = begun(Asked::DropTick(()));
        let _last = tick::end(executor, ticker, steps, &mut Unlocked::at_entry());
    }
}

/// Runs the executor's futures until a future of its own is ready: a future with that one's output. Its drop gives the tasks in
/// its own queue back to the executor.
///
/// It is made by `Executor::run` or `StaticExecutor::run`.
#[must_use]
pub struct Run<'a, F: Drop, T: Output, W: OutsideWaker, R: Runtime, G: Drop> {
    pub(crate) executor: &'a Body<F, T, W, R>,
    /// The future that it runs for, until that future is ready.
    pub(crate) future: Option<Foreign<G>>,
    pub(crate) runner: Runner,
    pub(crate) ticker: Ticker,
    /// What its last poll answered.
    pub(crate) answered: Answered,
    /// How many tasks it has taken.
    pub(crate) counts: Counts,
}

impl<F, T: Output, W: OutsideWaker, R: Runtime, G> Future<ExWaker<T, W, R>>
    for Run<'_, F, T, W, R, G>
where
    F: Future<ExWaker<T, W, R>, Output = T> + Drop,
    G: Future<ExWaker<T, W, R>> + Drop,
{
    type Output = Result<G::Output, RunError>;

    /// Polls its future, and is ready where that future is. Else it runs tasks, until it finds none or has run 200 since it last
    /// let others go first.
    fn poll(&mut self, waker: &ExWaker<T, W, R>) -> Poll<Result<G::Output, RunError>>
        ensures answer { IsRunAnswer self.old.future self.new.future self.old.answered self.new.answered result }
        ensures left { HasLeft self.new.runner.is_drained (has_left self.new.ticker) result }
        ensures counted { GoesOn self.old.counts self.new.counts self.old.answered self.new.answered }
    {
        let poll = RunPoll {
            run: (),
            waker: name_given_to(waker),
        };
        let steps = begun(Asked::PollRun(poll, self.stage()));
        self.go_on(waker, steps, &mut Unlocked::at_entry())
    }
}

impl<F: Drop, T: Output, W: OutsideWaker, R: Runtime, G: Drop> Drop for Run<'_, F, T, W, R, G> {
    /// Drops its future, schedules what is left in its own queue, and leaves the sleepers. A run that was never polled only
    /// drops its future and gives its room back.
    fn drop(self) {
        let Run {
            executor,
            future,
            runner,
            ticker,
            answered: _,
            counts: _,
        } = self;
        let steps = begun(Asked::DropRun((), runner.stage()));
        let unlocked = &mut Unlocked::at_entry();
        let _last = run::end(executor, future, runner, ticker, steps, unlocked);
    }
}

impl<T: Output, W: OutsideWaker, R: Runtime> Schedule<ExScheduled<T, W, R>> for ExQueue<T, W, R> {
    /// Appends the Runnable to the executor's queue of its mark, and notifies a tick or run that sleeps. Once the executor's drop
    /// has begun the Runnable is dropped instead.
    #[inline(always)]
    fn schedule(&self, runnable: ExScheduled<T, W, R>, _info: ScheduleInfo) {
        self.queue(runnable, &mut Unlocked::at_entry());
    }
}
