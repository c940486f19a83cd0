//! How a run is polled, and ends.
ghost use Rattle.std.specs.Prelude.{◌≡◌, ◌+◌, ◌==◌, ◌∷◌, [], true, false, is_some};
ghost use Rattle.async_executor.specs.Counted.{one_more, searcher};
ghost use Rattle.async_executor.specs.Counting.{GoesOn};
ghost use Rattle.async_executor.specs.Polls.{has_left, EndsWith, GoesOnOrWants, HasLeft, IsRunAnswer, replied_by_run};
ghost use Rattle.async_executor.specs.Runs.{counts, ends_ready, has_ended, poll_with, ran, runs, searched_by_run};
ghost use Rattle.async_executor.specs.Runs.{stage_by, stage_polled, tells};
ghost use Rattle.async_executor.specs.Sleeping.{is_asleep, SleepsBy};
ghost use Rattle.async_executor.specs.Sought.{sought};
ghost use Rattle.async_executor.specs.Steps.{name_given, of_stored};
ghost use Rattle.async_executor.specs.Ticks.{sleeping, slept};
ghost use Rattle.call_steps.specs.Begins.{drop_run, poll_run};
ghost use Rattle.call_steps.specs.Sleeping.{found_by_run};
ghost use Rattle.call_steps.specs.declared.names.TickOrRun.TheVariants as tick_or_run;
ghost use Rattle.call_steps.specs.declared.reply.Reply.TheVariants as reply;
ghost use Rattle.call_steps.specs.declared.step.CallStep.TheVariants as step;
ghost use Rattle.call_steps.specs.declared.step.tick.TickStep.TheVariants as tick_step;
ghost use Rattle.call_steps.specs.declared.step.user.UserStep.TheVariants as user_step;

use crate::body::Body;
use crate::counts::GivesWay;
use crate::deeds::Steps;
use crate::entry::{Run, Unlocked};
use crate::errors::RunError;
use crate::foreign::Foreign;
use crate::names::{ExStoredRunnable, ExWaker};
use crate::runner::{Runner, Search};
use crate::task_name::{TaskName, name_given_to};
use crate::ticker::{Slept, Ticker};
use async_task::{Future, Output, OutsideWaker, Poll, Runtime};
use call_steps::{Last, Reply, Searcher, Stage, TickOrRun, Waker};
use std::mem;

/// What a run has found.
pub enum Sought {
    /// A Runnable.
    Found(ExStoredRunnable),
    /// Nothing: it sleeps, and its waker will be called, or was called at once where it can't be kept.
    Nothing,
    /// No copy of the waker could be had. What was done before stays done.
    NoMemory,
}

impl<F: Drop, T: Output, W: OutsideWaker, R: Runtime, G: Drop> Run<'_, F, T, W, R, G> {
    /// At which stage it is polled.
    pub(crate) fn stage(&self) -> Stage
        ensures { result ≡ stage_polled self.now.future self.now.runner.is_listed }
    {
        match &self.future {
            None => Stage::Ended,
            Some(_) => self.runner.stage_listed(),
        }
    }
}

impl<F, T: Output, W: OutsideWaker, R: Runtime, G> Run<'_, F, T, W, R, G>
where
    F: Future<ExWaker<T, W, R>, Output = T> + Drop,
    G: Future<ExWaker<T, W, R>> + Drop,
{
    /// Polls its future, and then runs tasks.
    ///
    /// 1. At the first poll, puts its own queue into the executor's list.
    /// 2. Polls its future. Where that is ready, the run leaves the executor, and is ready.
    /// 3. Takes tasks and runs each. Where there is none to take, it falls asleep and is pending.
    /// 4. After 200 tasks it wakes its own waker and is pending. A count that was interrupted goes on in the next poll.
    pub(crate) fn go_on(
        &mut self,
        waker: &ExWaker<T, W, R>,
        steps: Steps,
        unlocked: &mut Unlocked,
    ) -> Poll<Result<G::Output, RunError>>
        requires { steps ≡ poll_run (stage_polled self.old.future self.old.runner.is_listed) (poll_with (name_given waker.now)) }
        ensures answer { IsRunAnswer self.old.future self.new.future self.old.answered self.new.answered result }
        ensures left { HasLeft self.new.runner.is_drained (has_left self.new.ticker) result }
        ensures counted { GoesOn self.old.counts self.new.counts self.old.answered self.new.answered }
    {
        let Some(future) = &mut self.future else {
            self.answered
                .end(Reply::Finished, steps.end(Reply::Finished));
            return Poll::Ready(Err(RunError::Finished));
        };
        let executor = self.executor;
        let name = name_given_to(waker);
        let mut steps = steps;
        if !self
            .runner
            .begin(executor.rt, &executor.state, &name, &mut steps, unlocked)
        {
            self.answered
                .end(Reply::NoMemory, steps.end(Reply::NoMemory));
            return Poll::Ready(Err(RunError::NoMemory));
        }
        match steps.poll_own(future, waker, &name, unlocked) {
            Poll::Ready(output) => {
                self.leave(steps, unlocked);
                Poll::Ready(Ok(output))
            }
            Poll::Pending => self.take_tasks(waker, &name, steps, unlocked),
        }
    }

    /// Its own future was ready: the run drops it, and leaves the executor.
    fn leave(&mut self, steps: Steps, unlocked: &mut Unlocked)
        requires { steps ≡ ends_ready }
        ensures drained { self.new.runner.is_drained ≡ true }
        ensures left { has_left self.new.ticker ≡ true }
        ensures future { self.new.future ≡ None }
        ensures answered { EndsWith reply.Ready self.old.answered self.new.answered }
        ensures counts { self.new.counts ≡ self.old.counts }
    {
        let executor = self.executor;
        let mut steps = steps;
        steps.drop_own(mem::replace(&mut self.future, None), unlocked);
        let (rt, state) = (&executor.rt, &executor.state);
        steps.unregister(&mut self.runner, state, Reply::Ready, rt, unlocked);
        self.runner.reschedule(
            executor.rt,
            &executor.state,
            executor.realm,
            Reply::Ready,
            &mut steps,
            unlocked,
        );
        mem::replace(&mut self.ticker, Ticker::Left).leave(
            executor.rt,
            &executor.state,
            executor.realm,
            &TickOrRun::Run(()),
            &mut steps,
            unlocked,
        );
        self.answered.end(Reply::Ready, steps.end(Reply::Ready));
    }

    /// Takes tasks and runs each, one at least where one is found.
    fn take_tasks(
        &mut self,
        waker: &ExWaker<T, W, R>,
        name: &Waker<TaskName>,
        steps: Steps,
        unlocked: &mut Unlocked,
    ) -> Poll<Result<G::Output, RunError>>
        requires named { name.now ≡ name_given waker.now }
        requires searches { steps ≡ step.Tick (tick_step.Search (sleeping (tick_or_run.Run tt) name.now)) ∷ [] }
        ensures answer { EndsWith (replied_by_run result) self.old.answered self.new.answered }
        ensures goes_on { GoesOnOrWants result }
        ensures future { self.new.future ≡ self.old.future }
        ensures counted { GoesOn self.old.counts self.new.counts self.old.answered self.new.answered }
    {
        let mut steps = steps;
        for _ in self.executor.rt.forever() {
            match self.find(waker, name, &mut steps, unlocked) {
                Sought::Found(runnable) => {
                    if let Some(gives) = self.run_task(runnable, name, &mut steps, unlocked) {
                        let last = give_way(waker, name, steps, unlocked);
                        self.answered.end_giving_way(gives, last);
                        return Poll::Pending;
                    }
                }
                Sought::Nothing => {
                    self.answered.end(Reply::Pending, steps.end(Reply::Pending));
                    return Poll::Pending;
                }
                Sought::NoMemory => {
                    self.answered
                        .end(Reply::NoMemory, steps.end(Reply::NoMemory));
                    return Poll::Ready(Err(RunError::NoMemory));
                }
            }
        }
        unreachable!()
    }

    /// Searches until a task is found, or the run falls asleep.
    fn find(
        &mut self,
        waker: &ExWaker<T, W, R>,
        name: &Waker<TaskName>,
        steps: &mut Steps,
        unlocked: &mut Unlocked,
    ) -> Sought
        requires named { name.now ≡ name_given waker.now }
        requires searches { steps.old ≡ step.Tick (tick_step.Search (sleeping (tick_or_run.Run tt) name.now)) ∷ [] }
        ensures steps { steps.new ≡ sought (is_asleep self.new.ticker) self.new.counts name.now result }
        ensures future { self.new.future ≡ self.old.future }
        ensures answered { self.new.answered ≡ self.old.answered }
        ensures counts { self.new.counts ≡ self.old.counts }
    {
        let rt = self.executor.rt;
        for _ in rt.forever() {
            if let Some(stored) = self.search(name, steps, unlocked) {
                return Sought::Found(stored);
            }
            match self.sleep(waker, name, steps, unlocked) {
                Slept::Anew => {}
                Slept::Still | Slept::Called => return Sought::Nothing,
                Slept::NoMemory => return Sought::NoMemory,
            }
        }
        unreachable!()
    }

    /// Searches once.
    #[inline(always)]
    fn search(
        &mut self,
        name: &Waker<TaskName>,
        steps: &mut Steps,
        unlocked: &mut Unlocked,
    ) -> Option<ExStoredRunnable>
        requires { steps.old ≡ step.Tick (tick_step.Search (sleeping (tick_or_run.Run tt) name.now)) ∷ [] }
        ensures steps { steps.new ≡ searched_by_run (searcher (is_asleep self.new.ticker) self.new.counts) name.now (of_stored result) }
        ensures future { self.new.future ≡ self.old.future }
        ensures answered { self.new.answered ≡ self.old.answered }
        ensures counts { self.new.counts ≡ self.old.counts }
    {
        let executor = self.executor;
        let search = Search {
            name,
            at: self.counts.at(self.ticker.sleeps()),
        };
        self.runner.search(
            executor.rt,
            &executor.state,
            executor.realm,
            &search,
            steps,
            unlocked,
        )
    }

    /// Falls asleep, as nothing was found.
    fn sleep(
        &mut self,
        waker: &ExWaker<T, W, R>,
        name: &Waker<TaskName>,
        steps: &mut Steps,
        unlocked: &mut Unlocked,
    ) -> Slept
        requires named { name.now ≡ name_given waker.now }
        requires copies { steps.old ≡ step.Tick (tick_step.CopyWaker (sleeping (tick_or_run.Run tt) name.now)) ∷ [] }
        ensures steps { steps.new ≡ slept (tick_or_run.Run tt) name.now result }
        ensures asleep { SleepsBy name.now self.new.ticker result }
        ensures future { self.new.future ≡ self.old.future }
        ensures answered { self.new.answered ≡ self.old.answered }
        ensures counts { self.new.counts ≡ self.old.counts }
    {
        let executor = self.executor;
        self.ticker.sleep(
            executor.rt,
            &executor.state,
            executor.realm,
            waker,
            name,
            &TickOrRun::Run(()),
            steps,
            unlocked,
        )
    }

    /// Wakes up, where it sleeps, notifies another sleeper, counts the task that was found, and runs it. At each 64th it first
    /// steals from the executor's queues. After the 200th it lets others go first, and the answer says so.
    fn run_task(
        &mut self,
        runnable: ExStoredRunnable,
        name: &Waker<TaskName>,
        steps: &mut Steps,
        unlocked: &mut Unlocked,
    ) -> Option<GivesWay>
        requires { steps.old ≡ found_by_run (searcher (is_asleep self.old.ticker) self.old.counts) (poll_with name.now) runnable.identity }
        ensures steps { steps.new ≡ ran (is_some result) name.now }
        ensures counts { self.new.counts ≡ one_more self.old.counts }
        ensures full { is_some result ≡ (self.old.counts.taken + 1 == 200) }
        ensures future { self.new.future ≡ self.old.future }
        ensures answered { self.new.answered ≡ self.old.answered }
    {
        let executor = self.executor;
        let at = self.counts.at(self.ticker.sleeps());
        self.wake_up(&runnable, at, name, steps, unlocked);
        executor
            .state
            .notify_and_pay(executor.rt, executor.realm, steps, unlocked);
        self.count(&runnable, at, name, steps, unlocked);
        self.run_counted(runnable, at, name, steps, unlocked)
    }

    /// Wakes up, where it sleeps, as it found this Runnable.
    #[inline(always)]
    fn wake_up(
        &mut self,
        found: &ExStoredRunnable,
        at: Searcher,
        name: &Waker<TaskName>,
        steps: &mut Steps,
        unlocked: &mut Unlocked,
    )
        requires sleeps { at.sleeps ≡ is_asleep self.old.ticker }
        requires found { steps.old ≡ found_by_run at (poll_with name.now) found.now.identity }
        ensures steps { steps.new ≡ tells at name.now found.now.identity }
        ensures awake { is_asleep self.new.ticker ≡ false }
        ensures future { self.new.future ≡ self.old.future }
        ensures answered { self.new.answered ≡ self.old.answered }
        ensures counts { self.new.counts ≡ self.old.counts }
    {
        let (_, _) = (found, name);
        let executor = self.executor;
        if at.sleeps {
            self.ticker.wake_up(
                executor.rt,
                &executor.state,
                executor.realm,
                &TickOrRun::Run(()),
                steps,
                unlocked,
            );
        }
    }

    /// Counts the task that was found. At each 64th it steals from the executor's queues.
    #[inline(always)]
    fn count(
        &mut self,
        found: &ExStoredRunnable,
        at: Searcher,
        name: &Waker<TaskName>,
        steps: &mut Steps,
        unlocked: &mut Unlocked,
    )
        requires counted { at.counted ≡ self.old.counts.counted }
        requires counts { steps.old ≡ counts at name.now found.now.identity }
        ensures steps { steps.new ≡ runs at name.now found.now.identity }
        ensures counted { self.new.counts ≡ record (one_more self.old.counts) { taken = self.old.counts.taken } }
        ensures future { self.new.future ≡ self.old.future }
        ensures answered { self.new.answered ≡ self.old.answered }
    {
        let executor = self.executor;
        if let Some(owed) = self.counts.count() {
            self.runner.pay(
                executor.rt,
                &executor.state,
                executor.realm,
                owed,
                &Search { name, at },
                found,
                steps,
                unlocked,
            );
        }
    }

    /// Runs the task that was counted. After the 200th it lets others go first, and the answer says so.
    #[tactic(auto, using(crate::proofs::Taking::takes_up))]
    #[inline(always)]
    fn run_counted(
        &mut self,
        runnable: ExStoredRunnable,
        at: Searcher,
        name: &Waker<TaskName>,
        steps: &mut Steps,
        unlocked: &mut Unlocked,
    ) -> Option<GivesWay>
        requires taken { at.taken ≡ self.old.counts.taken }
        requires runs { steps.old ≡ runs at name.now runnable.identity }
        ensures steps { steps.new ≡ ran (is_some result) name.now }
        ensures counted { self.new.counts ≡ record (one_more self.old.counts) { counted = self.old.counts.counted } }
        ensures full { is_some result ≡ (self.old.counts.taken + 1 == 200) }
        ensures future { self.new.future ≡ self.old.future }
        ensures answered { self.new.answered ≡ self.old.answered }
    {
        let (_, _) = (at, name);
        self.executor.poll_or_drop(runnable, steps, unlocked);
        self.counts.take()
    }
}

/// A run that has taken 200 tasks calls the waker of this name, with which it was polled, and lets others go first.
#[tactic(auto, using(crate::proofs::Calling::own_is_kept, crate::proofs::Calling::own_was_called))]
fn give_way<T: Output, W: OutsideWaker, R: Runtime>(
    waker: &ExWaker<T, W, R>,
    name: &Waker<TaskName>,
    steps: Steps,
    unlocked: &Unlocked,
) -> Last
    requires named { name.now ≡ name_given waker.now }
    requires gives { steps ≡ ran true name.now }
    ensures { result ≡ reply.Pending }
{
    let mut steps = steps;
    steps.call_kept(waker, name, unlocked);
    steps.end(Reply::Pending)
}

/// Ends a run.
///
/// 1. Drops its future.
/// 2. Takes its own queue out of the executor's list, gives its room there back, and schedules each Runnable that is left in the
///    queue, in order.
/// 3. Leaves the sleepers, and gives its room there back.
pub fn end<F: Drop, T: Output, W: OutsideWaker, R: Runtime, G: Drop>(
    executor: &Body<F, T, W, R>,
    future: Option<Foreign<G>>,
    runner: Runner,
    ticker: Ticker,
    steps: Steps,
    unlocked: &mut Unlocked,
) -> Last
    requires { steps ≡ drop_run (stage_by (has_ended runner.room runner.is_drained) runner.is_listed) tt }
    ensures { result ≡ reply.Done }
{
    let (mut runner, mut steps) = (runner, steps);
    runner.end(
        future,
        executor.rt,
        &executor.state,
        executor.realm,
        &mut steps,
        unlocked,
    );
    runner.finish();
    ticker.leave(
        executor.rt,
        &executor.state,
        executor.realm,
        &TickOrRun::Run(()),
        &mut steps,
        unlocked,
    );
    steps.end(Reply::Done)
}
