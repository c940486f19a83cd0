//! How a tick is polled, and ends.
ghost use Rattle.std.specs.Prelude.{◌≡◌, ◌∷◌, [], false};
ghost use Rattle.async_executor.specs.Polls.{has_left, IsTickAnswer};
ghost use Rattle.async_executor.specs.Sleeping.{is_asleep, SleepsBy};
ghost use Rattle.async_executor.specs.Steps.{name_given};
ghost use Rattle.async_executor.specs.Ticks.{found_asleep, sleeping, slept};
ghost use Rattle.call_steps.specs.declared.names.TickOrRun.TheVariants as tick_or_run;
ghost use Rattle.call_steps.specs.declared.step.CallStep.TheVariants as step;
ghost use Rattle.call_steps.specs.declared.step.tick.TickStep.TheVariants as tick_step;
ghost use Rattle.call_steps.specs.declared.reply.Reply.TheVariants as reply;

use crate::body::Body;
use crate::deeds::Steps;
use crate::entry::{Tick, Unlocked};
use crate::names::{ExStoredRunnable, ExWaker};
use crate::task_name::{TaskName, name_given_to};
use crate::ticker::{Slept, Ticker};
use async_task::{Future, NoMemory, Output, OutsideWaker, Poll, Runtime};
use call_steps::{Last, Reply, TickOrRun, Waker};

impl<F, T: Output, W: OutsideWaker, R: Runtime> Tick<'_, F, T, W, R>
where
    F: Future<ExWaker<T, W, R>, Output = T> + Drop,
{
    /// Looks for a future that has to be polled.
    ///
    /// 1. Takes a Runnable from the executor's queues, where one stands there: wakes up, notifies another sleeper that there may
    /// be more, runs it, and is ready.
    /// 2. Else copies the waker, and falls asleep with the copy. Where it fell asleep anew, or had been notified meanwhile, it
    /// searches again, since what was queued before may have notified nobody. Where it slept there already, it is pending.
    pub(crate) fn look(
        &mut self,
        waker: &ExWaker<T, W, R>,
        steps: Steps,
        unlocked: &mut Unlocked,
    ) -> Poll<Result<(), NoMemory>>
        requires { steps ≡ step.Tick (tick_step.Search (sleeping (tick_or_run.Tick tt) (name_given waker.now))) ∷ [] }
        ensures answer { IsTickAnswer self.old.answered self.new.answered result }
        ensures stays { has_left self.new.ticker ≡ has_left self.old.ticker }
    {
        let executor = self.executor;
        let name = name_given_to(waker);
        let mut steps = steps;
        for _ in executor.rt.forever() {
            let sleeps = self.ticker.sleeps();
            let found = executor
                .state
                .search_as_tick(&executor.rt, &name, sleeps, &mut steps);
            if let Some(stored) = found {
                let last = self.run_found(stored, steps, unlocked);
                self.answered.end(Reply::Ready, last);
                return Poll::Ready(Ok(()));
            }
            match self.sleep(waker, &name, &mut steps, unlocked) {
                Slept::Anew => {}
                Slept::Still | Slept::Called => {
                    self.answered.end(Reply::Pending, steps.end(Reply::Pending));
                    return Poll::Pending;
                }
                Slept::NoMemory => {
                    self.answered
                        .end(Reply::NoMemory, steps.end(Reply::NoMemory));
                    return Poll::Ready(Err(NoMemory));
                }
            }
        }
        unreachable!()
    }

    /// Falls asleep, as nothing was found.
    fn sleep(
        &mut self,
        waker: &ExWaker<T, W, R>,
        name: &Waker<TaskName>,
        steps: &mut Steps,
        unlocked: &mut Unlocked,
    ) -> Slept
        requires named { name.now ≡ name_given waker.now }
        requires copies { steps.old ≡ step.Tick (tick_step.CopyWaker (sleeping (tick_or_run.Tick tt) name.now)) ∷ [] }
        ensures steps { steps.new ≡ slept (tick_or_run.Tick tt) name.now result }
        ensures asleep { SleepsBy name.now self.new.ticker result }
        ensures stays { has_left self.new.ticker ≡ has_left self.old.ticker }
        ensures answered { self.new.answered ≡ self.old.answered }
    {
        let executor = self.executor;
        self.ticker.sleep(
            executor.rt,
            &executor.state,
            executor.realm,
            waker,
            name,
            &TickOrRun::Tick(()),
            steps,
            unlocked,
        )
    }

    /// Wakes up, where it sleeps, notifies another sleeper, and runs the task that was found.
    fn run_found(&mut self, stored: ExStoredRunnable, steps: Steps, unlocked: &mut Unlocked) -> Last
        requires { steps ≡ found_asleep (is_asleep self.old.ticker) stored.identity }
        ensures last { result ≡ reply.Ready }
        ensures stays { has_left self.new.ticker ≡ has_left self.old.ticker }
        ensures answered { self.new.answered ≡ self.old.answered }
    {
        let executor = self.executor;
        let mut steps = steps;
        self.wake_up(&TaskName::of_runnable(&stored), &mut steps, unlocked);
        executor
            .state
            .notify_and_pay(executor.rt, executor.realm, &mut steps, unlocked);
        executor.poll_or_drop(stored, &mut steps, unlocked);
        steps.end(Reply::Ready)
    }

    /// Wakes up, where it sleeps, as it found a Runnable of this task.
    fn wake_up(&mut self, found: &TaskName, steps: &mut Steps, unlocked: &mut Unlocked)
        requires { steps.old ≡ found_asleep (is_asleep self.old.ticker) found.now }
        ensures steps { steps.new ≡ found_asleep false found.now }
        ensures awake { is_asleep self.new.ticker ≡ false }
        ensures stays { has_left self.new.ticker ≡ has_left self.old.ticker }
        ensures answered { self.new.answered ≡ self.old.answered }
    {
        let _ = found;
        let executor = self.executor;
        if self.ticker.sleeps() {
            self.ticker.wake_up(
                executor.rt,
                &executor.state,
                executor.realm,
                &TickOrRun::Tick(()),
                steps,
                unlocked,
            );
        }
    }
}

/// Ends a tick: it leaves the sleepers, and gives its room there back.
pub fn end<F: Drop, T: Output, W: OutsideWaker, R: Runtime>(
    executor: &Body<F, T, W, R>,
    ticker: Ticker,
    steps: Steps,
    unlocked: &mut Unlocked,
) -> Last
    requires { steps ≡ step.Tick (tick_step.Leave (tick_or_run.Tick tt)) ∷ step.End reply.Done ∷ [] }
    ensures { result ≡ reply.Done }
{
    let mut steps = steps;
    ticker.leave(
        executor.rt,
        &executor.state,
        executor.realm,
        &TickOrRun::Tick(()),
        &mut steps,
        unlocked,
    );
    steps.end(Reply::Done)
}
