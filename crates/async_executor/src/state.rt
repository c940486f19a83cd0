//! The state that the threads of an executor share, except its futures: the two queues, the flag and the sleepers. And how a
//! sleeper is notified.
ghost use Rattle.std.specs.Prelude.{◌≡◌, ◌<◌, ◌∷◌, [], Some, None, IfOk, IfSome};
ghost use Rattle.call_steps.specs.Seeing.{due};
ghost use Rattle.call_steps.specs.Todo.{below, top};
ghost use Rattle.call_steps.specs.declared.reply.Reply.TheVariants as reply;
ghost use Rattle.call_steps.specs.declared.step.CallStep.TheVariants as step;
ghost use Rattle.call_steps.specs.declared.step.table.ClosingStep.TheVariants as closing_step;
ghost use Rattle.call_steps.specs.declared.step.table.QueueStep.TheVariants as queue_step;
ghost use Rattle.call_steps.specs.declared.step.tick.SleeperStep.TheVariants as sleeper_step;
ghost use Rattle.executor_parts.specs.Sleepers.{flag_of};
ghost use Rattle.executor_parts.specs.declared.mark.Mark.TheVariants as mark;
ghost use Rattle.async_executor.specs.Sleeping.{laid_as, SaysFellAsleep};
ghost use Rattle.async_executor.specs.Steps.{of_handed};

use crate::deeds::Steps;
use crate::deeds::queues::{Queue, Queues};
use crate::due::Handed;
use crate::entry::Unlocked;
use crate::flag::Flag;
use crate::foreign::Foreign;
use crate::locks::{Guarded, ReadWrite};
use crate::marked::Marked;
use crate::names::{ExRealm, ExScheduled, ExStoredRunnable};
use crate::own_queues::OwnQueues;
use crate::sleeping::SleeperWaker;
use crate::task_name::TaskName;
use crate::ticker::{FellAsleep, Laid, WokenUp};
use crate::turns::Turns;
use async_task::{GoesBack, NoMemory, Output, OutsideWaker, Runtime, Wake};
use call_steps::TickOrRun;
use executor_parts::{Mark, Sleepers};
use std::alloc::Global;
use std::sync::{Arc, Wait};

/// How many Runnables a run's own queue has places for.
pub const OWN_PLACES: usize = 512;

/// The queues, and who sleeps.
pub struct State<W> {
    /// The global queues, each with a place for each future that the executor accepts.
    pub queues: Queues,
    /// At which of them a search looks first.
    pub turns: Turns,
    /// The own queues of runs, from a run's first poll to its end.
    pub own_queues: ReadWrite<OwnQueues<Arc<Queue, Global>>>,
    /// Whether a tick or run that sleeps has been notified, or none sleeps.
    pub notified: Flag,
    /// The ticks and runs that sleep.
    pub sleepers: Guarded<Sleepers<SleeperWaker<W>>>,
}

/// Written out: it is proved once, for all in this crate that let one go.
impl<W: Drop> Drop for State<W> {
    fn drop(self) {
        let State {
            queues: _queues,
            turns: _turns,
            own_queues: _own_queues,
            notified: _notified,
            sleepers: _sleepers,
        } = self;
    }
}

impl<W: Drop> State<W> {
    /// Makes queues with this many places each, where nobody sleeps.
    pub fn new(alloc: Global, limit: usize) -> Result<State<W>, NoMemory>
        requires { 0 < limit }
        ensures urgent { IfOk result (λ state. state.queues.urgent.capacity ≡ Some limit) }
        ensures plain { IfOk result (λ state. state.queues.plain.capacity ≡ Some limit) }
    {
        match Queues::new(alloc, limit) {
            Ok(queues) => Ok(State {
                queues,
                turns: Turns::new(),
                own_queues: ReadWrite::new(OwnQueues::new(alloc)),
                notified: Flag::new(),
                sleepers: Guarded::new(Sleepers::new(alloc)),
            }),
            Err(_) => Err(NoMemory),
        }
    }

    /// An executor's drop closes the urgent queue, and then the plain one.
    pub fn close<R: Wait>(&self, rt: &R, steps: &mut Steps)
        requires { steps.old ≡ step.Closing (closing_step.Close mark.Urgent) ∷ step.End reply.Done ∷ [] }
        ensures { steps.new ≡ step.Closing (closing_step.Drain mark.Urgent) ∷ step.End reply.Done ∷ [] }
    {
        steps.close_queue(&self.queues, Mark::Urgent, rt);
        steps.close_queue(&self.queues, Mark::Plain, rt);
    }

    /// Stores what the flag becomes where one fell asleep, as the list of sleepers says, which is lent while their lock is held.
    pub fn store_fell_asleep(
        &self,
        sleepers: &Sleepers<SleeperWaker<W>>,
        fell_asleep: FellAsleep<W>,
    ) -> Laid<W>
        requires { SaysFellAsleep sleepers.now fell_asleep }
        ensures { result ≡ laid_as fell_asleep }
    {
        match fell_asleep {
            FellAsleep::Anew(flag) => {
                self.notified.store(sleepers, flag);
                Laid::Anew
            }
            FellAsleep::Already(old) => Laid::Already(old),
            FellAsleep::Nowhere(waker) => Laid::Nowhere(waker),
        }
    }

    /// Stores what the flag becomes where one woke up or left. The waker that it had is the answer.
    pub fn store_woken_up(
        &self,
        sleepers: &Sleepers<SleeperWaker<W>>,
        woken_up: WokenUp<W>,
    ) -> Option<Foreign<SleeperWaker<W>>>
        requires { woken_up.notified ≡ flag_of sleepers.now }
        ensures { result ≡ woken_up.waker }
    {
        let WokenUp { notified, waker } = woken_up;
        self.notified.store(sleepers, notified);
        waker
    }
}

/// A Runnable, of its place. Where that is of another realm it goes back there.
#[inline(always)]
pub fn redeem<T: Output, W: OutsideWaker, R: Runtime>(
    rt: R,
    realm: &'static ExRealm<T, W, R>,
    runnable: ExStoredRunnable,
) -> Option<ExScheduled<T, W, R>>
    ensures { IfSome result (λ found. found.identity ≡ runnable.identity) }
{
    match runnable.redeem(rt, realm) {
        Ok(found) => Some(found),
        Err(runnable) => {
            runnable.go_back();
            None
        }
    }
}

impl<W: OutsideWaker> State<W> {
    /// Puts a Runnable into the executor's queue of its mark, and notifies a sleeper. The answer is a task that has to be queued
    /// then, if there is one. A Runnable that comes back from a closed queue is dropped.
    pub fn push<T: Output, R: Runtime>(
        &self,
        rt: R,
        realm: &'static ExRealm<T, W, R>,
        steps: &mut Steps,
        runnable: Marked,
        unlocked: &mut Unlocked,
    ) -> Option<Handed<T, W, R>>
        requires { top steps.old ≡ Some (step.Queue (queue_step.Append runnable.stored.identity)) }
        ensures { steps.new ≡ due (of_handed result) (below steps.old) }
    {
        match steps.append(&self.queues, runnable, &rt) {
            Ok(()) => self.notify(rt, realm, steps, unlocked),
            Err(back) => steps.close_runnable(back, rt, realm, unlocked),
        }
    }

    /// Puts a Runnable that rested in a run's own queue into the executor's queue, and notifies a sleeper, with all that this
    /// leads to. A Runnable of another realm goes back there.
    pub fn push_stored<T: Output, R: Runtime>(
        &self,
        rt: R,
        realm: &'static ExRealm<T, W, R>,
        stored: ExStoredRunnable,
        steps: &mut Steps,
        unlocked: &mut Unlocked,
    )
        requires { top steps.old ≡ Some (step.Queue (queue_step.Append stored.identity)) }
        ensures { steps.new ≡ below steps.old }
    {
        let name = TaskName::of_runnable(&stored);
        match redeem(rt, realm, stored) {
            Some(runnable) => {
                let marked = Marked::of(runnable);
                self.push_and_pay(rt, realm, steps, marked, unlocked);
            }
            None => steps.append_elsewhere(&name),
        }
    }

    /// Notifies a sleeper that there is something to do, unless one has been notified already, and calls its waker once the lock
    /// is released. The answer is a task that has to be queued then, if there is one.
    ///
    /// 1. Exchanges the flag from false to true. Where it was true, that is all.
    /// 2. Takes, under the sleepers' lock, the waker added last, if there are as many wakers as sleepers.
    fn notify<T: Output, R: Runtime>(
        &self,
        rt: R,
        realm: &'static ExRealm<T, W, R>,
        steps: &mut Steps,
        unlocked: &mut Unlocked,
    ) -> Option<Handed<T, W, R>>
        requires { top steps.old ≡ Some (step.Sleeper sleeper_step.ExchangeFlag) }
        ensures { steps.new ≡ due (of_handed result) (below steps.old) }
    {
        if !steps.exchange(&self.notified) {
            return None;
        }
        match steps.hand_out(self, &rt, unlocked) {
            Some(waker) => waker.wake(rt, realm, &TickOrRun::Tick(()), steps, unlocked),
            None => None,
        }
    }
}
