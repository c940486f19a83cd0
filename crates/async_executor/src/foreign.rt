//! Values of a user's that came out from under a lock.
ghost use Rattle.std.specs.Prelude.{◌≡◌, Some};
ghost use Rattle.call_steps.specs.Seeing.{due};
ghost use Rattle.call_steps.specs.Todo.{below, top};
ghost use Rattle.call_steps.specs.declared.step.CallStep.TheVariants as step;
ghost use Rattle.call_steps.specs.declared.step.tick.SleeperStep.TheVariants as sleeper_step;
ghost use Rattle.async_executor.specs.Foreign.{value_of};
ghost use Rattle.async_executor.specs.Deeds.{gone, LetsGo};
ghost use Rattle.async_executor.specs.Steps.{name_of, of_handed, sleeper_as};

use crate::deeds::Steps;
use crate::due::{Handed, pay_next};
use crate::entry::Unlocked;
use crate::names::{ExRealm, ExWaker};
use crate::sleeping::SleeperWaker;
use crate::task_name::TaskName;
use async_task::{Future, Output, OutsideWaker, Poll, Runtime, Wake};
use call_steps::{TickOrRun, Waker};

/// A value of a user's, whose code runs only while no lock is held. It has no drop: a party that is lent an `Unlocked` drops or
/// calls it.
#[must_use]
pub struct Foreign<X> {
    value: X,
}

impl<X> Foreign<X> {
    pub fn of(value: X) -> Self
        ensures { result.value ≡ value }
    {
        Foreign { value }
    }

    /// Takes the value, to be put under a lock, where none of its code runs.
    pub fn into_stored(self) -> X
        ensures { result ≡ self.value }
    {
        let Foreign { value } = self;
        value
    }

    /// Polls the own future of a run once.
    pub fn poll<T: Output, W: OutsideWaker, R: Runtime>(
        &mut self,
        waker: &ExWaker<T, W, R>,
        unlocked: &Unlocked,
    ) -> Poll<X::Output>
    where
        X: Future<ExWaker<T, W, R>>,
    {
        let _ = unlocked;
        self.value.poll(waker)
    }

    /// Drops the value.
    pub fn let_go(self, unlocked: &Unlocked)
    where
        X: Drop,
    {
        let _ = unlocked;
        let Foreign { value } = self;
        drop(value);
    }
}

/// Wraps the value that came out, where one did.
pub fn came_out<X>(value: Option<X>) -> Option<Foreign<X>>
    ensures { value_of result ≡ value }
{
    match value {
        Some(value) => Some(Foreign::of(value)),
        None => None,
    }
}

impl<W> Foreign<SleeperWaker<W>> {
    /// Its name.
    #[inline(always)]
    pub fn name(&self) -> Waker<TaskName>
        ensures { result ≡ name_of self.now.value }
    {
        self.value.name()
    }
}

impl<W: OutsideWaker> Foreign<SleeperWaker<W>> {
    /// Calls the waker. The answer is a task that has to be queued then, if there is one.
    pub fn wake<T: Output, R: Runtime>(
        self,
        rt: R,
        realm: &'static ExRealm<T, W, R>,
        who: &TickOrRun<()>,
        steps: &mut Steps,
        unlocked: &Unlocked,
    ) -> Option<Handed<T, W, R>>
        requires { top steps.old ≡ Some (step.Sleeper (sleeper_step.CallSleeper (sleeper_as who.now self.value))) }
        ensures { steps.new ≡ due (of_handed result) (below steps.old) }
    {
        let Foreign { value } = self;
        steps.call_sleeper(value, who, rt, realm, unlocked)
    }

    /// Calls the waker, with all that this leads to.
    pub fn wake_and_pay<T: Output, R: Runtime>(
        self,
        rt: R,
        realm: &'static ExRealm<T, W, R>,
        who: &TickOrRun<()>,
        steps: &mut Steps,
        unlocked: &mut Unlocked,
    )
        requires { top steps.old ≡ Some (step.Sleeper (sleeper_step.CallSleeper (sleeper_as who.now self.value))) }
        ensures { steps.new ≡ below steps.old }
    {
        let handed = self.wake(rt, realm, who, steps, unlocked);
        pay_next(rt, handed, steps, unlocked);
    }

    /// Drops it, with all that this leads to.
    pub fn let_go_and_pay<T: Output, R: Runtime>(
        self,
        rt: R,
        realm: &'static ExRealm<T, W, R>,
        steps: &mut Steps,
        unlocked: &mut Unlocked,
    )
        requires { LetsGo (name_of self.value) steps.old }
        ensures { steps.new ≡ gone (name_of self.value) steps.old }
    {
        let Foreign { value } = self;
        value.let_go(rt, realm, steps, unlocked);
    }
}
