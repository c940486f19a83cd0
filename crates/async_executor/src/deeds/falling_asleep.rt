//! How ticks and runs fall asleep, and wake up. What a section of the sleepers' lock answers is matched where it is answered, as
//! it is large.
ghost use Rattle.std.specs.Prelude.{◌≡◌, ◌∷◌, [], false};
ghost use Rattle.call_steps.specs.Todo.{below, top};
ghost use Rattle.call_steps.specs.declared.step.CallStep.TheVariants as step;
ghost use Rattle.call_steps.specs.declared.step.tick.TickStep.TheVariants as tick_step;
ghost use Rattle.async_executor.specs.Polls.{has_left};
ghost use Rattle.async_executor.specs.Sleeping.{is_asleep, SleepsBy};
ghost use Rattle.async_executor.specs.Steps.{name_of, name_given};
ghost use Rattle.async_executor.specs.Ticks.{sleeping, slept};

use super::Steps;
use crate::entry::Unlocked;
use crate::foreign::Foreign;
use crate::names::{ExRealm, ExWaker};
use crate::sleeping::SleeperWaker;
use crate::state::State;
use crate::task_name::TaskName;
use crate::ticker::{Laid, Slept, Ticker, call_at_once, sleeps_elsewhere};
use async_task::{Output, OutsideWaker, Runtime};
use call_steps::{Saw, TickOrRun, Waker};

impl Ticker {
    /// Wakes up. Whether it had been notified doesn't matter, as the call notifies another.
    pub fn wake_up<T: Output, W: OutsideWaker, R: Runtime>(
        &mut self,
        rt: R,
        state: &State<W>,
        realm: &'static ExRealm<T, W, R>,
        who: &TickOrRun<()>,
        steps: &mut Steps,
        unlocked: &mut Unlocked,
    )
        requires { top steps.old ≡ Some (step.Tick (tick_step.WakeUp who.now)) }
        ensures steps { steps.new ≡ below steps.old }
        ensures awake { is_asleep self.new ≡ false }
        ensures stays { has_left self.new ≡ has_left self.old }
    {
        let _ = who;
        match self.stand_up(&rt, state, unlocked) {
            Some(old) => {
                steps.follow(Saw::Awake(Some(old.name())));
                old.let_go_and_pay(rt, realm, steps, unlocked);
            }
            None => steps.follow(Saw::Awake(None)),
        }
    }

    /// What a tick or run does that found nothing. It copies the waker that its poll was given, of this name, and falls asleep
    /// with the copy. A waker of a task of another realm can't be found from here: it is called at once.
    pub fn sleep<T: Output, W: OutsideWaker, R: Runtime>(
        &mut self,
        rt: R,
        state: &State<W>,
        realm: &'static ExRealm<T, W, R>,
        waker: &ExWaker<T, W, R>,
        name: &Waker<TaskName>,
        who: &TickOrRun<()>,
        steps: &mut Steps,
        unlocked: &mut Unlocked,
    ) -> Slept
        requires named { name.now ≡ name_given waker.now }
        requires copies { steps.old ≡ step.Tick (tick_step.CopyWaker (sleeping who.now name.now)) ∷ [] }
        ensures steps { steps.new ≡ slept who.now name.now result }
        ensures asleep { SleepsBy name.now self.new result }
        ensures stays { has_left self.new ≡ has_left self.old }
    {
        if sleeps_elsewhere(waker, realm) {
            call_at_once(waker, name, who, steps, unlocked);
            return Slept::Called;
        }
        let Some(copy) = SleeperWaker::of(waker, unlocked) else {
            steps.follow(Saw::NoMemory);
            return Slept::NoMemory;
        };
        steps.follow(Saw::Something);
        self.sleep_with(rt, state, realm, copy, name, who, steps, unlocked)
    }

    /// Falls asleep with a copy of the waker of this name. It has to search again where it wasn't asleep, or had been notified.
    fn sleep_with<T: Output, W: OutsideWaker, R: Runtime>(
        &mut self,
        rt: R,
        state: &State<W>,
        realm: &'static ExRealm<T, W, R>,
        copy: Foreign<SleeperWaker<W>>,
        name: &Waker<TaskName>,
        who: &TickOrRun<()>,
        steps: &mut Steps,
        unlocked: &mut Unlocked,
    ) -> Slept
        requires named { name_of copy.value ≡ name.now }
        requires falls { steps.old ≡ step.Tick (tick_step.FallAsleep (sleeping who.now name.now)) ∷ [] }
        ensures steps { steps.new ≡ slept who.now name.now result }
        ensures asleep { SleepsBy name.now self.new result }
        ensures stays { has_left self.new ≡ has_left self.old }
    {
        match self.lie_down(&rt, state, copy, name, unlocked) {
            Laid::Anew => {
                steps.follow(Saw::Anew);
                Slept::Anew
            }
            Laid::Already(old) => {
                steps.follow(Saw::Already(Some(old.name())));
                old.let_go_and_pay(rt, realm, steps, unlocked);
                Slept::Still
            }
            Laid::Nowhere(waker) => {
                steps.follow(Saw::Nowhere);
                waker.wake_and_pay(rt, realm, who, steps, unlocked);
                Slept::Called
            }
        }
    }
}
