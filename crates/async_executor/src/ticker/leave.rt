//! How a tick or run leaves the sleepers.
ghost use Rattle.std.specs.Prelude.{◌≡◌, ◌∷◌, Some, None};
ghost use Rattle.call_steps.specs.Todo.{below, top};
ghost use Rattle.call_steps.specs.declared.step.CallStep.TheVariants as step;
ghost use Rattle.call_steps.specs.declared.step.run.RunStep.TheVariants as run_step;
ghost use Rattle.call_steps.specs.declared.step.tick.TickStep.TheVariants as tick_step;
ghost use Rattle.executor_parts.specs.Sleepers.{flag_of};
ghost use Rattle.async_executor.specs.Sleeping.{Leaves};

use super::{Ticker, WokenUp, woken_up_with};
use crate::deeds::Steps;
use crate::entry::Unlocked;
use crate::names::ExRealm;
use crate::sleeping::SleeperWaker;
use crate::state::State;
use async_task::{Output, OutsideWaker, Runtime};
use call_steps::TickOrRun;
use executor_parts::{Room, Sleeper, Sleepers, WokenUp as Stood};

impl Ticker {
    /// Leaves the sleepers, where it sleeps there, and then gives its room back, in a section of its own.
    pub fn leave<T: Output, W: OutsideWaker, R: Runtime>(
        self,
        rt: R,
        state: &State<W>,
        realm: &'static ExRealm<T, W, R>,
        who: &TickOrRun<()>,
        steps: &mut Steps,
        unlocked: &mut Unlocked,
    )
        requires { top steps.old ≡ Some (step.Tick (tick_step.Leave who.now)) }
        ensures { steps.new ≡ below steps.old }
    {
        match self {
            Ticker::Asleep(sleeper, _) => {
                let room = leave_sleepers(rt, state, realm, sleeper, who, steps, unlocked);
                steps.return_room(room, state, &rt, unlocked);
            }
            Ticker::Awake(room) => steps.leave_awake(room, who, state, &rt, unlocked),
            Ticker::Left => steps.leave_again(who),
        }
    }
}

/// One that sleeps leaves the sleepers. If it had been notified, it notifies another in its place. Its room is the answer.
fn leave_sleepers<T: Output, W: OutsideWaker, R: Runtime>(
    rt: R,
    state: &State<W>,
    realm: &'static ExRealm<T, W, R>,
    sleeper: Sleeper,
    who: &TickOrRun<()>,
    steps: &mut Steps,
    unlocked: &mut Unlocked,
) -> Room
    requires { top steps.old ≡ Some (step.Tick (tick_step.Leave who.now)) }
    ensures { steps.new ≡ step.Run run_step.ReturnRoom ∷ below steps.old }
{
    let (room, old) = steps.leave(sleeper, who, state, &rt, unlocked);
    match old {
        Some(old) => old.let_go_and_pay(rt, realm, steps, unlocked),
        None => state.notify_and_pay(rt, realm, steps, unlocked),
    }
    room
}

/// The section of the sleepers' lock in which one leaves. Its room is the first answer. It has no waker there where it had been
/// notified.
pub fn leave_in<W>(sleepers: &mut Sleepers<SleeperWaker<W>>, sleeper: Sleeper) -> (Room, WokenUp<W>)
    ensures left { Leaves sleeper.number sleepers.old sleepers.new result.1 }
    ensures said { result.1.notified ≡ flag_of sleepers.new }
{
    let (stood, _was_told) = sleepers.leave(sleeper);
    let Stood {
        room,
        waker,
        notified,
    } = stood;
    (room, woken_up_with(notified, waker))
}
