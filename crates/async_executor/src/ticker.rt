//! A place among the sleepers: how ticks and runs fall asleep there, and wake up.
ghost use Rattle.std.specs.Prelude.{◌≡◌, ◌∷◌, [], true, false, Some, None, IfSome};
ghost use Rattle.call_steps.specs.declared.step.CallStep.TheVariants as step;
ghost use Rattle.call_steps.specs.declared.step.tick.TickStep.TheVariants as tick_step;
ghost use Rattle.call_steps.specs.declared.reply.Reply.TheVariants as reply;
ghost use Rattle.async_executor.specs.Polls.{has_left};
ghost use Rattle.async_executor.specs.Foreign.{value_of};
ghost use Rattle.async_executor.specs.Sleeping.{is_asleep, laid_as, ComesBack, FallsAsleep, LaidBack, Lies, WakesUp};
ghost use Rattle.async_executor.specs.Sleeping.{SaysFellAsleep};
ghost use Rattle.async_executor.specs.Steps.{name_of, name_given};
ghost use Rattle.async_executor.specs.Ticks.{sleeping};
ghost use Rattle.executor_parts.specs.Sleepers.{flag_of};

use crate::deeds::Steps;
use crate::entry::Unlocked;
use crate::flag::NewFlag;
use crate::foreign::{Foreign, came_out};
use crate::names::{ExRealm, ExWaker};
use crate::sleeping::SleeperWaker;
use crate::state::State;
use crate::task_name::TaskName;
use crate::waker_name::WakerName;
use async_task::{Output, OutsideWaker, Runtime};
use call_steps::{TickOrRun, Waker};
use executor_parts::{
    Again, Room, Sleeper, Sleepers, Slept as Started, Unreserved, WokenUp as Stood,
};
use std::mem;
use std::sync::Wait;

pub mod leave;

/// Whether a tick or run is among the sleepers. It has no drop: it leaves them.
pub enum Ticker {
    /// It is awake, and has the room in which it can fall asleep.
    Awake(Room),
    /// It sleeps, with a waker of this name. It has been notified once that is missing from the list.
    Asleep(Sleeper, WakerName),
    /// It left the sleepers, and gave its room back.
    Left,
}

/// How one fell asleep.
pub enum FellAsleep<W> {
    /// Anew, or it had been notified meanwhile: the flag's next value.
    Anew(NewFlag),
    /// It slept there already. This waker is dropped, once the lock is released.
    Already(Foreign<SleeperWaker<W>>),
    /// It can't sleep there. This waker is called, once the lock is released, so that it looks again.
    Nowhere(Foreign<SleeperWaker<W>>),
}

/// The same, once the flag is stored.
pub enum Laid<W> {
    Anew,
    Already(Foreign<SleeperWaker<W>>),
    Nowhere(Foreign<SleeperWaker<W>>),
}

/// What follows where a tick or run found nothing.
pub enum Slept {
    /// It fell asleep, and has to search once more.
    Anew,
    /// It sleeps, and its waker will be called.
    Still,
    /// Its waker can't be kept: it was called at once.
    Called,
    /// No copy of the waker could be had.
    NoMemory,
}

/// How one woke up or left.
pub struct WokenUp<W> {
    /// The flag's next value.
    pub notified: NewFlag,
    /// Its waker, which is dropped once the lock is released; none where it had been notified.
    pub waker: Option<Foreign<SleeperWaker<W>>>,
}

impl Ticker {
    /// Falls asleep with this waker, of this name, in one section of the sleepers' lock.
    pub fn lie_down<W: Drop, R: Wait>(
        &mut self,
        rt: &R,
        state: &State<W>,
        waker: Foreign<SleeperWaker<W>>,
        name: &Waker<TaskName>,
        unlocked: &mut Unlocked,
    ) -> Laid<W>
        requires named { name_of waker.value ≡ name.now }
        ensures back { LaidBack waker.value result }
        ensures lies { Lies name.now self.new result }
        ensures stays { has_left self.new ≡ has_left self.old }
    {
        let mut locked = state.sleepers.lock(rt, unlocked);
        let sleepers = locked.get();
        let (ticker, fell_asleep) = mem::replace(self, Ticker::Left).fall_asleep_in(
            sleepers, waker, name,
        );
        self.turn_into(ticker);
        state.store_fell_asleep(sleepers, fell_asleep)
    }

    /// Wakes up, where it sleeps, in one section of the sleepers' lock. Answers the waker that it had there.
    pub fn stand_up<W: Drop, R: Wait>(
        &mut self,
        rt: &R,
        state: &State<W>,
        unlocked: &mut Unlocked,
    ) -> Option<Foreign<SleeperWaker<W>>>
        ensures awake { is_asleep self.new ≡ false }
        ensures stays { has_left self.new ≡ has_left self.old }
    {
        let mut locked = state.sleepers.lock(rt, unlocked);
        let sleepers = locked.get();
        let (ticker, woken_up) = mem::replace(self, Ticker::Left).wake_up_in(sleepers);
        self.turn_into(ticker);
        match woken_up {
            Some(woken_up) => state.store_woken_up(sleepers, woken_up),
            None => None,
        }
    }

    pub fn sleeps(&self) -> bool
        ensures { result ≡ is_asleep self.now }
    {
        match self {
            Ticker::Asleep(_, _) => true,
            Ticker::Awake(_) | Ticker::Left => false,
        }
    }

    /// One that left becomes this one.
    fn turn_into(&mut self, ticker: Ticker)
        requires { self.old ≡ Ticker.Left }
        ensures { self.new ≡ ticker }
    {
        match mem::replace(self, ticker) {
            Ticker::Left => {}
            Ticker::Awake(_room) => unreachable!(),
            Ticker::Asleep(_sleeper, _) => unreachable!(),
        }
    }

    /// The section of the sleepers' lock in which one falls asleep with this waker, of this name.
    pub fn fall_asleep_in<W>(
        self,
        sleepers: &mut Sleepers<SleeperWaker<W>>,
        waker: Foreign<SleeperWaker<W>>,
        name: &Waker<TaskName>,
    ) -> (Ticker, FellAsleep<W>)
        requires named { name_of waker.value ≡ name.now }
        ensures sleeps { FallsAsleep self waker.value sleepers.old sleepers.new result.0 result.1 }
        ensures stays { has_left result.0 ≡ has_left self }
        ensures said { SaysFellAsleep sleepers.new result.1 }
        ensures lies { Lies name.now result.0 (laid_as result.1) }
        ensures back { ComesBack waker.value result.1 }
    {
        match self {
            Ticker::Awake(room) => match sleepers.fall_asleep(room, waker.into_stored()) {
                Ok(Started { sleeper, notified }) => (
                    Ticker::Asleep(sleeper, WakerName::of(name)),
                    FellAsleep::Anew(NewFlag::of(notified)),
                ),
                Err(Unreserved { room, waker }) => {
                    (Ticker::Awake(room), FellAsleep::Nowhere(Foreign::of(waker)))
                }
            },
            Ticker::Asleep(sleeper, before) => {
                match sleepers.fall_asleep_again(&sleeper, waker.into_stored()) {
                    Again::Replaced(old) => (
                        Ticker::Asleep(sleeper, WakerName::of(name)),
                        FellAsleep::Already(Foreign::of(old)),
                    ),
                    Again::Notified(notified) => (
                        Ticker::Asleep(sleeper, WakerName::of(name)),
                        FellAsleep::Anew(NewFlag::of(notified)),
                    ),
                    Again::Unknown(waker) => (
                        Ticker::Asleep(sleeper, before),
                        FellAsleep::Nowhere(Foreign::of(waker)),
                    ),
                }
            }
            Ticker::Left => (Ticker::Left, FellAsleep::Nowhere(waker)),
        }
    }

    /// The section of the sleepers' lock in which one wakes up.
    pub fn wake_up_in<W>(
        self,
        sleepers: &mut Sleepers<SleeperWaker<W>>,
    ) -> (Ticker, Option<WokenUp<W>>)
        ensures up { WakesUp self sleepers.old sleepers.new result.0 result.1 }
        ensures awake { is_asleep result.0 ≡ false }
        ensures stays { has_left result.0 ≡ has_left self }
        ensures said { IfSome result.1 (λ woken_up. woken_up.notified ≡ flag_of sleepers.new) }
    {
        match self {
            Ticker::Asleep(sleeper, _) => {
                let Stood {
                    room,
                    waker,
                    notified,
                } = sleepers.wake_up(sleeper);
                (Ticker::Awake(room), Some(woken_up_with(notified, waker)))
            }
            Ticker::Awake(room) => (Ticker::Awake(room), None),
            Ticker::Left => (Ticker::Left, None),
        }
    }
}

/// One that woke up, with the waker that it had.
fn woken_up_with<W>(notified: bool, waker: Option<SleeperWaker<W>>) -> WokenUp<W>
    ensures flag { result.notified ≡ notified }
    ensures waker { value_of result.waker ≡ waker }
{
    WokenUp {
        notified: NewFlag::of(notified),
        waker: came_out(waker),
    }
}

/// Whether it is a waker of a task of another realm.
pub fn sleeps_elsewhere<T: Output, W: OutsideWaker, R: Runtime>(
    waker: &ExWaker<T, W, R>,
    realm: &'static ExRealm<T, W, R>,
) -> bool {
    match waker.identity() {
        Some(identity) => identity.realm != realm.number(),
        None => false,
    }
}

/// Calls the waker of this name that one was polled with, which can't be kept, at once.
#[tactic(auto, using(crate::proofs::Calling::sleepers_is_kept, crate::proofs::Calling::sleepers_was_called))]
pub fn call_at_once<T: Output, W: OutsideWaker, R: Runtime>(
    waker: &ExWaker<T, W, R>,
    name: &Waker<TaskName>,
    who: &TickOrRun<()>,
    steps: &mut Steps,
    unlocked: &Unlocked,
)
    requires named { name.now ≡ name_given waker.now }
    requires copies { steps.old ≡ step.Tick (tick_step.CopyWaker (sleeping who.now name.now)) ∷ [] }
    ensures { steps.new ≡ step.End reply.Pending ∷ [] }
{
    steps.keep_nowhere(name, who);
    steps.call_kept(waker, name, unlocked);
}
