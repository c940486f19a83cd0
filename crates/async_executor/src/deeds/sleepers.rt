//! What calls do with the flag, and in the sections of the sleepers' lock.
ghost use Rattle.std.specs.Prelude.{◌≡◌, ◌∷◌, [], Some, is_ok};
ghost use Rattle.call_steps.specs.Seeing.{called, seen};
ghost use Rattle.call_steps.specs.Sleeping.{sleep_nowhere};
ghost use Rattle.call_steps.specs.Todo.{below, following, top};
ghost use Rattle.call_steps.specs.declared.saw.Saw.TheVariants as saw;
ghost use Rattle.call_steps.specs.declared.step.CallStep.TheVariants as step;
ghost use Rattle.call_steps.specs.declared.step.run.RunStep.TheVariants as run_step;
ghost use Rattle.call_steps.specs.declared.step.tick.SleeperStep.TheVariants as sleeper_step;
ghost use Rattle.call_steps.specs.declared.step.tick.TickStep.TheVariants as tick_step;
ghost use Rattle.async_executor.specs.Deeds.{MakesRoom, name_of_old, room_seen};
ghost use Rattle.async_executor.specs.Steps.{sleeper_of};
ghost use Rattle.async_executor.specs.Ticks.{sleeping};

use super::Steps;
use crate::deeds::sections;
use crate::entry::Unlocked;
use crate::flag::Flag;
use crate::foreign::Foreign;
use crate::sleeping::SleeperWaker;
use crate::state::State;
use crate::task_name::TaskName;
use crate::ticker::leave::leave_in;
use async_task::NoMemory;
use call_steps::{Saw, TickOrRun, Waker};
use executor_parts::{Room, Sleeper};
use std::sync::Wait;

impl Steps {
    /// Exchanges the flag from false to true, and answers whether it was false. Then a waker has to be taken out.
    #[inline(always)]
    pub fn exchange(&mut self, flag: &Flag) -> bool
        requires { top self.old ≡ Some (step.Sleeper sleeper_step.ExchangeFlag) }
        ensures { self.new ≡ following (seen result) self.old }
    {
        let won = flag.exchange();
        self.see(won);
        won
    }

    /// Takes, under the sleepers' lock, the waker that was added last, where this call won the exchange of the flag.
    pub fn hand_out<W, R: Wait>(
        &mut self,
        state: &State<W>,
        rt: &R,
        unlocked: &mut Unlocked,
    ) -> Option<Foreign<SleeperWaker<W>>>
        requires { top self.old ≡ Some (step.Sleeper sleeper_step.HandOut) }
        ensures { self.new ≡ called (sleeper_of result) (below self.old) }
    {
        match sections::hand_out(state.sleepers.lock(rt, unlocked).get()) {
            Some(waker) => {
                self.follow(Saw::HandedOut(waker.sleeper()));
                Some(Foreign::of(waker))
            }
            None => {
                self.follow(Saw::Nothing);
                None
            }
        }
    }

    /// Makes room for one more among the sleepers, as a tick or a run is made.
    pub fn make_room<W, R: Wait>(
        &mut self,
        state: &State<W>,
        rt: &R,
        unlocked: &mut Unlocked,
    ) -> Result<Room, NoMemory>
        requires { MakesRoom (top self.old) }
        ensures { self.new ≡ following (room_seen (is_ok result)) self.old }
    {
        let made = sections::make_room(state.sleepers.lock(rt, unlocked).get());
        match made {
            Ok(room) => {
                self.follow(Saw::Something);
                Ok(room)
            }
            Err(_) => {
                self.follow(Saw::NoMemory);
                Err(NoMemory)
            }
        }
    }

    /// Gives room among the sleepers back, where nobody sleeps in it.
    pub fn return_room<W, R: Wait>(
        &mut self,
        room: Room,
        state: &State<W>,
        rt: &R,
        unlocked: &mut Unlocked,
    )
        requires { top self.old ≡ Some (step.Run run_step.ReturnRoom) }
        ensures { self.new ≡ below self.old }
    {
        sections::give_back(state.sleepers.lock(rt, unlocked).get(), room);
        self.follow(Saw::Nothing);
    }

    /// One that sleeps leaves the sleepers. The first answer is its room, the second the waker that it had there; none where it
    /// had been notified.
    pub fn leave<W: Drop, R: Wait>(
        &mut self,
        sleeper: Sleeper,
        who: &TickOrRun<()>,
        state: &State<W>,
        rt: &R,
        unlocked: &mut Unlocked,
    ) -> (Room, Option<Foreign<SleeperWaker<W>>>)
        requires { top self.old ≡ Some (step.Tick (tick_step.Leave who.now)) }
        ensures { self.new ≡ following (saw.Left (name_of_old result.1)) self.old }
    {
        let _ = who;
        let mut locked = state.sleepers.lock(rt, unlocked);
        let sleepers = locked.get();
        let (room, woken_up) = leave_in(sleepers, sleeper);
        let old = state.store_woken_up(sleepers, woken_up);
        match &old {
            Some(waker) => self.follow(Saw::Left(Some(waker.name()))),
            None => self.follow(Saw::Left(None)),
        }
        (room, old)
    }

    /// One that doesn't sleep has no waker there: its room goes back.
    pub fn leave_awake<W, R: Wait>(
        &mut self,
        room: Room,
        who: &TickOrRun<()>,
        state: &State<W>,
        rt: &R,
        unlocked: &mut Unlocked,
    )
        requires { top self.old ≡ Some (step.Tick (tick_step.Leave who.now)) }
        ensures { self.new ≡ below self.old }
    {
        let _ = who;
        sections::give_back(state.sleepers.lock(rt, unlocked).get(), room);
        self.follow(Saw::Nothing);
    }

    /// One that has left has no room any more.
    pub fn leave_again(&mut self, who: &TickOrRun<()>)
        requires { top self.old ≡ Some (step.Tick (tick_step.Leave who.now)) }
        ensures { self.new ≡ below self.old }
    {
        let _ = who;
        self.follow(Saw::Nothing);
    }

    /// A waker of another realm counts as copied, and as one that can't be kept.
    pub fn keep_nowhere(&mut self, name: &Waker<TaskName>, who: &TickOrRun<()>)
        requires { self.old ≡ step.Tick (tick_step.CopyWaker (sleeping who.now name.now)) ∷ [] }
        ensures { self.new ≡ sleep_nowhere (sleeping who.now name.now) }
    {
        let (_, _) = (name, who);
        self.follow(Saw::Something);
        self.follow(Saw::Nowhere);
    }
}
