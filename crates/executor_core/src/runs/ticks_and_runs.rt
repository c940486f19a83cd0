//! The ticks and the runs, with the sleepers among whom both sleep.
ghost use Rattle.std.specs.Prelude.{◌≡◌, true, false, [], OnOk, IsOk};
ghost use Rattle.executor_model.specs.World.{Left, ticks_with, runs_with};
ghost use Rattle.executor_core.specs.FallingAsleep as falling;
ghost use Rattle.executor_core.specs.Ticks.{as_ticker, is_asleep};
ghost use Rattle.executor_core.specs.TicksAndRuns.{where_is, HasRoom};

use crate::runs::runs::Runs;
use crate::ticks::{FellAsleep, FlaggedSleepers, Ticker, Ticks};
use executor_model::{Sleeping, TickOrRun};
use std::alloc::{AllocError, Global};

/// The ticks and runs of the machine, and the sleepers in which they fall asleep.
pub struct TicksAndRuns {
    pub ticks: Ticks,
    pub runs: Runs,
    pub flagged_sleepers: FlaggedSleepers,
}

impl TicksAndRuns {
    /// No ticks and no runs, which takes no memory.
    pub fn new(alloc: Global) -> TicksAndRuns
        ensures ticks { result.ticks.places ≡ [] }
        ensures runs { result.runs.runs ≡ [] }
        ensures own { result.runs.own ≡ [] }
        ensures listed { result.runs.listed ≡ [] }
        ensures lock { result.runs.lock ≡ record { writing = false; readers = 0 } }
        ensures sleepers { result.flagged_sleepers.sleepers ≡ record { count = 0; rooms = 0; wakers = []; free = [] } }
        ensures flag { result.flagged_sleepers.notified ≡ true }
    {
        TicksAndRuns {
            ticks: Ticks::new(alloc),
            runs: Runs::new(alloc),
            flagged_sleepers: FlaggedSleepers::new(alloc),
        }
    }

    /// Makes room for one more tick or run. Where there is room it succeeds. Either way all else stays as it was.
    pub fn reserve(&mut self) -> Result<(), AllocError>
        ensures ticks { self.new.ticks.places ≡ self.old.ticks.places }
        ensures runs { self.new.runs ≡ record self.old.runs { has_room = self.new.runs.has_room } }
        ensures flagged_sleepers { self.new.flagged_sleepers
            ≡ record self.old.flagged_sleepers { has_room = self.new.flagged_sleepers.has_room } }
        ensures room { OnOk result (HasRoom self.new) }
        ensures succeeds { HasRoom self.old → IsOk result }
    {
        self.ticks.reserve()?;
        self.runs.reserve()?;
        self.flagged_sleepers.reserve()
    }

    /// Whether it is among the sleepers.
    pub fn sleeps(&self, who: TickOrRun) -> bool
        ensures { result ≡ is_asleep (where_is self.now.ticks self.now.runs who) }
    {
        match who {
            TickOrRun::Tick(t) => self.ticks.sleeps(t),
            TickOrRun::Run(r) => self.runs.sleeps(r),
        }
    }

    /// The tick or run that this names falls asleep with it, or falls asleep again.
    pub fn fall_asleep(&mut self, sleeping: Sleeping) -> FellAsleep
        ensures fell_asleep { result
            ≡ (falling.fall_asleep (where_is self.old.ticks self.old.runs sleeping.who) sleeping self.old.flagged_sleepers).fell_asleep }
        ensures sleepers { self.new.flagged_sleepers.sleepers
            ≡ (falling.fall_asleep (where_is self.old.ticks self.old.runs sleeping.who) sleeping
            self.old.flagged_sleepers).flagged.sleepers }
        ensures flag { self.new.flagged_sleepers.notified
            ≡ (falling.fall_asleep (where_is self.old.ticks self.old.runs sleeping.who) sleeping
            self.old.flagged_sleepers).flagged.notified }
        ensures ticks { self.new.ticks ≡ record self.old.ticks {
          places =
              ticks_with self.old.ticks.places sleeping.who
              (falling.fall_asleep (where_is self.old.ticks self.old.runs sleeping.who) sleeping self.old.flagged_sleepers).place;
        } }
        ensures runs { self.new.runs ≡ record self.old.runs {
          runs =
              runs_with self.old.runs.runs sleeping.who
              (falling.fall_asleep (where_is self.old.ticks self.old.runs sleeping.who) sleeping self.old.flagged_sleepers).place;
        } }
    {
        match sleeping.who {
            TickOrRun::Tick(t) => {
                let place = self.ticks.take(t);
                let (place, fell_asleep) = self.flagged_sleepers.fall_asleep(place, sleeping);
                self.ticks.put(t, place);
                fell_asleep
            }
            TickOrRun::Run(r) => {
                let place = self.runs.take_place(r);
                let (place, fell_asleep) = self.flagged_sleepers.fall_asleep(place, sleeping);
                self.runs.put_place(r, place);
                fell_asleep
            }
        }
    }

    /// It wakes up, where it sleeps. Answers what it slept with, which goes.
    pub fn wake_up(&mut self, who: TickOrRun) -> Option<Sleeping>
        requires { self.old.flagged_sleepers.has_room ≡ true }
        ensures old { result ≡ falling.sleeps_with (where_is self.old.ticks self.old.runs who) self.old.flagged_sleepers.sleepers }
        ensures sleepers { self.new.flagged_sleepers.sleepers
            ≡ (falling.woke_up (where_is self.old.ticks self.old.runs who) self.old.flagged_sleepers).sleepers }
        ensures flag { self.new.flagged_sleepers.notified
            ≡ (falling.woke_up (where_is self.old.ticks self.old.runs who) self.old.flagged_sleepers).notified }
        ensures ticks { self.new.ticks ≡ record self.old.ticks {
          places =
              ticks_with self.old.ticks.places who (falling.awake_now (where_is self.old.ticks self.old.runs who));
        } }
        ensures runs { self.new.runs ≡ record self.old.runs {
          runs =
              runs_with self.old.runs.runs who (falling.awake_now (where_is self.old.ticks self.old.runs who));
        } }
    {
        match who {
            TickOrRun::Tick(t) => {
                let place = self.ticks.take(t);
                let (place, old) = self.flagged_sleepers.wake_up(place);
                self.ticks.put(t, place);
                old
            }
            TickOrRun::Run(r) => {
                let place = self.runs.take_place(r);
                let (place, old) = self.flagged_sleepers.wake_up(place);
                self.runs.put_place(r, place);
                old
            }
        }
    }

    /// It leaves the sleepers. Where it was awake, its room is given back; where it slept, that is still to come. Answers what it slept
    /// with, which goes, and whether it had been told, so that another is to be told in its place.
    pub fn leave(&mut self, who: TickOrRun) -> (Option<Sleeping>, bool)
        requires { self.old.flagged_sleepers.has_room ≡ true }
        ensures old { result.0 ≡ falling.sleeps_with (where_is self.old.ticks self.old.runs who) self.old.flagged_sleepers.sleepers }
        ensures told { result.1 ≡ falling.was_told (where_is self.old.ticks self.old.runs who) self.old.flagged_sleepers.sleepers }
        ensures sleepers { self.new.flagged_sleepers.sleepers
            ≡ (falling.left (where_is self.old.ticks self.old.runs who) self.old.flagged_sleepers).sleepers }
        ensures flag { self.new.flagged_sleepers.notified
            ≡ (falling.left (where_is self.old.ticks self.old.runs who) self.old.flagged_sleepers).notified }
        ensures ticks { self.new.ticks ≡ record self.old.ticks {
          places =
              ticks_with self.old.ticks.places who Left;
        } }
        ensures runs { self.new.runs ≡ record self.old.runs { runs = runs_with self.old.runs.runs who Left } }
    {
        let place = self.take(who);
        self.flagged_sleepers.leave(place)
    }

    /// It is taken out of its place, for good.
    fn take(&mut self, who: TickOrRun) -> Ticker
        ensures taken { as_ticker result ≡ where_is self.old.ticks self.old.runs who }
        ensures flagged { self.new.flagged_sleepers ≡ self.old.flagged_sleepers }
        ensures ticks { self.new.ticks ≡ record self.old.ticks {
          places =
              ticks_with self.old.ticks.places who Left;
        } }
        ensures runs { self.new.runs ≡ record self.old.runs { runs = runs_with self.old.runs.runs who Left } }
    {
        match who {
            TickOrRun::Tick(t) => self.ticks.take(t),
            TickOrRun::Run(r) => self.runs.take_place(r),
        }
    }
}

impl Drop for TicksAndRuns {
    /// Each tick and run goes for good.
    fn drop(self) {
        let TicksAndRuns {
            ticks,
            runs,
            mut flagged_sleepers,
        } = self;
        ticks.leave(&mut flagged_sleepers);
        runs.leave(&mut flagged_sleepers);
    }
}
