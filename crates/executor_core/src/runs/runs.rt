//! The runs by number.
ghost use Rattle.std.specs.Prelude.{◌≡◌, ◌+◌, ◌-◌, ◌++◌, ◌<◌, ◌≤◌, ◌^◌, ◌==◌, ◌||◌};
ghost use Rattle.std.specs.Prelude.{true, false, not, List, [], ◌∷◌, length, map, cond};
ghost use Rattle.std.specs.Prelude.{◌↔◌, IsTrue, IfNone, IfSome, IsOk, OnOk, nat_lt};
ghost use Rattle.std.specs.List.{list_any};
ghost use Rattle.executor_model.specs.declared.op.RunPoll.{RunPoll};
ghost use Rattle.executor_model.specs.ActsOfRuns.{walk};
ghost use Rattle.executor_model.specs.World.{Left, new_run};
ghost use Rattle.executor_core.specs.Running.{free_in, listed_by, own_in, placed, put_in, put_own_in, run_in, unlisted};
ghost use Rattle.executor_core.specs.Runs.{as_stage};
ghost use Rattle.executor_core.specs.FallingAsleep as falling;
ghost use Rattle.executor_core.specs.Ticks.{as_ticker, is_asleep};
ghost use Rattle.executor_core.specs.Walks.{goes_to};

use crate::runs::at;
use crate::runs::list::{Found, QueueList};
use crate::runs::lock::Lock;
use crate::runs::own::OwnQueue;
use crate::runs::run::{Run, Stage};
use crate::ticks::{FlaggedSleepers, Ticker};
use std::alloc::{AllocError, Global};
use std::marker::Model;
use std::mem;

/// The runs of the machine, and the list of their own queues. A run is named by its number; one that isn't there is as one that
/// was dropped and has an empty queue with no place. They have no drop: they leave the sleepers.
pub struct Runs {
    alloc: Global,
    // By number.
    runs: Vec<Run>,
    list: QueueList,
    lock: Lock,
    // A queue that was made ahead, for the next run.
    spare: Option<OwnQueue>,
}

impl Model for Runs {
    ghost use Rattle.std.specs.Prelude.{◌≡◌, [], map, nat_lt, ◌&&◌, is_some, vec_len, vec_capacity};
    ghost use Rattle.executor_core.specs.Running.{Running, IsBlank};
    ghost use Rattle.executor_core.specs.Runs.{as_lock, as_run};

    ghost Value = { Running };

    ghost view = { λ s. record {
      runs = map as_run s.runs.items;
      own = map (λ x. x.own) s.runs.items;
      listed = s.list.runs.items;
      lock = as_lock s.lock;
      has_room = is_some s.spare && (nat_lt (vec_len s.runs) (vec_capacity s.runs)
          && nat_lt (vec_len s.list.runs) (vec_capacity s.list.runs));
    } };

    ghost invariant = { λ s. IsBlank s.spare };
}

impl Runs {
    /// No runs, which takes no memory.
    pub fn new(alloc: Global) -> Runs
        ensures runs { result.runs ≡ [] }
        ensures own { result.own ≡ [] }
        ensures listed { result.listed ≡ [] }
        ensures lock { result.lock ≡ record { writing = false; readers = 0 } }
    {
        Runs {
            alloc,
            runs: Vec::new(alloc),
            list: QueueList::new(alloc),
            lock: Lock::free(),
            spare: None,
        }
    }

    /// Makes room for one more run and for its queue in the list, and makes that queue. Where they are made it succeeds. Either
    /// way the runs stay as they were.
    pub fn reserve(&mut self) -> Result<(), AllocError>
        ensures same { self.new ≡ record self.old { has_room = self.new.has_room } }
        ensures room { OnOk result (self.new.has_room ≡ true) }
        ensures succeeds { self.old.has_room ≡ true → IsOk result }
    {
        self.runs.reserve(1)?;
        self.list.reserve()?;
        if self.spare.is_none() {
            self.spare = Some(OwnQueue::new(self.alloc)?);
        }
        Ok(())
    }

    /// How many runs were made.
    pub fn len(&self) -> u64
        ensures runs { result ≡ length self.now.runs }
        ensures own { result ≡ length self.now.own }
    {
        self.runs.len() as u64
    }

    /// One more run, which has the next number. Takes no memory.
    pub fn push(&mut self)
        requires { self.old.has_room ≡ true }
        ensures runs { self.new.runs ≡ self.old.runs ++ new_run ∷ [] }
        ensures own { self.new.own ≡ self.old.own ++ [] ∷ [] }
        ensures listed { self.new.listed ≡ self.old.listed }
        ensures lock { self.new.lock ≡ self.old.lock }
    {
        match mem::replace(&mut self.spare, None) {
            Some(own) => self.runs.push_reserved(Run::new(own)),
            None => unreachable!(),
        }
    }

    /// Whether the drop of this run was not begun.
    pub fn has(&self, r: u64) -> bool
        ensures { result ≡ not (run_in self.now r).dropped }
    {
        match self.runs.get(r as usize) {
            Some(run) => !run.dropped,
            None => false,
        }
    }

    /// Whether there is a run whose drop was not begun.
    #[tactic(auto, using(crate::proofs::Lists::any_mapped))]
    pub fn has_any(&self) -> bool
        ensures { result ≡ list_any (λ x. not x.dropped) self.now.runs }
    {
        at::any_there(self.runs.as_slice())
    }

    /// How far this run has come.
    pub fn stage(&self, r: u64) -> Stage
        ensures { as_stage result ≡ (run_in self.now r).stage }
    {
        match self.runs.get(r as usize) {
            Some(run) => run.stage,
            None => Stage::Ended,
        }
    }

    /// Whether this run is among the sleepers.
    pub fn sleeps(&self, r: u64) -> bool
        ensures { result ≡ is_asleep (run_in self.now r).place }
    {
        match self.runs.get(r as usize) {
            Some(run) => run.place.sleeps(),
            None => false,
        }
    }

    /// This run is taken out of its place, which it is put back into.
    pub fn take_place(&mut self, r: u64) -> Ticker
        ensures taken { as_ticker result ≡ (run_in self.old r).place }
        ensures left { self.new ≡ placed r Left self.old }
    {
        if r < self.runs.len() as u64 {
            at::take_place(&mut self.runs, r as usize)
        } else {
            Ticker::Left
        }
    }

    /// It is put into its place, from which it was taken.
    pub fn put_place(&mut self, r: u64, place: Ticker)
        requires free { (run_in self.old r).place ≡ Left }
        requires nowhere { length self.old.runs ≤ r → is_asleep (as_ticker place) ≡ false }
        ensures { self.new ≡ placed r (as_ticker place) self.old }
    {
        if r < self.runs.len() as u64 {
            at::put_place(&mut self.runs, r as usize, place);
        } else {
            place.let_go();
        }
    }

    /// Each run goes for good, the last first.
    pub fn leave(self, flagged_sleepers: &mut FlaggedSleepers)
        ensures sleepers { flagged_sleepers.new.sleepers
            ≡ (falling.all_gone (map (λ x. x.place) self.runs) flagged_sleepers.old).sleepers }
        ensures flag { flagged_sleepers.new.notified ≡ (falling.all_gone (map (λ x. x.place) self.runs) flagged_sleepers.old).notified }
    {
        let Runs {
            alloc: _,
            mut runs,
            list: _,
            lock: _,
            spare: _,
        } = self;
        while let Some(run) = runs.pop() {
            let Run {
                place,
                stage: _,
                dropped: _,
                counts: _,
                own: _,
            } = run;
            flagged_sleepers.let_go(place);
        }
        runs.destroy_empty();
    }

    /// The drop of this run begins.
    pub fn begin_drop(&mut self, r: u64)
        ensures { self.new ≡ put_in self.old r (record (run_in self.old r) { dropped = true }) }
    {
        if r < self.runs.len() as u64 {
            at::begin_drop(&mut self.runs, r as usize);
        }
    }

    /// The run counts one more task. Answers whether it is to steal at this one, the 64th.
    pub fn count(&mut self, r: u64) -> bool
        ensures full { result ≡ ((run_in self.old r).counted + 1 == 64) }
        ensures counted { self.new ≡ put_in self.old r (record (run_in self.old r) {
          counted = cond result 0 ((run_in self.old r).counted + 1);
        }) }
    {
        if r < self.runs.len() as u64 {
            at::count(&mut self.runs, r as usize)
        } else {
            false
        }
    }

    /// The run takes one more task. Answers whether it is to let others go first after this one, the 200th.
    pub fn take_one(&mut self, r: u64) -> bool
        ensures full { result ≡ ((run_in self.old r).taken + 1 == 200) }
        ensures taken { self.new ≡ put_in self.old r (record (run_in self.old r) {
          taken = cond result 0 ((run_in self.old r).taken + 1);
        }) }
    {
        if r < self.runs.len() as u64 {
            at::take_one(&mut self.runs, r as usize)
        } else {
            false
        }
    }

    /// How many Runnables stand in the own queue of this run.
    pub fn own_len(&self, r: u64) -> u64
        ensures { result ≡ length (own_in self.now r) }
    {
        match self.runs.get(r as usize) {
            Some(run) => run.own.len() as u64,
            None => 0,
        }
    }

    /// How many places of its own queue are free.
    pub fn free_places(&self, r: u64) -> u64
        ensures { result ≡ free_in self.now r }
    {
        match self.runs.get(r as usize) {
            Some(run) => run.own.free_places() as u64,
            None => 0,
        }
    }

    /// The first Runnable of its own queue is taken, where there is one.
    pub fn take(&mut self, r: u64) -> Option<u64>
        ensures none { IfNone result ((own_in self.old r ≡ []) × (self.new ≡ self.old)) }
        ensures some { IfSome result (λ f. own_in self.old r ≡ f ∷ own_in self.new r) }
        ensures rest { self.new ≡ put_own_in self.old r (own_in self.new r) }
    {
        if r < self.runs.len() as u64 {
            at::take(&mut self.runs, r as usize)
        } else {
            None
        }
    }

    /// A Runnable is appended to its own queue, where a place is free. Answers whether one is. Takes no memory.
    pub fn append(&mut self, r: u64, f: u64) -> bool
        ensures free { result ≡ nat_lt 0 (free_in self.old r) }
        ensures kept { result ≡ true → self.new ≡ put_own_in self.old r (own_in self.old r ++ f ∷ []) }
        ensures same { result ≡ false → self.new ≡ self.old }
    {
        if r < self.runs.len() as u64 {
            at::append(&mut self.runs, r as usize, f)
        } else {
            false
        }
    }

    /// A writer or a reader has the lock of the list.
    pub fn is_locked(&self) -> bool
        ensures { result ≡ (self.now.lock.writing || not (self.now.lock.readers == 0)) }
    {
        self.lock.is_taken()
    }

    /// A writer has it.
    pub fn is_locked_to_write(&self) -> bool
        ensures { result ≡ self.now.lock.writing }
    {
        self.lock.is_writing()
    }

    /// One more reader of the list can be counted.
    pub fn counts_on(&self) -> bool
        ensures { IsTrue result ↔ self.now.lock.readers + 1 < 2 ^ 64 }
    {
        self.lock.counts_on()
    }

    /// A writer takes the lock.
    pub fn lock_write(&mut self)
        ensures { self.new ≡ record self.old { lock = record self.old.lock { writing = true } } }
    {
        self.lock.lock_write();
    }

    /// The writer gives it back.
    pub fn unlock_write(&mut self)
        ensures { self.new ≡ record self.old { lock = record self.old.lock { writing = false } } }
    {
        self.lock.unlock_write();
    }

    /// One more reader takes it.
    pub fn lock_read(&mut self)
        requires { self.old.lock.readers + 1 < 2 ^ 64 }
        ensures { self.new
            ≡ record self.old { lock = record self.old.lock { readers = self.old.lock.readers + 1 } } }
    {
        self.lock.lock_read();
    }

    /// A reader gives it back.
    pub fn unlock_read(&mut self)
        ensures { self.new
            ≡ record self.old { lock = record self.old.lock { readers = self.old.lock.readers - 1 } } }
    {
        self.lock.unlock_read();
    }

    /// The own queue of a run that was never polled comes into the list. Takes no memory.
    pub fn register(&mut self, r: u64)
        requires { self.old.has_room ≡ true }
        ensures { self.new
            ≡ record (listed_by (run_in self.old r).stage r self.old) { has_room = self.new.has_room } }
    {
        match self.stage(r) {
            Stage::New => {
                at::set_stage(&mut self.runs, r as usize, Stage::Listed);
                self.list.push(r);
            }
            Stage::Listed => {}
            Stage::Ended => {}
        }
    }

    /// The own queue of this run goes from the list, and the rest keep their order.
    pub fn unregister(&mut self, r: u64)
        ensures { self.new ≡ record (unlisted r self.old) { has_room = self.new.has_room } }
    {
        if r < self.runs.len() as u64 {
            at::set_stage(&mut self.runs, r as usize, Stage::Ended);
        }
        self.list.remove(r);
    }

    /// How many queues are in the list.
    pub fn listed(&self) -> u64
        ensures { result ≡ length self.now.listed }
    {
        self.list.len()
    }

    /// The next queue on the walk of this run round the list, which passes its own, from this place on, where so many are still
    /// to go to.
    pub fn next(&self, r: u64, at: u64, left: u64) -> Option<Found>
        ensures { (x : RunPoll) → x.run ≡ r → walk x self.now.listed at left ≡ goes_to x result }
    {
        self.list.next(r, at, left)
    }
}
