//! The ticks by number.
ghost use Rattle.std.specs.Prelude.{◌≡◌, ◌++◌, ◌≤◌, true, false, [], ◌∷◌, OnOk, IsOk, length, slice_set};
ghost use Rattle.std.specs.List.{list_any};
ghost use Rattle.executor_model.specs.Steps.{lives};
ghost use Rattle.executor_model.specs.World.{Awake, Left};
ghost use Rattle.executor_core.specs.FallingAsleep as falling;
ghost use Rattle.executor_core.specs.Ticks.{as_ticker, is_asleep, place_in};

use crate::ticks::flagged_sleepers::FlaggedSleepers;
use crate::ticks::ticker::{Ticker, any_there, put, take};
use std::alloc::{AllocError, Global};
use std::marker::Model;

/// Where each tick of the machine is. One that isn't there is as one that left. They have no drop: they leave the sleepers.
pub struct Ticks {
    // By number.
    places: Vec<Ticker>,
}

impl Model for Ticks {
    ghost use Rattle.std.specs.Prelude.{map, nat_lt, vec_len, vec_capacity};
    ghost use Rattle.executor_core.specs.Ticks.{Ticked, as_ticker};

    ghost Value = { Ticked };

    ghost view = { λ s. record {
      places = map as_ticker s.places.items;
      has_room = nat_lt (vec_len s.places) (vec_capacity s.places);
    } };
}

impl Ticks {
    /// No ticks, which takes no memory.
    pub fn new(alloc: Global) -> Ticks
        ensures { result.places ≡ [] }
    {
        Ticks {
            places: Vec::new(alloc),
        }
    }

    /// Makes room for one more tick. Where there is room it succeeds.
    pub fn reserve(&mut self) -> Result<(), AllocError>
        ensures same { self.new ≡ record self.old { has_room = self.new.has_room } }
        ensures room { OnOk result (self.new.has_room ≡ true) }
        ensures succeeds { self.old.has_room ≡ true → IsOk result }
    {
        self.places.reserve(1)
    }

    /// Whether this tick wasn't dropped.
    pub fn has(&self, t: u64) -> bool
        ensures { result ≡ lives (place_in self.now t) }
    {
        match self.places.get(t as usize) {
            Some(place) => place.is_there(),
            None => false,
        }
    }

    /// Whether some tick wasn't dropped.
    #[tactic(auto, using(crate::proofs::TicksPlaces::any_mapped))]
    pub fn has_any(&self) -> bool
        ensures { result ≡ list_any lives self.now.places }
    {
        any_there(self.places.as_slice())
    }

    /// Whether it is among the sleepers.
    pub fn sleeps(&self, t: u64) -> bool
        ensures { result ≡ is_asleep (place_in self.now t) }
    {
        match self.places.get(t as usize) {
            Some(place) => place.sleeps(),
            None => false,
        }
    }

    /// One more tick, which is awake. It has the next number. Takes no memory.
    pub fn push(&mut self)
        requires { self.old.has_room ≡ true }
        ensures { self.new.places ≡ self.old.places ++ Awake ∷ [] }
    {
        self.places.push_reserved(Ticker::Awake);
    }

    /// It is taken out of its place, which it is put back into.
    pub fn take(&mut self, t: u64) -> Ticker
        ensures taken { as_ticker result ≡ place_in self.old t }
        ensures left { self.new ≡ record self.old { places = slice_set self.old.places t Left } }
    {
        if t < self.places.len() as u64 {
            take(&mut self.places, t as usize)
        } else {
            Ticker::Left
        }
    }

    /// It is put into its place, from which it was taken.
    pub fn put(&mut self, t: u64, place: Ticker)
        requires free { place_in self.old t ≡ Left }
        requires nowhere { length self.old.places ≤ t → is_asleep (as_ticker place) ≡ false }
        ensures { self.new ≡ record self.old { places = slice_set self.old.places t (as_ticker place) } }
    {
        if t < self.places.len() as u64 {
            put(&mut self.places, t as usize, place);
        } else {
            place.let_go();
        }
    }

    /// Each tick goes for good, the last first.
    pub fn leave(self, flagged_sleepers: &mut FlaggedSleepers)
        ensures sleepers { flagged_sleepers.new.sleepers ≡ (falling.all_gone self.places flagged_sleepers.old).sleepers }
        ensures flag { flagged_sleepers.new.notified ≡ (falling.all_gone self.places flagged_sleepers.old).notified }
    {
        let Ticks { mut places } = self;
        while let Some(place) = places.pop() {
            flagged_sleepers.let_go(place);
        }
        places.destroy_empty();
    }
}
