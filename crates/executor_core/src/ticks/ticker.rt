//! Where a tick or run is.
ghost use Rattle.std.specs.Prelude.{◌≡◌, ◌<◌, false, map, slice_index_or, slice_set, vec_len, vec_capacity};
ghost use Rattle.std.specs.List.{list_any};
ghost use Rattle.executor_model.specs.Steps.{lives};
ghost use Rattle.executor_model.specs.World.{Left};
ghost use Rattle.executor_core.specs.Ticks.{as_ticker, is_asleep};

use executor_parts::Sleeper;
use std::mem;

/// A tick or run is awake, or is among the sleepers, or left them. It has no drop: it leaves them.
pub enum Ticker {
    Awake,
    Asleep(Sleeper),
    Left,
}

impl Ticker {
    /// It has not left the sleepers.
    pub fn is_there(&self) -> bool
        ensures { result ≡ lives (as_ticker self.now) }
    {
        match self {
            Ticker::Awake => true,
            Ticker::Asleep(_) => true,
            Ticker::Left => false,
        }
    }

    /// It is among the sleepers.
    pub fn sleeps(&self) -> bool
        ensures { result ≡ is_asleep (as_ticker self.now) }
    {
        match self {
            Ticker::Awake => false,
            Ticker::Asleep(_) => true,
            Ticker::Left => false,
        }
    }

    /// One that doesn't sleep needs nothing done where it goes.
    pub fn let_go(self)
        requires { is_asleep (as_ticker self) ≡ false }
    {
        match self {
            Ticker::Awake => {}
            Ticker::Asleep(_sleeper) => unreachable!(),
            Ticker::Left => {}
        }
    }
}

/// Some of these have not left the sleepers.
pub fn any_there(places: &[Ticker]) -> bool
    ensures { result ≡ list_any (λ x. lives (as_ticker x)) places.now }
{
    places.iter().any(|place| place.is_there())
}

/// Takes one out of its place in the list, which it is put back into.
pub fn take(places: &mut Vec<Ticker>, at: usize) -> Ticker
    requires { at < vec_len places.old }
    ensures taken { as_ticker result ≡ slice_index_or (map as_ticker places.old.items) at Left }
    ensures left { map as_ticker places.new.items ≡ slice_set (map as_ticker places.old.items) at Left }
    ensures len { vec_len places.new ≡ vec_len places.old }
    ensures room { vec_capacity places.new ≡ vec_capacity places.old }
{
    mem::replace(&mut places[at], Ticker::Left)
}

/// Puts one into its place in the list, from which it was taken.
pub fn put(places: &mut Vec<Ticker>, at: usize, place: Ticker)
    requires within { at < vec_len places.old }
    requires free { slice_index_or (map as_ticker places.old.items) at Left ≡ Left }
    ensures put { map as_ticker places.new.items ≡ slice_set (map as_ticker places.old.items) at (as_ticker place) }
    ensures len { vec_len places.new ≡ vec_len places.old }
    ensures room { vec_capacity places.new ≡ vec_capacity places.old }
{
    mem::replace(&mut places[at], place).let_go();
}
