//! A clock that stands still but for steps, and a timer by it.

use crate::asking::Asking;
use crate::beside::Beside;
use std::alloc::Global;
use std::cell::Cell;
use std::io;
use std::sync::Wait;
use std::time::{Clock, Duration};
use timer::{Timer, TimerError, Turned};

/// Where a fake clock's time stands, in nanoseconds: a cell that was leaked. A trait, so that code over any runtime type has no
/// reference in its types.
pub trait Hands {
    /// The time.
    fn nanos(&self) -> u64;

    /// It is so late now.
    fn turn_to(&self, nanos: u64);
}

impl Hands for &'static Cell<u64> {
    fn nanos(&self) -> u64 {
        self.get()
    }

    fn turn_to(&self, nanos: u64) {
        self.set(nanos);
    }
}

/// A runtime value whose clock stands where its hands do. It waits as the one that it is made of.
#[derive(Clone, Copy, Drop)]
pub struct FakeClock<R, N> {
    rt: R,
    now: N,
}

impl<R, N> FakeClock<R, N> {
    /// Of the time of these hands.
    pub fn new(rt: R, now: N) -> Self {
        FakeClock { rt, now }
    }
}

impl<R: Wait, N> Wait for FakeClock<R, N> {}

impl<R, N: Hands> Clock for FakeClock<R, N> {
    fn monotonic(&self) -> io::Result<Duration> {
        Ok(Duration::from_nanos(self.now.nanos()))
    }

    fn since_1970(&self) -> io::Result<Duration> {
        Ok(Duration::from_nanos(self.now.nanos()))
    }
}

/// A timer, and its clock. A step goes on to when the next sleeper is due, and tells all who are due then.
#[derive(Drop)]
pub struct FakeTime<R: Wait + Copy + Drop, N: Hands + Copy + Drop> {
    now: N,
    timer: Timer<Asking, FakeClock<R, N>>,
}

impl<R: Wait + Copy + Drop, N: Hands + Copy + Drop> FakeTime<R, N> {
    /// A timer for so many sleepers, whose clock stands at 0. The hands may be used again once the one before is gone. It takes the
    /// memory of `Timer::new`.
    pub fn new(rt: R, alloc: Global, now: N, sleepers: usize) -> Result<Self, TimerError> {
        now.turn_to(0);
        let timer = Timer::new(FakeClock::new(rt, now), alloc, sleepers)?;
        Ok(FakeTime { now, timer })
    }

    /// The timer, for those who sleep.
    pub fn timer(&self) -> &Timer<Asking, FakeClock<R, N>> {
        &self.timer
    }

    /// The time in nanoseconds.
    pub fn now(&self) -> u64 {
        self.now.nanos()
    }
}

impl<R: Wait + Copy + Drop, N: Hands + Copy + Drop> Beside for FakeTime<R, N> {
    /// Whether somebody sleeps. It tells those who are due.
    fn may_step(&self) -> bool {
        matches!(self.timer.turn(), Turned::In(_))
    }

    fn step(&mut self) {
        if let Turned::In(rest) = self.timer.turn() {
            let passed = u64::try_from(rest.as_nanos()).unwrap_or(u64::MAX);
            self.now.turn_to(self.now.nanos().saturating_add(passed));
            let _ = self.timer.turn();
        }
    }
}
