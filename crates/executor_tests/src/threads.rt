//! What threads do that really overlap. One whose loop passes its bound says so.
use crate::parts::{Counts, Meddler, Work};
use crate::stage::{End, MOST_TURNS, Planned, Stage};
use async_task::Runtime;
use std::process::Abort;
use std::sync::atomic::AtomicU64;
use std::sync::atomic::Ordering::SeqCst;
use std::thread;

/// How often a tick waits for a spawn. Each time two threads give way to each other, and so to all that the machine does.
pub const ROUNDS: u64 = 2_000;

/// How many futures await, cancel and detach each other.
pub const CHAIN: u64 = 40_000;

impl<F: Planned<R>, R: Runtime + Abort> Stage<F, R> {
    /// Ticks until the executor is empty, and says whether it came to that.
    pub fn tick_until_empty(&self) -> bool {
        for _ in 0..MOST_TURNS {
            if !self.try_tick() {
                if self.is_empty() {
                    return true;
                }
                thread::yield_now();
            }
        }
        false
    }

    /// Polls a run and gives way until the executor is empty, and says whether it came to that.
    pub fn run_until_empty(&self, seed: u64) -> bool {
        let mut run = self.run(Work::Pend, seed);
        for _ in 0..MOST_TURNS {
            if self.poll(&mut run) != End::Pending {
                return false;
            }
            if self.is_empty() {
                return true;
            }
            thread::yield_now();
        }
        false
    }

    /// Spawns futures of the names from 0 on, each of which wakes itself once, and gives their handles up.
    pub fn spawn_all(&self, names: u64) -> bool {
        for name in 0..names {
            let future = self.job(name, Work::Yield(1, name));
            if !self.spawn_detached(future) {
                return false;
            }
        }
        true
    }

    /// Spawns futures of the names from 0 on, each of which has the handle of the one before, drops the last one's, which cancels
    /// that one, and says whether there was one.
    pub fn spawn_chain(&self, names: u64) -> bool {
        let mut other = None;
        for name in 0..names {
            let meddler = Meddler {
                has_given_way: false,
                other,
            };
            other = self.spawn(self.job(name, Work::Meddle(meddler)));
        }
        match other {
            Some(last) => {
                self.drop_handle(last);
                true
            }
            None => false,
        }
    }

    /// Polls a tick each time that its waker was called, as often as there are rounds, and says whether it came to that.
    pub fn tick_when_called(&self, slumbering: &AtomicU64, rounds: u64) -> bool {
        let mut tick = self.tick();
        for round in 0..rounds {
            if self.poll(&mut tick) != End::Pending {
                return false;
            }
            let called = self.rings();
            slumbering.store(round.saturating_add(1), SeqCst);
            if !passes(&self.notes.rings, called) | (self.poll(&mut tick) != End::Ready) {
                return false;
            }
        }
        true
    }

    /// Spawns a future each time that the tick sleeps, as often as there are rounds, and says whether it came to that.
    pub fn spawn_when_asleep(&self, slumbering: &AtomicU64, rounds: u64) -> bool {
        for round in 0..rounds {
            if !passes(slumbering, round) || !self.spawn_detached(self.ready(0)) {
                return false;
            }
        }
        true
    }
}

/// Waits until the number has passed this one, and says whether it did.
fn passes(number: &AtomicU64, last: u64) -> bool {
    for _ in 0..MOST_TURNS {
        if number.load(SeqCst) > last {
            return true;
        }
        thread::yield_now();
    }
    false
}

/// How many outputs were made; none where not all is well. Each future was dropped once, it gave one output at most, and that
/// was dropped once, wherever it went. No two polls of one overlapped. So many polls are wanted of each, where it is said.
pub fn outputs(counts: &[Counts], polls: Option<u64>) -> Option<u64> {
    let mut outputs = 0u64;
    for each in counts {
        let (made, polled) = (each.made.load(SeqCst), each.polls.load(SeqCst));
        let is_well = (each.overlaps.load(SeqCst) == 0)
            & (each.drops.load(SeqCst) == 1)
            & (made <= 1)
            & (each.lost.load(SeqCst) == made)
            & (polls.unwrap_or(polled) == polled);
        if !is_well {
            return None;
        }
        outputs = outputs.saturating_add(made);
    }
    Some(outputs)
}
