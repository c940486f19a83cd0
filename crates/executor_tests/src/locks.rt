//! Code of a user runs while no lock of the executor is held: futures and wakers that wait, in each of their calls, until
//! another thread has taken each lock. A lock that is held lets the wait come to its bound.
use crate::parts::Work;
use crate::stage::{End, MOST_TURNS, OWN, Planned, Stage};
use async_task::Runtime;
use std::process::Abort;
use std::sync::atomic::Ordering::SeqCst;
use std::sync::atomic::{AtomicBool, AtomicU64};
use std::thread;

/// What one thread asks of the other.
#[derive(Default, Drop)]
pub struct Asks {
    asked: AtomicU64,
    answered: AtomicU64,
    missed: AtomicU64,
    /// Whether the other thread is there.
    is_on: AtomicBool,
}

impl Asks {
    pub fn are_on(&self) -> bool {
        self.is_on.load(SeqCst)
    }

    /// Waits until the other thread has taken each lock, and given it back. It counts where that never came. The future of the run
    /// by which the locks are taken asks nothing.
    pub fn ask(&self, name: u64) {
        if !self.are_on() | (name == OWN) {
            return;
        }
        let asked = self.asked.fetch_add(1, SeqCst);
        for _ in 0..MOST_TURNS {
            if self.answered.load(SeqCst) > asked {
                return;
            }
            thread::yield_now();
        }
        self.missed.fetch_add(1, SeqCst);
    }
}

impl<F: Planned<R>, R: Runtime + Abort> Stage<F, R> {
    /// Takes each lock of the executor when it is asked: the table's, the sleepers', and that of the runs' queues. Answers whether
    /// it was asked to stop.
    pub fn takes_locks(&self) -> bool {
        let asks = &self.notes.asks;
        for _ in 0..MOST_TURNS {
            if !asks.are_on() {
                return true;
            }
            let asked = asks.asked.load(SeqCst);
            if asks.answered.load(SeqCst) < asked {
                let _ = self.is_empty();
                drop(self.tick());
                drop(self.run(Work::Pend, 0));
                asks.answered.store(asked, SeqCst);
            }
            thread::yield_now();
        }
        false
    }

    /// Ticks when a poll asks, and then lets that poll go on. Says whether it ran a future.
    pub fn tick_when_asked(&self) -> bool {
        let asks = &self.notes.asks;
        for _ in 0..MOST_TURNS {
            if asks.asked.load(SeqCst) > 0 {
                let has_ticked = self.try_tick();
                asks.answered.store(u64::MAX, SeqCst);
                return has_ticked;
            }
            thread::yield_now();
        }
        false
    }

    /// Spawns a future that asks in its poll, and one that is ready and asks nothing, and says whether one tick is all that is
    /// left for this thread.
    pub fn tick_the_first_of_two(&self) -> bool {
        self.notes.asks.is_on.store(true, SeqCst);
        let Some(task) = self.spawn(self.job(0, Work::Pend)) else {
            return false;
        };
        let is_well = self.spawn_detached(self.ready(OWN)) & self.try_tick() & !self.try_tick();
        self.notes.asks.is_on.store(false, SeqCst);
        self.drop_handle(task);
        is_well & self.try_tick() & self.is_empty()
    }

    /// Lets a tick fall asleep and be notified, cancels what it polled, and answers whether all was as it has to be.
    fn tick_and_ask(&self) -> bool {
        let mut tick = self.tick();
        let lies = (self.poll(&mut tick) == End::Pending) & (self.poll(&mut tick) == End::Pending);
        let Some(task) = self.spawn(self.job(0, Work::Pend)) else {
            return false;
        };
        let is_ready = self.poll(&mut tick) == End::Ready;
        self.drop_handle(task);
        lies & is_ready & self.try_tick()
    }

    /// Asks from now on.
    pub fn ask_from_now(&self) -> bool {
        self.notes.asks.is_on.store(true, SeqCst);
        true
    }

    /// Whether the other thread was asked so often at least, and took all locks each time.
    pub fn has_asked(&self, least: u64) -> bool {
        let asks = &self.notes.asks;
        (asks.missed.load(SeqCst) == 0) & (asks.asked.load(SeqCst) >= least)
    }

    /// Makes all calls that lead to code of a user.
    pub fn ask_all(&self) -> bool {
        let has_ticked = self.tick_and_ask();
        let mut run = self.run_of(self.job(1, Work::Pend), 0);
        let is_well = has_ticked & (self.poll(&mut run) == End::Pending);
        drop(run);
        self.notes.asks.is_on.store(false, SeqCst);
        is_well
    }
}
