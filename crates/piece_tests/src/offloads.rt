//! Work for threads: in each order on one thread, beside a model, and between threads.
ghost use Rattle.std.specs.Prelude.{◌<◌};

mod alone;
mod orders;

use crate::scene::{Scene, played};
use async_task::NoMemory;
use blocking::{ThreadWaker, block_on};
use offload::{Offload, RunError, TryRunError, Work};
use std::alloc::Global;
use std::sync::atomic::AtomicU64;
use std::sync::atomic::Ordering::SeqCst;
use std::sync::{Arc, Wait};
use std::{io, thread};

/// Work that is counted once it is done. Twice its number comes of it.
#[derive(Drop)]
struct Double {
    number: u64,
    done: Arc<AtomicU64>,
}

impl Work for Double {
    type Output = u64;

    fn work(self) -> u64 {
        self.done.fetch_add(1, SeqCst);
        self.number.saturating_mul(2)
    }
}

fn counted(number: u64, done: &Arc<AtomicU64>) -> Result<Double, NoMemory> {
    match Arc::try_clone(done) {
        Ok(done) => Ok(Double { number, done }),
        Err(_) => Err(NoMemory),
    }
}

/// What threads do.
#[derive(Clone, Copy)]
enum Play {
    /// Three serve while four ask for 200 doubles each, and await them.
    Ask,
    /// Two serve while two try to hand work in, until one closes it.
    Try,
    /// Three wait for a place that nobody frees, until one closes it.
    Close,
}

impl Play {
    /// How many places there are for work.
    fn places(self) -> usize
        ensures { 0 < result }
    {
        match self {
            Play::Ask => 2,
            Play::Try => 8,
            Play::Close => 1,
        }
    }

    fn threads(self) -> usize {
        match self {
            Play::Ask => 7,
            Play::Try | Play::Close => 4,
        }
    }
}

/// Where work is handed in, and how much was done.
#[derive(Drop)]
struct Office<R: Wait + Copy + Drop> {
    play: Play,
    rt: R,
    alloc: Global,
    offload: Offload<Double, ThreadWaker, R>,
    done: Arc<AtomicU64>,
    /// How many have asked for all that they ask for.
    ended: AtomicU64,
}

impl<R: Wait + Copy + Drop> Office<R> {
    fn new(rt: R, alloc: Global, play: Play) -> io::Result<Office<R>> {
        let done = Arc::new(alloc, AtomicU64::new(0))?;
        let offload = Offload::new(rt, alloc, play.places())?;
        Ok(Office {
            play,
            rt,
            alloc,
            offload,
            done,
            ended: AtomicU64::new(0),
        })
    }

    /// How a run ends of the double of this number.
    fn runs(&self, number: u64) -> Option<Result<u64, RunError<Double>>> {
        let Ok(job) = counted(number, &self.done) else {
            return None;
        };
        let Ok(run) = self.offload.run(job) else {
            return None;
        };
        block_on::<ThreadWaker, _, _>(&self.rt, self.alloc, run).ok()
    }

    /// The sum of its doubles. The last that ends closes.
    fn asks(&self) -> u64 {
        let mut sum = 0u64;
        for number in 1..=200 {
            if let Some(Ok(output)) = self.runs(number) {
                sum = sum.saturating_add(output);
            }
        }
        if self.ended.fetch_add(1, SeqCst) == 3 {
            self.offload.close();
        }
        sum
    }

    /// Whether this work is accepted; none once it is closed.
    fn tries_once(&self, number: u64) -> Option<bool> {
        let Ok(job) = counted(number, &self.done) else {
            return None;
        };
        match self.offload.try_run(job) {
            Ok(_answer) => Some(true),
            Err(TryRunError::Full(_job)) => Some(false),
            Err(_) => None,
        }
    }

    /// How much was accepted. One closes it midway.
    fn tries(&self, closes: bool) -> u64 {
        let mut accepted = 0u64;
        for number in 0..1_000 {
            match self.tries_once(number) {
                Some(true) => accepted = accepted.saturating_add(1),
                Some(false) => thread::yield_now(),
                None => return accepted,
            }
            if closes & (number == 600) {
                self.offload.close();
            }
        }
        accepted
    }

    /// The number of the work that came back.
    fn waits(&self) -> u64 {
        match self.runs(1) {
            Some(Err(RunError::Closed(job))) => job.number,
            _ => 0,
        }
    }

    /// Closes it once others may wait. Whether it was open.
    fn closes(&self) -> bool {
        for _ in 0..100 {
            thread::yield_now();
        }
        self.offload.close()
    }

    /// Whether all begin as they have to: where they wait for a place, work that nobody takes has it.
    fn begins(&self) -> bool {
        match self.play {
            Play::Ask | Play::Try => true,
            Play::Close => matches!(self.tries_once(9), Some(true)),
        }
    }

    /// Whether this is what all parts come to: each piece that was accepted was done once, and nothing else.
    fn is_well(&self, sum: u64) -> bool {
        let done = self.done.load(SeqCst);
        match self.play {
            Play::Ask => (sum == 4 * 40_200) & (done == 800),
            Play::Try => done == sum,
            Play::Close => (sum == 4) & (done == 0),
        }
    }
}

impl<R: Wait + Copy + Drop> Scene for Office<R> {
    fn act(&self, part: usize) -> u64 {
        match self.play {
            Play::Ask if part >= 3 => self.asks(),
            Play::Try if part >= 2 => self.tries(part == 2),
            Play::Close if part > 0 => self.waits(),
            Play::Close => self.closes() as u64,
            Play::Ask | Play::Try => {
                self.offload.serve();
                0
            }
        }
    }
}

#[test]
fn what_is_accepted_is_done_once(rt: HostRuntime) -> io::Result<()> {
    for play in [Play::Ask, Play::Try, Play::Close] {
        let office = Office::new(rt, rt.alloc(), play)?;
        assert!(rt; office.begins());
        let sum = played(&rt, rt.alloc(), &office, play.threads());
        assert!(rt; office.is_well(sum));
    }
    Ok(())
}
