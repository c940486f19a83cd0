//! What players share, and what stands beside them.

use orders::{Asking, Beside, FakeClock, FakeTime, Hands};
use std::alloc::Global;
use std::cell::Cell;
use std::io;
use std::rc::Rc;
use std::sync::Wait;
use timer::Timer;
use waiting::Event;
use waiting::channel::{self, Receiver, Sender};
use waiting::semaphore::Semaphore;

/// The runtime value. Not `Runtime` of `async_task`: a closure in generic code doesn't know that its type has no lifetime.
pub trait WaitingRuntime: Wait + Copy + Drop {}

impl<R: Wait + Copy + Drop> WaitingRuntime for R {}

/// What players share.
#[derive(Drop)]
pub struct World<R: WaitingRuntime, N: Hands + Copy + Drop> {
    pub total: Cell<u64>,
    pub log: Cell<u64>,
    pub done: Cell<u64>,
    pub is_raised: Cell<bool>,
    pub event: Event<Asking, R>,
    pub first: Semaphore<Asking, R>,
    pub second: Semaphore<Asking, R>,
    pub sender: Sender<u64, Asking, Asking, R>,
    pub receiver: Receiver<u64, Asking, Asking, R>,
    pub timer: Timer<Asking, FakeClock<R, N>>,
}

/// What stands in a world at a right end.
#[derive(Clone, Copy, Debug, PartialEq, Eq, Drop)]
pub struct Outcome {
    pub total: u64,
    pub log: u64,
    pub done: u64,
    /// How many permits of both locks are free.
    pub free: u64,
    /// How many messages weren't received.
    pub left: usize,
}

/// A world, with its clock.
#[derive(Drop)]
pub struct Setting<R: WaitingRuntime, N: Hands + Copy + Drop> {
    pub world: Rc<World<R, N>, Global>,
    time: FakeTime<R, N>,
}

impl<R: WaitingRuntime, N: Hands + Copy + Drop> Setting<R, N> {
    /// A world where nothing was done, and each lock has a permit.
    pub fn new(rt: R, alloc: Global, now: N) -> io::Result<Self> {
        let time = FakeTime::new(rt, alloc, now, 4)?;
        let (sender, receiver) = channel::bounded(rt, alloc, 4)?;
        let world = World {
            total: Cell::new(0),
            log: Cell::new(0),
            done: Cell::new(0),
            is_raised: Cell::new(false),
            event: Event::new(rt, alloc)?,
            first: Semaphore::new(rt, alloc, 1)?,
            second: Semaphore::new(rt, alloc, 1)?,
            sender,
            receiver,
            timer: time.timer().clone()?,
        };
        Ok(Setting {
            world: Rc::new(alloc, world)?,
            time,
        })
    }

    /// What stands there now.
    pub fn outcome(&self) -> Outcome {
        let world = &*self.world;
        let first = world.first.available_permits();
        let second = world.second.available_permits();
        Outcome {
            total: world.total.get(),
            log: world.log.get(),
            done: world.done.get(),
            free: first.saturating_add(second),
            left: world.receiver.len(),
        }
    }
}

impl<R: WaitingRuntime, N: Hands + Copy + Drop> Beside for Setting<R, N> {
    fn may_step(&self) -> bool {
        self.time.may_step()
    }

    fn step(&mut self) {
        self.time.step();
    }
}
