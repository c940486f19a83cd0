//! A future that does acts.

use crate::acts::{Act, Lock};
use crate::world::{WaitingRuntime, World};
use async_task::{Future, Poll, Wake};
use orders::{Asking, FakeClock, Hands};
use std::alloc::Global;
use std::rc::Rc;
use timer::Sleep;
use waiting::Listener;
use waiting::channel::Receiver;
use waiting::semaphore::{Acquire, Permit};

/// A future that does acts, one after the other, in a world.
#[derive(Drop)]
pub struct Player<R: WaitingRuntime, N: Hands + Copy + Drop> {
    pub world: Rc<World<R, N>, Global>,
    acts: Vec<Act>,
    at: usize,
    read: u64,
    pub has_yielded: bool,
    pub listener: Option<Listener<Asking, R>>,
    pub sleep: Option<Sleep<Asking, FakeClock<R, N>>>,
    pub receiver: Option<Receiver<u64, Asking, Asking, R>>,
    pub acquire: Option<Acquire<Asking, R>>,
    pub first: Option<Permit<Asking, R>>,
    pub second: Option<Permit<Asking, R>>,
}

/// How a player ended.
#[derive(Clone, Copy, Debug, Drop)]
pub enum Ended {
    Played,
    NoMemory,
}

/// How an act went.
#[derive(Clone, Copy, Drop)]
pub enum Progress {
    /// It is done.
    On,
    /// It is done, and so many behind it are passed over.
    Past(usize),
    /// It waits.
    Waits,
    /// Memory was refused.
    NoMemory,
}

impl<R: WaitingRuntime, N: Hands + Copy + Drop> Player<R, N> {
    /// A player who does these acts.
    pub fn new(world: Rc<World<R, N>, Global>, acts: Vec<Act>) -> Self {
        Player {
            world,
            acts,
            at: 0,
            read: 0,
            has_yielded: false,
            listener: None,
            sleep: None,
            receiver: None,
            acquire: None,
            first: None,
            second: None,
        }
    }

    /// Does an act, or begins to wait for its end.
    fn does(&mut self, act: Act, waker: &Asking) -> Progress {
        match act {
            Act::Read => self.read = self.world.total.get(),
            Act::Write => self.world.total.set(self.read.saturating_add(1)),
            Act::Raise => self.world.is_raised.set(true),
            Act::PassIfRaised(acts) => {
                if self.world.is_raised.get() {
                    return Progress::Past(acts);
                }
            }
            Act::Note(digit) => {
                let log = self.world.log.get();
                self.world
                    .log
                    .set(log.saturating_mul(10).saturating_add(digit));
            }
            Act::Done => self.world.done.set(self.world.done.get().saturating_add(1)),
            Act::Notify => {
                self.world.event.notify();
            }
            Act::NotifyAll => {
                self.world.event.notify_all();
            }
            Act::Add(lock) => self.lock(lock).add_permits(1),
            Act::Give(Lock::First) => drop(self.first.take()),
            Act::Give(Lock::Second) => drop(self.second.take()),
            Act::Send => drop(self.world.sender.try_send(1)),
            Act::Close => {
                self.world.sender.close();
            }
            _ => return self.waits(act, waker),
        }
        Progress::On
    }
}

impl<R: WaitingRuntime, N: Hands + Copy + Drop> Future<Asking> for Player<R, N> {
    type Output = Ended;

    fn poll(&mut self, waker: &Asking) -> Poll<Ended> {
        for _ in 0..self.acts.len() {
            let Some(act) = self.acts.get(self.at).copied() else {
                break;
            };
            let passed = match self.does(act, waker) {
                Progress::On => 1,
                Progress::Past(acts) => acts.saturating_add(1),
                Progress::Waits => return Poll::Pending,
                Progress::NoMemory => return Poll::Ready(Ended::NoMemory),
            };
            self.at = self.at.saturating_add(passed);
        }
        Poll::Ready(Ended::Played)
    }
}
