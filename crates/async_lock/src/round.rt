//! The waiters for one event that comes to all at once, round after round.
ghost use Rattle.async_lock.specs.Rounds.{HasLeft, HasLooked, HasSat};
ghost use Rattle.std.specs.Prelude.{◌≡◌, ◌+◌, ◌%◌, ◌^◌, [], length};

use async_task::Wake;
use std::alloc::Global;
use std::mem;
use waiting::parts::{Left, Listening, Looked, Waiters};

/// The waiters for the end of a round, with the wakers that they left last. It ends for all of them at once. Each call is one
/// section of whoever locks it; only `sit` takes memory. No call calls or drops a waker: the caller calls or drops each waker that
/// comes out, once it has released the lock.
#[derive(Drop)]
pub struct Round<K> {
    // Which round it is, wrapping.
    number: u64,
    waiters: Waiters<K>,
    alloc: Global,
}

/// The seat of a waiter for the end of a round. It has no drop: its owner looks or leaves.
#[must_use]
pub struct Seat {
    round: u64,
    listening: Listening,
}

/// What a waiter found.
#[must_use]
pub enum Seen<K> {
    /// The round isn't over. The waker that it had left before, to be dropped once the lock is released.
    Waits(Seat, Option<K>),
    /// The round is over, and it waits no more. The waker that it wanted to leave comes back.
    Over(Passed, Option<K>),
}

/// Proof that a round is over for which a waiter waited.
#[derive(Drop)]
pub struct Passed {
    // Only this module makes one.
    own: (),
}

/// The waiters for a round that is over. It has no drop: all of them have to be woken.
#[must_use]
pub struct Ended<K> {
    waiters: Waiters<K>,
}

/// Proof that a round was ended, and all its waiters were woken.
#[derive(Drop)]
pub struct WokeAll {
    own: (),
}

impl<K: Drop> Round<K> {
    /// Makes the first round, for whose end nobody waits. Takes no memory.
    pub fn new(alloc: Global) -> Self
        ensures number { result.number ≡ 0 }
        ensures nobody { result.waiters ≡ record { next = 0; waiting = [] } }
    {
        Round {
            number: 0,
            waiters: Waiters::new(alloc),
            alloc,
        }
    }

    /// How many wait for its end.
    pub fn len(&self) -> usize
        ensures { result ≡ length self.now.waiters.waiting }
    {
        self.waiters.len()
    }

    /// Adds a waiter for its end, which leaves this waker. For want of memory the waker comes back.
    pub fn sit(&mut self, waker: Option<K>) -> Result<Seat, Option<K>>
        ensures sat { HasSat waker self.old.number self.old.waiters self.new.waiters result }
        ensures number { self.new.number ≡ self.old.number }
    {
        let Ok(listening) = self.waiters.listen() else {
            return Err(waker);
        };
        match self.waiters.look(listening, waker) {
            Looked::Waits(listening, _none) => Ok(Seat {
                round: self.number,
                listening,
            }),
            Looked::Told(_call, _waker) => unreachable!(),
        }
    }

    /// Whether the round is over for which it waits. Where it isn't, it leaves this waker in the place of the one before.
    pub fn look(&mut self, seat: Seat, waker: Option<K>) -> Seen<K>
        ensures seen { HasLooked seat self.old.number waker self.old.waiters self.new.waiters result }
        ensures number { self.new.number ≡ self.old.number }
    {
        let Seat { round, listening } = seat;
        if round != self.number {
            self.forget(listening);
            return Seen::Over(Passed { own: () }, waker);
        }
        match self.waiters.look(listening, waker) {
            Looked::Waits(listening, before) => Seen::Waits(Seat { round, listening }, before),
            Looked::Told(call, waker) => {
                let _told = call.take();
                Seen::Over(Passed { own: () }, waker)
            }
        }
    }

    /// Waits no more. Answers its waker, to be dropped once the lock is released; none where the round is over.
    pub fn leave(&mut self, seat: Seat) -> Option<K>
        ensures left { HasLeft seat self.old.number self.old.waiters self.new.waiters result }
        ensures number { self.new.number ≡ self.old.number }
    {
        let Seat { round, listening } = seat;
        if round != self.number {
            self.forget(listening);
            return None;
        }
        match self.waiters.leave(listening) {
            Left::Untold(waker) => waker,
            Left::Told(call) => {
                let _told = call.take();
                None
            }
        }
    }

    /// A number of a list that is no longer there.
    fn forget(&self, listening: Listening) {
        match Waiters::<K>::new(self.alloc).leave(listening) {
            Left::Untold(_waker) => {}
            Left::Told(call) => {
                let _told = call.take();
            }
        }
    }

    /// Ends the round, and begins the next, for whose end nobody waits.
    pub fn end(&mut self) -> Ended<K>
        ensures waited { result.waiters ≡ self.old.waiters }
        ensures nobody { self.new.waiters ≡ record { next = 0; waiting = [] } }
        ensures number { self.new.number ≡ (self.old.number + 1) % 2 ^ 64 }
    {
        self.number = self.number.wrapping_add(1);
        let waiters = mem::replace(&mut self.waiters, Waiters::new(self.alloc));
        Ended { waiters }
    }
}

impl<K: Wake + Drop> Ended<K> {
    /// Wakes all waiters.
    pub fn wake_all(self) -> WokeAll {
        let Ended { waiters } = self;
        let mut waiters = waiters;
        for _ in 0..waiters.len() {
            if let Some(Some(waker)) = waiters.tell() {
                waker.wake();
            }
        }
        WokeAll { own: () }
    }
}
