//! Permits that are counted, and the waiters for a permit.
ghost use Rattle.std.specs.Prelude.{◌≡◌, ◌+◌, ◌<◌, [], false, min, not};
ghost use Rattle.waiting.specs.Permits.{HasAdded, HasCome, HasFound, HasGivenBack, HasGivenUp, HasTaken, all_of, closed, first_left};
ghost use Rattle.waiting.specs.Permits.{HasPassedOn, HasRedeemed, forgotten, given, most};

use crate::waiters::{Left, Listening, Looked, Waiters};
use async_task::Wake;
use std::alloc::Global;
use std::marker::Model;
use std::mem;

/// Permits, each of which is free, promised to a waiter, or held; at most 2^64 - 1 in all. Nobody waits while one is free: a
/// permit that comes is promised to the waiter that came first. Each call is one section of whoever locks them; only `come` and
/// `look` take memory. No call calls or drops a waker: the caller calls or drops each waker that comes out, once it has released
/// the lock.
#[derive(Drop)]
pub struct Permits<K> {
    free: u64,
    // How many waiters were notified and haven't looked since.
    promised: u64,
    held: u64,
    is_closed: bool,
    alloc: Global,
    waiters: Waiters<K>,
}

/// A permit that is held. It has no drop: it is given back, or forgotten.
#[must_use]
pub struct Held {
    // Only this module makes one.
    own: (),
}

/// Proof that the permits were found closed. They stay closed.
#[derive(Drop)]
pub struct NoMore {
    // Only this module makes one.
    own: (),
}

/// Why there is no permit at once.
pub enum Refused {
    /// None is free.
    NoPermits,
    /// None is given any more.
    Closed(NoMore),
}

/// What a caller that wants a permit found.
#[must_use]
pub enum Found<K> {
    /// It has one. The waker that it wanted to leave comes back.
    Taken(Held, Option<K>),
    /// It waits. The waker that it had left before, to be dropped once the lock is released.
    Waits(Listening, Option<K>),
    /// None is given any more. The waker that it wanted to leave comes back.
    Closed(NoMore, Option<K>),
    /// There is no memory for a place among the waiters. The waker that it wanted to leave comes back.
    NoMemory(Option<K>),
}

/// How a waiter gave up.
#[must_use]
pub enum GaveUp<K> {
    /// Nothing was promised to it. Its waker, to be dropped once the lock is released.
    Untold(Option<K>),
    /// What was promised to it went on to the next.
    Told(Promise<K>),
}

/// To whom a permit was promised, if to anyone. It has no drop: that waiter has to be notified.
#[must_use]
pub struct Promise<K> {
    waker: Option<K>,
}

/// The waiters at the time when the permits were closed. It has no drop: all of them have to be notified.
#[must_use]
pub struct Closing<K> {
    was_open: bool,
    waiters: Waiters<K>,
}

impl<K> Model for Permits<K> {
    ghost use Rattle.waiting.specs.Permits.{IsWell, Permits as Account, permits_code};

    ghost Value = { Account K };

    ghost coded = { permits_code K.code };

    ghost view = { λ p. record { free = p.free; promised = p.promised; held = p.held; is_closed = p.is_closed; waiters = p.waiters } };

    ghost invariant = { λ p. IsWell p.free p.promised p.held p.is_closed p.waiters.waiting };
}

impl<K: Drop> Permits<K> {
    /// This many permits are free, and nobody waits. Takes no memory.
    pub fn new(alloc: Global, permits: u64) -> Self
        ensures { result ≡ record {
          free = permits;
          promised = 0;
          held = 0;
          is_closed = false;
          waiters = record { next = 0; waiting = [] };
        } }
    {
        Permits {
            free: permits,
            promised: 0,
            held: 0,
            is_closed: false,
            alloc,
            waiters: Waiters::new(alloc),
        }
    }

    /// How many are free. Where one is, nobody waits.
    pub fn free(&self) -> u64
        ensures free { result ≡ self.now.free }
        ensures nobody { 0 < result → self.now.waiters.waiting ≡ [] }
    {
        self.free
    }

    /// Whether the permits are closed. Then nobody waits, and none is promised.
    pub fn is_closed(&self) -> bool
        ensures { result ≡ self.now.is_closed }
    {
        self.is_closed
    }

    /// Takes a free permit.
    pub fn take(&mut self) -> Result<Held, Refused>
        ensures taken { HasTaken self.old self.new result }
        ensures all { all_of self.new ≡ all_of self.old }
    {
        if self.is_closed {
            return Err(Refused::Closed(NoMore { own: () }));
        }
        if self.free == 0 {
            return Err(Refused::NoPermits);
        }
        self.free -= 1;
        self.held += 1;
        Ok(Held { own: () })
    }

    /// Takes a free permit. Where none is free it waits, the last of all, and leaves this waker.
    pub fn come(&mut self, waker: Option<K>) -> Found<K>
        ensures found { HasCome waker self.old self.new result }
        ensures all { all_of self.new ≡ all_of self.old }
    {
        match self.take() {
            Ok(held) => return Found::Taken(held, waker),
            Err(Refused::Closed(no_more)) => return Found::Closed(no_more, waker),
            Err(Refused::NoPermits) => {}
        }
        let Ok(listening) = self.waiters.listen() else {
            return Found::NoMemory(waker);
        };
        match self.waiters.look(listening, waker) {
            Looked::Waits(listening, before) => Found::Waits(listening, before),
            Looked::Told(_call, _waker) => unreachable!(),
        }
    }

    /// Takes the permit that was promised to it. Where none was, it waits on, with this waker in the place of the one before.
    pub fn look(&mut self, listening: Listening, waker: Option<K>) -> Found<K>
        ensures found { HasFound listening.number waker self.old self.new result }
        ensures all { all_of self.new ≡ all_of self.old }
    {
        match self.waiters.look(listening, waker) {
            Looked::Waits(listening, before) => Found::Waits(listening, before),
            Looked::Told(call, waker) => {
                let _told = call.take();
                self.redeem(waker)
            }
        }
    }

    /// Takes a promised permit. Where none is promised, as after a close, it does as a new caller does.
    fn redeem(&mut self, waker: Option<K>) -> Found<K>
        ensures found { HasRedeemed self.old.promised waker self.old self.new result }
        ensures all { all_of self.new ≡ all_of self.old }
    {
        if self.promised == 0 {
            return self.come(waker);
        }
        self.promised -= 1;
        self.held += 1;
        Found::Taken(Held { own: () }, waker)
    }

    /// Waits no more. A permit that was promised to it goes to the next.
    pub fn give_up(&mut self, listening: Listening) -> GaveUp<K>
        ensures gave_up { HasGivenUp listening.number self.old self.new result }
        ensures all { all_of self.new ≡ all_of self.old }
    {
        match self.waiters.leave(listening) {
            Left::Untold(waker) => GaveUp::Untold(waker),
            Left::Told(call) => {
                let _told = call.take();
                GaveUp::Told(self.pass_on())
            }
        }
    }

    /// Passes a promised permit on to the waiter that came first, if one was promised.
    fn pass_on(&mut self) -> Promise<K>
        ensures passed_on { HasPassedOn self.old.promised self.old self.new result.waker }
        ensures all { all_of self.new ≡ all_of self.old }
    {
        if self.promised == 0 {
            return Promise { waker: None };
        }
        self.promised -= 1;
        self.give()
    }

    /// Gives a held permit back.
    pub fn give_back(&mut self, held: Held) -> Promise<K>
        ensures given_back { HasGivenBack self.old self.new result.waker }
        ensures all { all_of self.new ≡ all_of self.old }
    {
        let Held { own: () } = held;
        if self.held == 0 {
            return Promise { waker: None };
        }
        self.held -= 1;
        self.give()
    }

    /// Adds one permit: it is promised to the waiter that came first, or is free.
    fn give(&mut self) -> Promise<K>
        requires { all_of self.old < most }
        ensures given { self.new ≡ given self.old }
        ensures first { result.waker ≡ first_left self.old.waiters.waiting }
    {
        match self.waiters.tell() {
            Some(waker) => {
                self.promised += 1;
                Promise { waker }
            }
            None => {
                self.free += 1;
                Promise { waker: None }
            }
        }
    }

    /// Removes a held permit for good.
    pub fn forget(&mut self, held: Held)
        ensures forgotten { self.new ≡ forgotten self.old }
        ensures all { 0 < self.old.held → all_of self.new + 1 ≡ all_of self.old }
    {
        let Held { own: () } = held;
        self.held = self.held.saturating_sub(1);
    }

    /// Adds this many permits, up to 2^64 - 1 in all. One is promised to the waiter that came first; where nobody waits all are
    /// free. Answers how many are still to be added.
    pub fn add(&mut self, permits: u64) -> (Promise<K>, u64)
        ensures added { HasAdded permits self.old self.new result.0.waker result.1 }
        ensures all { all_of self.new + result.1 ≡ min most (all_of self.old + permits) }
    {
        let room = u64::MAX - self.free - self.promised - self.held;
        let more = permits.min(room);
        if more == 0 {
            return (Promise { waker: None }, 0);
        }
        match self.waiters.tell() {
            Some(waker) => {
                self.promised += 1;
                (Promise { waker }, more - 1)
            }
            None => {
                self.free += more;
                (Promise { waker: None }, 0)
            }
        }
    }

    /// Closes the permits. What was promised is free, and all waiters have to be notified.
    pub fn close(&mut self) -> Closing<K>
        ensures was_open { result.was_open ≡ not self.old.is_closed }
        ensures waited { result.waiters ≡ self.old.waiters }
        ensures closed { self.new ≡ closed self.old }
        ensures all { all_of self.new ≡ all_of self.old }
    {
        let was_open = !self.is_closed;
        self.is_closed = true;
        self.free += self.promised;
        self.promised = 0;
        let waiters = mem::replace(&mut self.waiters, Waiters::new(self.alloc));
        Closing { was_open, waiters }
    }
}

impl<K: Wake> Promise<K> {
    /// Notifies the waiter to whom a permit was promised.
    pub fn tell(self) {
        let Promise { waker } = self;
        if let Some(waker) = waker {
            waker.wake();
        }
    }
}

impl<K: Wake + Drop> Closing<K> {
    /// Notifies all who waited. Answers whether the permits were open.
    pub fn tell(self) -> bool
        ensures { result ≡ self.was_open }
    {
        let Closing { was_open, waiters } = self;
        let mut waiters = waiters;
        for _ in 0..waiters.len() {
            if let Some(Some(waker)) = waiters.tell() {
                waker.wake();
            }
        }
        was_open
    }
}
