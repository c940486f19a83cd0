//! One way of a source: whether it is ready, and the waiter for it.
ghost use Rattle.std.specs.Prelude.{◌≡◌, ◌≢◌, ◌+◌, ◌%◌, ◌^◌, None};
ghost use Rattle.reactor.specs.declared.parts.side.Readiness.TheVariants as way;
ghost use Rattle.reactor.specs.Sides.{HasChecked, HasLooked, closed, emptied, ended, rung, waker_left};

use crate::parts::attempt::{Ready, Stale};
use async_task::Wake;
use std::mem;

/// Whether a way is ready. A way that is ready holds no waker, nor does a closed one.
#[derive(Drop)]
pub enum Readiness<K> {
    /// A read or a write is worth a try.
    Ready,
    /// Each is worth a try from now on: the last event has come.
    Ended,
    /// The last one would have blocked, and nobody has left a waker.
    Blocked,
    /// The last one would have blocked, and this waker is to be called at the next event.
    Waited(K),
    /// The reactor no longer hears of it.
    Closed,
}

/// One way of a source, with a tick that changes at each event. Each call is one section of whoever locks it. No call takes
/// memory, and none calls or drops a waker. The caller calls or drops each waker that comes out, once it has released the lock.
#[derive(Drop)]
pub struct Side<K> {
    tick: u64,
    readiness: Readiness<K>,
}

/// The waiter that has to be woken, if there is one. It has no drop: it ends in `call`.
#[must_use]
pub struct Owed<K> {
    waker: Option<K>,
}

/// What a look without a waker finds.
#[must_use]
pub enum Checked {
    /// It is ready, at this tick.
    Ready(Ready),
    /// It isn't.
    Blocked,
    /// It is closed.
    Closed(Over),
}

/// What a waiter found.
#[must_use]
pub enum Looked<K> {
    /// It is ready, at this tick. The waker that wasn't left.
    Ready(Ready, K),
    /// It isn't, and the waker was left. The one that was left before, to be dropped once the lock is released.
    Waits(Parked, Option<K>),
    /// It is closed. The waker that wasn't left.
    Closed(Over, K),
}

/// Proof that a waker was left.
#[derive(Drop)]
pub struct Parked {
    // Only this module makes one.
    own: (),
}

/// Proof that the way was found closed. It stays closed.
#[derive(Debug, Drop)]
pub struct Over {
    // Only this module makes one.
    own: (),
}

/// Proof that a read or a write would have blocked, and that its way was cleared.
#[derive(Debug, Drop)]
pub struct WouldBlock {
    // Only this module makes one.
    own: (),
}

impl<K: Wake> Owed<K> {
    /// Wakes the waiter. No lock is held.
    pub fn call(self) {
        let Owed { waker } = self;
        if let Some(waker) = waker {
            waker.wake();
        }
    }
}

impl<K: Drop> Readiness<K> {
    /// The waiter that has to be woken.
    fn into_owed(self) -> Owed<K>
        ensures { result.waker ≡ waker_left self }
    {
        match self {
            Readiness::Waited(waker) => Owed { waker: Some(waker) },
            Readiness::Ready | Readiness::Ended | Readiness::Blocked | Readiness::Closed => {
                Owed { waker: None }
            }
        }
    }
}

impl<K: Drop> Side<K> {
    /// Makes a way that is ready, so that the first read or write is tried at once.
    pub fn new() -> Self
        ensures { result ≡ record { tick = 0; readiness = way.Ready } }
    {
        Side {
            tick: 0,
            readiness: Readiness::Ready,
        }
    }

    /// Whether it is ready.
    pub fn check(&self) -> Checked
        ensures { HasChecked self.now result }
    {
        match &self.readiness {
            Readiness::Ready | Readiness::Ended => Checked::Ready(Ready::at(self.tick)),
            Readiness::Closed => Checked::Closed(Over { own: () }),
            Readiness::Blocked | Readiness::Waited(_) => Checked::Blocked,
        }
    }

    /// Whether it is ready. Where it isn't, leaves this waker in the place of the one before.
    pub fn look(&mut self, waker: K) -> Looked<K>
        ensures { HasLooked waker self.old self.new result }
    {
        match mem::replace(&mut self.readiness, Readiness::Closed) {
            Readiness::Ready => {
                self.readiness = Readiness::Ready;
                Looked::Ready(Ready::at(self.tick), waker)
            }
            Readiness::Ended => {
                self.readiness = Readiness::Ended;
                Looked::Ready(Ready::at(self.tick), waker)
            }
            Readiness::Blocked => {
                self.readiness = Readiness::Waited(waker);
                Looked::Waits(Parked { own: () }, None)
            }
            Readiness::Waited(before) => {
                self.readiness = Readiness::Waited(waker);
                Looked::Waits(Parked { own: () }, Some(before))
            }
            Readiness::Closed => Looked::Closed(Over { own: () }, waker),
        }
    }

    /// Takes an event: it is ready, unless it is closed, and the tick changes. Answers the waiter that has to be woken.
    pub fn ring(&mut self) -> Owed<K>
        ensures rung { self.new ≡ rung self.old }
        ensures waker { result.waker ≡ waker_left self.old.readiness }
    {
        self.tick = self.tick.wrapping_add(1);
        let after = match &self.readiness {
            Readiness::Closed => Readiness::Closed,
            Readiness::Ended => Readiness::Ended,
            Readiness::Ready | Readiness::Blocked | Readiness::Waited(_) => Readiness::Ready,
        };
        mem::replace(&mut self.readiness, after).into_owed()
    }

    /// Takes the last event: it is ready from now on, unless it is closed, and the tick changes. Answers the waiter that has to be
    /// woken.
    pub fn end(&mut self) -> Owed<K>
        ensures ended { self.new ≡ ended self.old }
        ensures waker { result.waker ≡ waker_left self.old.readiness }
    {
        let owed = self.ring();
        if matches!(self.readiness, Readiness::Ready) {
            self.readiness = Readiness::Ended;
        }
        owed
    }

    /// A read or a write at this tick would have blocked, or the next would. So it is no longer ready, unless an event came since
    /// or the last one has come.
    pub fn clear(&mut self, stale: Stale) -> WouldBlock
        ensures same_tick { stale.tick ≡ self.old.tick → self.new ≡ emptied self.old }
        ensures event_came { stale.tick ≢ self.old.tick → self.new ≡ self.old }
    {
        if stale.into_tick() == self.tick && matches!(self.readiness, Readiness::Ready) {
            self.readiness = Readiness::Blocked;
        }
        WouldBlock { own: () }
    }

    /// Closes it: the reactor no longer hears of it. Answers the waiter that has to be woken.
    pub fn close(&mut self) -> Owed<K>
        ensures closed { self.new ≡ closed self.old }
        ensures waker { result.waker ≡ waker_left self.old.readiness }
    {
        let before = mem::replace(&mut self.readiness, Readiness::Closed);
        before.into_owed()
    }
}
