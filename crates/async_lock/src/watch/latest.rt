//! The newest value, its version, and the waiters for the next.
ghost use Rattle.async_lock.specs.Newest.{HasLeftIf, HasMoved, HasNoticed, IsPast};
ghost use Rattle.std.specs.Arc.{arc_value};
ghost use Rattle.std.specs.Prelude.{◌≡◌, ◌+◌, ◌-◌, ◌^◌, min, IfSome, None, Some, true, false, []};

use crate::round::{Ended, Round, Seat, Seen};
use std::alloc::Global;
use std::mem;
use std::sync::Arc;

/// The newest value, its version, and the waiters for the next. Each call is one section of whoever locks it; only `look` takes
/// memory. No call calls or drops a waker, or drops a value: the caller calls or drops what comes out, once it has released the
/// lock.
#[derive(Drop)]
pub struct Latest<T: Drop, K> {
    newest: Option<Arc<T>>,
    version: u64,
    is_closed: bool,
    round: Round<K>,
}

/// What a waiter for a change found.
#[must_use]
pub enum Noticed<K> {
    /// The value of this version, which is past the one that it had seen. The wakers that it had left and that it wanted to leave.
    Changed(u64, Option<K>, Option<K>),
    /// It had seen the newest value, and none comes any more. The wakers that it had left and that it wanted to leave.
    Closed(Option<K>, Option<K>),
    /// It had seen the newest value, and waits. The waker that it had left before.
    Waits(Seat, Option<K>),
    /// It had seen the newest value, and there is no memory for a place among the waiters. The waker that it wanted to leave.
    NoMemory(Option<K>),
}

impl<T: Drop, K: Drop> Latest<T, K> {
    /// Makes it without a value; nobody waits. Takes no memory.
    pub fn new(alloc: Global) -> Self
        ensures version { result.version ≡ 0 }
        ensures open { result.is_closed ≡ false }
        ensures nobody { result.round.waiters.waiting ≡ [] }
    {
        Latest {
            newest: None,
            version: 0,
            is_closed: false,
            round: Round::new(alloc),
        }
    }

    /// Puts the first value in. Answers the value before it.
    pub fn begin(&mut self, first: Arc<T>) -> Option<Arc<T>>
        ensures before { result ≡ self.old.newest }
        ensures new { self.new ≡ record self.old { newest = Some first } }
    {
        mem::replace(&mut self.newest, Some(first))
    }

    /// Puts a value in the place of the newest: the next version. Answers the value before it, and the waiters that have to be
    /// woken. There are 2^64 - 1 versions at most; a value past that has the last one's number.
    pub fn put(&mut self, value: Arc<T>) -> (Option<Arc<T>>, Ended<K>)
        ensures before { result.0 ≡ self.old.newest }
        ensures newest { self.new.newest ≡ Some value }
        ensures version { self.new.version ≡ min (self.old.version + 1) (2 ^ 64 - 1) }
        ensures woken { (result.1.waiters ≡ self.old.round.waiters) × (self.new.round.waiters.waiting ≡ []) }
        ensures closed { self.new.is_closed ≡ self.old.is_closed }
    {
        self.version = self.version.saturating_add(1);
        let before = mem::replace(&mut self.newest, Some(value));
        (before, self.round.end())
    }

    /// Closes it: no value comes any more. Answers the waiters that have to be woken.
    pub fn close(&mut self) -> Ended<K>
        ensures closed { self.new.is_closed ≡ true }
        ensures woken { (result.waiters ≡ self.old.round.waiters) × (self.new.round.waiters.waiting ≡ []) }
        ensures stays { (self.new.newest ≡ self.old.newest) × (self.new.version ≡ self.old.version) }
    {
        self.is_closed = true;
        self.round.end()
    }

    /// The newest value, and its version. None where it has too many handles.
    pub fn newest(&self) -> Option<(Arc<T>, u64)>
        ensures newest { IfSome result (λ found. IfSome self.now.newest (λ newest. arc_value found.0 ≡ arc_value newest)) }
        ensures version { IfSome result (λ found. found.1 ≡ self.now.version) }
    {
        match &self.newest {
            Some(newest) => match Arc::try_clone(newest) {
                Ok(newest) => Some((newest, self.version)),
                Err(_) => None,
            },
            None => None,
        }
    }

    /// The version of the newest value.
    pub fn version(&self) -> u64
        ensures { result ≡ self.now.version }
    {
        self.version
    }

    /// What a follower finds that has seen this version, and waited already where it has a seat.
    pub fn look(&mut self, seen: u64, seat: Option<Seat>, waker: Option<K>) -> Noticed<K>
        ensures noticed { HasNoticed seen self.old.version self.old.is_closed result }
        ensures past { IsPast seen result }
        ensures moved { HasMoved seat waker self.old.round.number self.old.round.waiters self.new.round.waiters result }
        ensures number { self.new.round.number ≡ self.old.round.number }
        ensures stays { (self.new.newest ≡ self.old.newest) × (self.new.version ≡ self.old.version) × (self.new.is_closed ≡ self.old.is_closed) }
    {
        if self.version > seen {
            return Noticed::Changed(self.version, self.leave(seat), waker);
        }
        if self.is_closed {
            return Noticed::Closed(self.leave(seat), waker);
        }
        let waker = match seat {
            None => waker,
            Some(seat) => match self.round.look(seat, waker) {
                Seen::Waits(seat, before) => return Noticed::Waits(seat, before),
                Seen::Over(_passed, waker) => waker,
            },
        };
        match self.round.sit(waker) {
            Ok(seat) => Noticed::Waits(seat, None),
            Err(waker) => Noticed::NoMemory(waker),
        }
    }

    /// Waits no more, if it waited. Answers its waker, to be dropped once the lock is released.
    pub fn leave(&mut self, seat: Option<Seat>) -> Option<K>
        ensures left { HasLeftIf seat self.old.round.number self.old.round.waiters self.new.round.waiters result }
        ensures number { self.new.round.number ≡ self.old.round.number }
        ensures stays { (self.new.newest ≡ self.old.newest) × (self.new.version ≡ self.old.version) × (self.new.is_closed ≡ self.old.is_closed) }
    {
        match seat {
            None => None,
            Some(seat) => self.round.leave(seat),
        }
    }
}
