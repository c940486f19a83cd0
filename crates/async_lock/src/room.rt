//! A value that one party has at a time, and its waiters.
ghost use Rattle.async_lock.specs.Rooms.{HasCome, HasFound, HasGiven, HasGivenUp, HasPassedOn, HasPut, HasRedeemed, HasTaken};
ghost use Rattle.async_lock.specs.Rooms.{is_free, value_in};
ghost use Rattle.async_lock.specs.declared.room.Place.TheVariants as place;
ghost use Rattle.std.specs.Prelude.{◌≡◌, [], length, true};

use async_task::Wake;
use std::alloc::Global;
use std::mem;
use waiting::parts::{Left, Listening, Looked, Waiters};

/// A value that one party has at a time, and its waiters, in the order in which they came. Nobody waits while it is free: once it
/// comes back it is promised to the first waiter. Each call is one section of whoever locks it; only `come` and `look` take
/// memory. No call calls or drops a waker, or drops a value: the caller calls or drops what comes out, once it has released the
/// lock.
#[derive(Drop)]
pub struct Room<T, K> {
    place: Place<T>,
    waiters: Waiters<K>,
    ghost nobody: { is_free place ≡ true → length waiters.waiting ≡ 0 },
}

/// Where a value is.
#[derive(Drop)]
pub enum Place<T> {
    /// It is there, for anyone.
    Free(T),
    /// It is there, for a waiter that was woken for it and hasn't looked since.
    Promised(T),
    /// A party has it.
    Out,
}

/// The value, which was taken out. It has no drop: it is given back.
#[must_use]
pub struct Held<T> {
    // Only this module makes one.
    value: T,
}

/// What a caller that wants the value found.
#[must_use]
pub enum Found<T, K> {
    /// The value. The waker that it wanted to leave comes back.
    Taken(Held<T>, Option<K>),
    /// It waits. The waker that it had left before, to be dropped once the lock is released.
    Waits(Listening, Option<K>),
    /// There is no memory for a place among the waiters. The waker that it wanted to leave comes back.
    NoMemory(Option<K>),
}

/// How a waiter gave up.
#[must_use]
pub enum GaveUp<K> {
    /// The value wasn't promised to it. Its waker, to be dropped once the lock is released.
    Left(Option<K>),
    /// The value was promised to it, and went on to the next.
    PassedOn(Promise<K>),
}

/// To whom the value was promised, if to anyone. It has no drop: that waiter has to be woken.
#[must_use]
pub struct Promise<K> {
    waker: Option<K>,
}

impl<T> Held<T> {
    /// The value.
    pub fn get(&self) -> &T
        ensures { result.now ≡ self.now.value }
    {
        &self.value
    }

    /// The value, to write to.
    pub fn get_mut(&mut self) -> &mut T
        ensures { result.now ≡ self.old.value }
    {
        &mut self.value
    }
}

impl<T: Drop, K: Drop> Room<T, K> {
    /// Makes a place that has no value yet, for which nobody waits. Takes no memory.
    pub fn new(alloc: Global) -> Self
        ensures out { result.place ≡ place.Out }
        ensures nobody { result.waiters ≡ record { next = 0; waiting = [] } }
    {
        Room {
            place: Place::Out,
            waiters: Waiters::new(alloc),
        }
    }

    /// Takes the value where it is free.
    pub fn take(&mut self) -> Option<Held<T>>
        ensures taken { HasTaken self.old.place self.new.place result }
        ensures waiters { self.new.waiters ≡ self.old.waiters }
    {
        match mem::replace(&mut self.place, Place::Out) {
            Place::Free(value) => Some(Held { value }),
            other => {
                self.place = other;
                None
            }
        }
    }

    /// Takes the value where it is free. Else it waits, the last of all, and leaves this waker.
    pub fn come(&mut self, waker: Option<K>) -> Found<T, K>
        ensures { HasCome waker self.old.place self.old.waiters self.new.place self.new.waiters result }
    {
        if let Some(held) = self.take() {
            return Found::Taken(held, waker);
        }
        let Ok(listening) = self.waiters.listen() else {
            return Found::NoMemory(waker);
        };
        match self.waiters.look(listening, waker) {
            Looked::Waits(listening, before) => Found::Waits(listening, before),
            Looked::Told(_call, _waker) => unreachable!(),
        }
    }

    /// Takes the value where it was promised to it. Else it waits on, with this waker in the place of the one before.
    pub fn look(&mut self, listening: Listening, waker: Option<K>) -> Found<T, K>
        ensures { HasFound listening.number waker self.old.place self.old.waiters self.new.place self.new.waiters result }
    {
        match self.waiters.look(listening, waker) {
            Looked::Waits(listening, before) => Found::Waits(listening, before),
            Looked::Told(call, waker) => {
                let _told = call.take();
                self.redeem(waker)
            }
        }
    }

    /// Takes the value that was promised. Where none was, it does as a new caller does.
    fn redeem(&mut self, waker: Option<K>) -> Found<T, K>
        ensures { HasRedeemed waker self.old.place self.old.waiters self.new.place self.new.waiters result }
    {
        match mem::replace(&mut self.place, Place::Out) {
            Place::Promised(value) => Found::Taken(Held { value }, waker),
            other => {
                self.place = other;
                self.come(waker)
            }
        }
    }

    /// Waits no more. The value that was promised to it goes to the next.
    pub fn give_up(&mut self, listening: Listening) -> GaveUp<K>
        ensures { HasGivenUp listening.number self.old.place self.old.waiters self.new.place self.new.waiters result }
    {
        match self.waiters.leave(listening) {
            Left::Untold(waker) => GaveUp::Left(waker),
            Left::Told(call) => {
                let _told = call.take();
                GaveUp::PassedOn(self.pass_on())
            }
        }
    }

    /// Passes a promised value on to the waiter that came first, if it was promised.
    fn pass_on(&mut self) -> Promise<K>
        ensures { HasPassedOn self.old.place self.old.waiters self.new.place self.new.waiters result.waker }
    {
        match mem::replace(&mut self.place, Place::Out) {
            Place::Promised(value) => self.give(value),
            other => {
                self.place = other;
                Promise { waker: None }
            }
        }
    }

    /// Gives the value back. Where one is there already it comes out, which never happens to a value that was taken out of here.
    pub fn give_back(&mut self, held: Held<T>) -> Result<Promise<K>, T>
        ensures { HasPut held.value self.old.place self.old.waiters self.new.place self.new.waiters result }
    {
        let Held { value } = held;
        self.put(value)
    }

    /// Puts a value in where none is there. Else it comes back.
    pub fn put(&mut self, value: T) -> Result<Promise<K>, T>
        ensures { HasPut value self.old.place self.old.waiters self.new.place self.new.waiters result }
    {
        match &self.place {
            Place::Out => Ok(self.give(value)),
            Place::Free(_) | Place::Promised(_) => Err(value),
        }
    }

    /// The value is there: it is promised to the waiter that came first, or free.
    fn give(&mut self, value: T) -> Promise<K>
        requires { self.old.place ≡ place.Out }
        ensures { HasGiven value self.old.waiters self.new.place self.new.waiters result.waker }
    {
        match self.waiters.tell() {
            Some(waker) => {
                self.place = Place::Promised(value);
                Promise { waker }
            }
            None => {
                self.place = Place::Free(value);
                Promise { waker: None }
            }
        }
    }

    /// The value, where nobody has it.
    pub fn into_value(self) -> Option<T>
        ensures { result ≡ value_in self.place }
    {
        let Room { place, waiters } = self;
        drop(waiters);
        match place {
            Place::Free(value) | Place::Promised(value) => Some(value),
            Place::Out => None,
        }
    }
}

impl<K: Wake> Promise<K> {
    /// Wakes the one to whom the value was promised.
    pub fn wake(self) {
        let Promise { waker } = self;
        if let Some(waker) = waker {
            waker.wake();
        }
    }
}
