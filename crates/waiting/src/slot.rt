//! The place through which one value is passed.
ghost use Rattle.std.specs.Prelude.{◌≡◌, Some, None, IfOk, IfErr, OnOk, is_ok};
ghost use Rattle.waiting.specs.declared.slot.Slot.TheVariants as slot;
ghost use Rattle.waiting.specs.Slots.{HasReceived, HasEnded, is_open, is_shut, waited_with, waker_left};

use std::mem;

/// A place for one value, with the waker of the receiver that waits for it. Each call is one section of whoever locks it. No call
/// calls a waker: the caller calls or drops each waker that comes out, once it has released the lock.
#[derive(Drop)]
pub enum Slot<T, K> {
    /// No value came yet, and nobody has left a waker.
    Empty,
    /// No value came yet. This waker is to be called when one does.
    Waited(K),
    /// A value came.
    Full(T),
    /// The value was taken, or none is to come or to be taken any more.
    Closed,
}

/// What the receiver found.
pub enum Received<T, K> {
    /// The value, and the waker that wasn't left.
    Value(T, Option<K>),
    /// No value came yet. The waker that was left before.
    Waits(Option<K>),
    /// No value is to come. The waker that wasn't left.
    Ended(Over, Option<K>),
}

/// Proof that the place was found closed. It stays closed.
#[derive(Drop)]
pub struct Over {
    // Only this module makes one.
    own: (),
}

impl<T: Drop, K: Drop> Slot<T, K> {
    /// Puts the value there, and answers the waker that was left. It is refused where nobody is to take it, or a value is there.
    pub fn put(&mut self, value: T) -> Result<Option<K>, T>
        ensures open { is_ok result ≡ is_open self.old }
        ensures put { OnOk result (self.new ≡ slot.Full value) }
        ensures waker { IfOk result (λ waker. waker ≡ waker_left self.old) }
        ensures refused { IfErr result (λ back. (back ≡ value) × (self.new ≡ self.old)) }
    {
        match mem::replace(self, Slot::Closed) {
            Slot::Empty => {
                *self = Slot::Full(value);
                Ok(None)
            }
            Slot::Waited(waker) => {
                *self = Slot::Full(value);
                Ok(Some(waker))
            }
            Slot::Full(first) => {
                *self = Slot::Full(first);
                Err(value)
            }
            Slot::Closed => Err(value),
        }
    }

    /// Takes the value. Where none came yet it leaves this waker in the place of the one before.
    pub fn receive(&mut self, waker: Option<K>) -> Received<T, K>
        ensures { HasReceived waker self.old self.new result }
    {
        match mem::replace(self, Slot::Closed) {
            Slot::Full(value) => Received::Value(value, waker),
            Slot::Closed => Received::Ended(Over { own: () }, waker),
            Slot::Empty => {
                *self = Slot::of(waker);
                Received::Waits(None)
            }
            Slot::Waited(before) => {
                *self = Slot::of(waker);
                Received::Waits(Some(before))
            }
        }
    }

    /// Closes the place for the sender: no value comes any more; one that is there stays. Answers the waker that was left.
    pub fn end(&mut self) -> Option<K>
        ensures ended { HasEnded self.old self.new }
        ensures waker { result ≡ waker_left self.old }
    {
        match mem::replace(self, Slot::Closed) {
            Slot::Waited(waker) => Some(waker),
            Slot::Full(value) => {
                *self = Slot::Full(value);
                None
            }
            Slot::Empty | Slot::Closed => None,
        }
    }

    /// Closes the place for the receiver: nobody takes a value any more. Answers what was there, to be dropped once the lock is
    /// released.
    pub fn close(&mut self) -> Slot<T, K>
        ensures old { result ≡ self.old }
        ensures closed { self.new ≡ slot.Closed }
    {
        mem::replace(self, Slot::Closed)
    }

    /// Whether no value is to come or to be taken any more.
    pub fn is_closed(&self) -> bool
        ensures { result ≡ is_shut self.now }
    {
        matches!(self, Slot::Closed)
    }

    fn of(waker: Option<K>) -> Slot<T, K>
        ensures { result ≡ waited_with waker }
    {
        match waker {
            Some(waker) => Slot::Waited(waker),
            None => Slot::Empty,
        }
    }
}
