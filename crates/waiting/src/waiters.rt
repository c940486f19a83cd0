//! The list of those who wait for a notification.
ghost use Rattle.std.specs.Prelude.{◌≡◌, [], OnOk, IfOk, OnErr, length};
ghost use Rattle.waiting.specs.Waiters.{first_waker, HasLeft, HasLooked, listened, told};

use crate::entries::{First, Rest, append, pop, put, take};
use std::alloc::{AllocError, Global};
use std::collections::BTreeMap;
use std::marker::Model;

/// Those who wait, each under a number, with the wakers that they left last, in the order in which they came. A waiter was
/// notified when its number is missing from the list. Each call is one section of whoever locks the list; only `listen` takes
/// memory. No call calls or drops a waker: the caller calls or drops each waker that comes out, once it has released the lock.
#[derive(Drop)]
pub struct Waiters<K> {
    next: u64,
    // The waiter that came when nobody waited.
    first: First<K>,
    // The waiters that came after it.
    rest: Rest<K>,
}

/// The number of a waiter. It has no drop: its owner looks or leaves.
#[must_use]
pub struct Listening {
    number: u64,
}

/// A notification that a waiter received. It has no drop: it is taken, or passed on to the next.
#[must_use]
pub struct Call {
    // Only this module makes one.
    own: (),
}

/// What a waiter found.
#[must_use]
pub enum Looked<K> {
    /// It wasn't notified. The waker that it had left before, to be dropped once the lock is released.
    Waits(Listening, Option<K>),
    /// It was notified, and is in the list no longer. The waker that it wanted to leave comes back.
    Told(Call, Option<K>),
}

/// How a waiter left.
#[must_use]
pub enum Left<K> {
    /// It wasn't notified. Its waker, to be dropped once the lock is released.
    Untold(Option<K>),
    /// It was notified: the notification has to be passed on.
    Told(Call),
}

/// Proof that a waiter was notified: it has taken a notification.
#[derive(Drop)]
pub struct WasTold {
    // Only this module makes one.
    own: (),
}

impl Call {
    /// Takes the notification: its waiter goes on.
    pub fn take(self) -> WasTold {
        let Call { own } = self;
        WasTold { own }
    }
}

impl<K> Model for Waiters<K> {
    ghost use Rattle.waiting.specs.Ascending.{Ascends as IsAscending, before};
    ghost use Rattle.waiting.specs.Waiters.{Waiters as List, waiters_code};

    ghost Value = { List K };

    ghost coded = { waiters_code K.code };

    ghost view = { λ w. record { next = w.next; waiting = before w.first w.rest.entries } };

    ghost invariant = { λ w. IsAscending 0 w.next (before w.first w.rest.entries) };
}

impl<K: Drop> Waiters<K> {
    /// Nobody waits. Takes no memory.
    pub fn new(alloc: Global) -> Self
        ensures { result ≡ record { next = 0; waiting = [] } }
    {
        Waiters {
            next: 0,
            first: None,
            rest: BTreeMap::new(alloc),
        }
    }

    /// How many wait who weren't notified.
    pub fn len(&self) -> usize
        ensures { result ≡ length self.now.waiting }
    {
        match &self.first {
            Some(_) => self.rest.len() + 1,
            None => self.rest.len(),
        }
    }

    /// Adds one waiter, the last of all. It is refused for want of memory or after 2^64 - 1 of them, and then changes nothing.
    pub fn listen(&mut self) -> Result<Listening, AllocError>
        ensures number { IfOk result (λ l. l.number ≡ self.old.next) }
        ensures listens { OnOk result (self.new ≡ listened self.old) }
        ensures refused { OnErr result (self.new ≡ self.old) }
    {
        let number = self.next;
        if number == u64::MAX {
            return Err(AllocError);
        }
        append(&mut self.first, &mut self.rest, number)?;
        self.next = number + 1;
        Ok(Listening { number })
    }

    /// Notifies the waiter that came first, where there is one. Answers its waker, to be called once the lock is released.
    pub fn tell(&mut self) -> Option<Option<K>>
        ensures first { result ≡ first_waker self.old.waiting }
        ensures told { self.new ≡ told self.old }
    {
        pop(&mut self.first, &mut self.rest)
    }

    /// Passes a notification on to the waiter that came first, as `tell` does.
    pub fn pass_on(&mut self, call: Call) -> Option<Option<K>>
        ensures first { result ≡ first_waker self.old.waiting }
        ensures told { self.new ≡ told self.old }
    {
        let _taken = call.take();
        self.tell()
    }

    /// Whether it was notified. Where it wasn't, it leaves this waker in the place of the one before.
    pub fn look(&mut self, listening: Listening, waker: Option<K>) -> Looked<K>
        ensures { HasLooked listening.number waker self.old self.new result }
    {
        match put(&mut self.first, &mut self.rest, listening.number, waker) {
            Ok(before) => Looked::Waits(listening, before),
            Err(waker) => {
                let Listening { number: _ } = listening;
                Looked::Told(Call { own: () }, waker)
            }
        }
    }

    /// Leaves the list.
    pub fn leave(&mut self, listening: Listening) -> Left<K>
        ensures { HasLeft listening.number self.old self.new result }
    {
        let Listening { number } = listening;
        match take(&mut self.first, &mut self.rest, number) {
            Some(waker) => Left::Untold(waker),
            None => Left::Told(Call { own: () }),
        }
    }
}
