//! A channel's queue, and which waiters have to be notified of each of its changes.
ghost use Rattle.std.specs.Prelude.{◌≡◌, ◌<◌, ◌≤◌, IfOk, IfSome, None, Some, false};
ghost use Rattle.waiting.specs.Sending.{MayTrySend};

use crate::channel::errors::TrySendError;
use crate::event::Event;
use async_task::{NoMemory, Wake};
use concurrent_queue::{ConcurrentQueue, PopError, PushError};
use std::alloc::Global;
use std::sync::Wait;

/// The messages that were sent and not received yet. What a call returns has no drop: its owner notifies the waiters with it.
#[derive(Drop)]
pub struct Line<T: Drop> {
    queue: ConcurrentQueue<T>,
}

/// Proof that a message came: one who waits for a message has to be notified.
#[must_use]
pub struct Came {
    // Only this module makes one.
    own: (),
}

/// Proof that a message was sent: it came, and one who waits for a message was notified.
#[derive(Drop)]
pub struct Sent {
    own: (),
}

/// Proof that a place came free: one who waits for a place has to be notified.
#[must_use]
pub struct Freed {
    own: (),
}

/// Why there is no message.
pub enum Nothing {
    /// None is there yet.
    Empty,
    /// None is left, and none comes any more.
    Over(Ended),
}

/// Proof that the channel was found closed, with no message left. It stays so.
#[derive(Drop)]
pub struct Ended {
    own: (),
}

/// Proof that nothing is sent any more: all waiters have to be notified.
#[must_use]
pub struct Shut {
    was_open: bool,
}

impl<T: Drop> Line<T> {
    /// A queue with this many places.
    pub fn bounded(alloc: Global, places: usize) -> Result<Self, NoMemory>
        requires { 0 < places }
        ensures { IfOk result (λ line. line.queue.capacity ≡ Some places) }
    {
        match ConcurrentQueue::bounded(alloc, places) {
            Ok(queue) => Ok(Line { queue }),
            Err(_) => Err(NoMemory),
        }
    }

    /// A queue with as many places as memory holds.
    pub fn unbounded(alloc: Global) -> Self
        ensures { result.queue.capacity ≡ None }
    {
        Line {
            queue: ConcurrentQueue::unbounded(alloc),
        }
    }

    /// Appends the message.
    pub fn push<R: Wait>(&self, rt: &R, message: T) -> Result<Came, TrySendError<T>>
        ensures { MayTrySend self.now.queue.capacity message result }
    {
        match self.queue.push(rt, message) {
            Ok(()) => Ok(Came { own: () }),
            Err(PushError::Closed(message)) => Err(TrySendError::Closed(message)),
            Err(PushError::Full(message)) => Err(TrySendError::Full(message)),
            Err(PushError::NoMemory(message)) => Err(TrySendError::NoMemory(message)),
        }
    }

    /// Takes the oldest message.
    pub fn pop<R: Wait>(&self, rt: &R) -> Result<(T, Freed), Nothing> {
        match self.queue.pop(rt) {
            Ok(message) => Ok((message, Freed { own: () })),
            Err(PopError::Empty) => Err(Nothing::Empty),
            Err(PopError::Closed) => Err(Nothing::Over(Ended { own: () })),
        }
    }

    /// Closes the queue: it takes no message any more.
    pub fn close<R: Wait>(&self, rt: &R) -> Shut {
        Shut {
            was_open: self.queue.close(rt),
        }
    }

    /// How many messages there are.
    pub fn len<R: Wait>(&self, rt: &R) -> usize
        ensures { IfSome self.now.queue.capacity (λ places. result ≤ places) }
    {
        self.queue.len(rt)
    }

    /// Whether there is no message.
    pub fn is_empty<R: Wait>(&self, rt: &R) -> bool {
        self.queue.is_empty(rt)
    }

    /// Whether each place has a message.
    pub fn is_full<R: Wait>(&self, rt: &R) -> bool
        ensures { (self.now.queue.capacity ≡ None) → (result ≡ false) }
    {
        self.queue.is_full(rt)
    }

    /// Whether the queue takes no message any more.
    pub fn is_closed<R: Wait>(&self, rt: &R) -> bool {
        self.queue.is_closed(rt)
    }

    /// How many places there are.
    pub fn capacity(&self) -> Option<usize>
        ensures { result ≡ self.now.queue.capacity }
    {
        self.queue.capacity()
    }
}

impl Came {
    /// Notifies one who waits for a message.
    pub fn tell<K: Wake + Drop, R: Wait + Copy + Drop>(self, messages: &Event<K, R>) -> Sent {
        let Came { own } = self;
        messages.notify();
        Sent { own }
    }
}

impl Freed {
    /// Notifies one who waits for a place.
    pub fn tell<K: Wake + Drop, R: Wait + Copy + Drop>(self, places: &Event<K, R>) {
        let Freed { own: () } = self;
        places.notify();
    }
}

impl Shut {
    /// Notifies all waiters. Answers whether the channel was open.
    pub fn tell<A, B, R>(self, places: &Event<A, R>, messages: &Event<B, R>) -> bool
    where
        A: Wake + Drop,
        B: Wake + Drop,
        R: Wait + Copy + Drop,
        ensures { result ≡ self.was_open }
    {
        let Shut { was_open } = self;
        places.notify_all();
        messages.notify_all();
        was_open
    }
}
