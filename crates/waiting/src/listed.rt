//! The waiters, under a lock.
use crate::guarded::Guarded;
use crate::waiters::{Call, Left, Listening, Looked, Waiters};
use std::alloc::{AllocError, Global};
use std::sync::Wait;
use std::sync::atomic::AtomicU64;
use std::sync::atomic::Ordering::SeqCst;

/// The waiters, under a lock, and beside it how many they are, so that a notifier takes no lock where nobody waits. A listener
/// writes the number under the lock, before it looks whether there is anything to wait for.
#[derive(Drop)]
pub struct Listed<K> {
    number: AtomicU64,
    waiters: Guarded<Waiters<K>>,
}

impl<K: Drop> Listed<K> {
    /// Nobody waits.
    pub fn new(alloc: Global) -> Self {
        Listed {
            number: AtomicU64::new(0),
            waiters: Guarded::new(Waiters::new(alloc)),
        }
    }

    /// How many wait who weren't notified.
    pub fn len(&self) -> u64 {
        self.number.load(SeqCst)
    }

    /// Adds one waiter.
    pub fn listen<R: Wait>(&self, rt: &R) -> Result<Listening, AllocError> {
        let mut waiters = self.waiters.lock(rt);
        let listening = waiters.listen();
        self.number.store(waiters.len() as u64, SeqCst);
        listening
    }

    /// Notifies the waiter that came first, where there is one, and answers its waker.
    pub fn tell<R: Wait>(&self, rt: &R) -> Option<Option<K>> {
        if self.len() == 0 {
            return None;
        }
        let mut waiters = self.waiters.lock(rt);
        let told = waiters.tell();
        self.number.store(waiters.len() as u64, SeqCst);
        told
    }

    /// Passes a notification on to the waiter that came first, as `tell` does.
    pub fn pass_on<R: Wait>(&self, rt: &R, call: Call) -> Option<Option<K>> {
        if self.len() == 0 {
            let _taken = call.take();
            return None;
        }
        let mut waiters = self.waiters.lock(rt);
        let told = waiters.pass_on(call);
        self.number.store(waiters.len() as u64, SeqCst);
        told
    }

    /// Whether it was notified. Where it wasn't, it leaves this waker in the place of the one before.
    pub fn look<R: Wait>(&self, rt: &R, listening: Listening, waker: Option<K>) -> Looked<K> {
        self.waiters.lock(rt).look(listening, waker)
    }

    /// Leaves the list.
    pub fn leave<R: Wait>(&self, rt: &R, listening: Listening) -> Left<K> {
        let mut waiters = self.waiters.lock(rt);
        let left = waiters.leave(listening);
        self.number.store(waiters.len() as u64, SeqCst);
        left
    }
}
