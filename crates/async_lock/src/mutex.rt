ghost use Rattle.async_task.specs.declared.poll.Poll.TheVariants as poll;
ghost use Rattle.std.specs.Arc.{arc_value};
ghost use Rattle.std.specs.Prelude.{◌≡◌, IfErr, IfOk, IsSome, None, Ok};

use crate::errors::{NoMemoryFor, TryLockError};
use crate::guarded::Guarded;
use crate::lock::Lock;
use crate::mutex_guard::{MutexGuard, wake_next};
use crate::room::{Found, GaveUp, Room};
use async_task::{NoMemory, Poll, Wake};
use std::alloc::Global;
use std::mem;
use std::sync::{Arc, Wait};
use waiting::parts::Listening;

/// A value that one party has at a time, also while that party waits for something else. It has a `MutexGuard`, which may lie in a
/// field of a future. Parties get the value in the order in which they came. This is one handle of the value; `clone` makes
/// others. Wakers are of the type `K`. After `Mutex` of `async-lock` and `tokio`.
///
/// Wakers are called and dropped, and values dropped, while the mutex's own lock isn't held. To take the value and to give it back
/// takes no memory. To wait takes memory for a place among the waiters, where others wait already. Here `given` polls, and gives
/// the value back:
///
/// ```
/// let mutex = Mutex::<u64, Nobody, R>::new(rt, alloc, 1)?;
/// let mut first = mutex.try_lock()?;
/// let mut second = mutex.lock()?;
/// let waits = given(&mut second, &Nobody).is_none();
/// *first.get_mut() = 2;
/// drop(first);
/// let locked = matches!(mutex.try_lock(), Err(TryLockError::Locked));
/// let has = given(&mut second, &Nobody) == Some(2);
/// Ok(waits & locked & has & mutex.try_lock().is_ok())
/// ```
pub struct Mutex<T: Drop, K: Wake + Drop, R: Wait + Copy + Drop> {
    room: Arc<Guarded<Room<T, K>>>,
    rt: R,
    // Set from a `poll_lock` that was pending until one that isn't.
    listening: Option<Listening>,
}

impl<T: Drop, K: Wake + Drop, R: Wait + Copy + Drop> Mutex<T, K, R> {
    /// Makes a mutex with this value, which is free. It takes memory; where there is none the value comes back.
    pub fn new(rt: R, alloc: Global, value: T) -> Result<Self, NoMemoryFor<T>>
        ensures refused { IfErr result (λ error. error.0 ≡ value) }
        ensures waits_not { IfOk result (λ mutex. mutex.listening ≡ None) }
    {
        let Ok(room) = Arc::new(alloc, Guarded::new(Room::new(alloc))) else {
            return Err(NoMemoryFor(value));
        };
        let put = room.lock(&rt).put(value);
        wake_next(put);
        Ok(Mutex::of(rt, room))
    }

    fn of(rt: R, room: Arc<Guarded<Room<T, K>>>) -> Self
        ensures room { result.room ≡ room }
        ensures waits_not { result.listening ≡ None }
    {
        Mutex {
            room,
            rt,
            listening: None,
        }
    }

    /// Makes another handle of the same mutex; refused where it has 2^63 handles. It takes no memory.
    pub fn clone(&self) -> Result<Self, NoMemory>
        ensures same { IfOk result (λ mutex. arc_value mutex.room ≡ arc_value self.now.room) }
        ensures waits_not { IfOk result (λ mutex. mutex.listening ≡ None) }
    {
        match Arc::try_clone(&self.room) {
            Ok(room) => Ok(Mutex::of(self.rt, room)),
            Err(_) => Err(NoMemory),
        }
    }

    /// Takes the value where it is free, and so nobody waits. It takes no memory. It answers `NoMemory` where the mutex has 2^63
    /// handles, of which a guard is one.
    pub fn try_lock(&self) -> Result<MutexGuard<T, K, R>, TryLockError>
        ensures same { IfOk result (λ guard. arc_value guard.room ≡ arc_value self.now.room) }
    {
        let Ok(room) = Arc::try_clone(&self.room) else {
            return Err(TryLockError::NoMemory);
        };
        let taken = self.room.lock(&self.rt).take();
        match taken {
            Some(held) => Ok(MutexGuard::new(self.rt, room, held)),
            None => Err(TryLockError::Locked),
        }
    }

    /// Makes a future that takes the value, and waits for it. It joins the waiters at its first poll that doesn't find the value
    /// free. Refused where the mutex has 2^63 handles; it takes no memory.
    pub fn lock(&self) -> Result<Lock<T, K, R>, NoMemory>
        ensures same { IfOk result (λ lock. arc_value lock.mutex.room ≡ arc_value self.now.room) }
    {
        match self.clone() {
            Ok(mutex) => Ok(Lock::new(mutex)),
            Err(error) => Err(error),
        }
    }

    /// Polls as the future of `lock` does, for a future that has the mutex in a field. It takes memory for a place among the
    /// waiters, where others wait already. `NoMemory` says that it waits no more, and leaves others as if it had never come. After
    /// a pending poll, a caller that won't poll again calls `give_up`, or drops this handle. Until then the value may be promised
    /// to it.
    pub fn poll_lock(&mut self, waker: &K) -> Poll<Result<MutexGuard<T, K, R>, NoMemory>>
        ensures waits { result ≡ poll.Pending → IsSome self.new.listening }
        ensures ended { (answer : _) → result ≡ poll.Ready answer → self.new.listening ≡ None }
        ensures same { (guard : _) → result ≡ poll.Ready (Ok guard) → arc_value guard.room ≡ arc_value self.old.room }
        ensures room { self.new.room ≡ self.old.room }
    {
        let Ok(room) = Arc::try_clone(&self.room) else {
            self.give_up();
            return Poll::Ready(Err(NoMemory));
        };
        let copy = waker.clone();
        let is_left = copy.is_some();
        match self.find(copy) {
            Found::Taken(held, _copy) => Poll::Ready(Ok(MutexGuard::new(self.rt, room, held))),
            Found::NoMemory(_copy) => Poll::Ready(Err(NoMemory)),
            Found::Waits(listening, _before) => {
                self.waits(Some(listening));
                if !is_left {
                    waker.wake_by_ref();
                }
                Poll::Pending
            }
        }
    }

    /// Waits no more, after a `poll_lock` that was pending: a value that was promised to it goes to the next waiter. It may be
    /// polled again. It takes no memory.
    pub fn give_up(&mut self)
        ensures waits_not { self.new.listening ≡ None }
        ensures room { self.new.room ≡ self.old.room }
    {
        self.waits(None);
    }

    /// Takes the value, where this is the last handle: so no guard is there, and nobody waits. Else there is none, and this handle
    /// is dropped. It takes no memory.
    pub fn into_inner(self) -> Option<T> {
        let Mutex {
            room,
            rt,
            listening,
        } = self;
        leave(&rt, &*room, listening);
        match Arc::into_inner(room) {
            Some(guarded) => guarded.into_inner().into_value(),
            None => None,
        }
    }

    /// What one finds who comes now, or waited already. From now on it doesn't wait.
    fn find(&mut self, waker: Option<K>) -> Found<T, K>
        ensures waits_not { self.new.listening ≡ None }
        ensures room { self.new.room ≡ self.old.room }
    {
        match self.listening.take() {
            None => self.room.lock(&self.rt).come(waker),
            Some(listening) => self.room.lock(&self.rt).look(listening, waker),
        }
    }

    /// Sets how it waits, and ends the wait before.
    fn waits(&mut self, listening: Option<Listening>)
        ensures { self.new ≡ record self.old { listening = listening } }
    {
        let before = mem::replace(&mut self.listening, listening);
        leave(&self.rt, &*self.room, before);
    }
}

/// Waits no more, if it waited, and wakes the next where the value was promised to it.
fn leave<T: Drop, K: Wake + Drop, R: Wait>(
    rt: &R,
    room: &Guarded<Room<T, K>>,
    listening: Option<Listening>,
) {
    let Some(listening) = listening else {
        return;
    };
    let gave_up = room.lock(rt).give_up(listening);
    match gave_up {
        GaveUp::Left(_waker) => {}
        GaveUp::PassedOn(promise) => promise.wake(),
    }
}

impl<T: Drop, K: Wake + Drop, R: Wait + Copy + Drop> Drop for Mutex<T, K, R> {
    fn drop(self) {
        let Mutex {
            room,
            rt,
            listening,
        } = self;
        leave(&rt, &*room, listening);
    }
}
