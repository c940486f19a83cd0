ghost use Rattle.async_lock.specs.Giving.{gave};
ghost use Rattle.async_task.specs.declared.poll.Poll.TheVariants as poll;
ghost use Rattle.std.specs.Arc.{arc_value};
ghost use Rattle.std.specs.Prelude.{◌≡◌, IsSome, Ok, true, false};

use crate::mutex::Mutex;
use crate::mutex_guard::MutexGuard;
use async_task::{Future, NoMemory, Poll, Wake};
use std::sync::Wait;

/// Takes the value of a mutex: a future that is ready once it has the value. Each poll leaves its waker in the place of the one
/// before. Where no copy of the waker can be had it calls the waker, so that it is polled again. Once it gave the value it is
/// pending, and calls no waker.
///
/// Dropped before, it takes no value, and waits no more: a value that was promised to it goes to the next waiter.
#[derive(Drop)]
pub struct Lock<T: Drop, K: Wake + Drop, R: Wait + Copy + Drop> {
    mutex: Mutex<T, K, R>,
    is_given: bool,
}

impl<T: Drop, K: Wake + Drop, R: Wait + Copy + Drop> Lock<T, K, R> {
    pub(crate) fn new(mutex: Mutex<T, K, R>) -> Self
        ensures mutex { result.mutex ≡ mutex }
        ensures given_not { result.is_given ≡ false }
    {
        Lock {
            mutex,
            is_given: false,
        }
    }
}

impl<T: Drop, K: Wake + Drop, R: Wait + Copy + Drop> Future<K> for Lock<T, K, R> {
    type Output = Result<MutexGuard<T, K, R>, NoMemory>;

    fn poll(&mut self, waker: &K) -> Poll<Result<MutexGuard<T, K, R>, NoMemory>>
        ensures waits { self.old.is_given ≡ false → result ≡ poll.Pending → IsSome self.new.mutex.listening }
        ensures same { (guard : _) → result ≡ poll.Ready (Ok guard) → arc_value guard.room ≡ arc_value self.old.mutex.room }
        ensures room { self.new.mutex.room ≡ self.old.mutex.room }
        ensures again { self.old.is_given ≡ true → (result ≡ poll.Pending) × (self.new.is_given ≡ true) }
        ensures given { self.old.is_given ≡ false → self.new.is_given ≡ gave result }
    {
        if self.is_given {
            return Poll::Pending;
        }
        let polled = self.mutex.poll_lock(waker);
        self.is_given = matches!(polled, Poll::Ready(Ok(_)));
        polled
    }
}
