//! How one thread takes descriptors, each with a permit.
ghost use Rattle.async_task.specs.declared.poll.Poll.TheVariants as poll;
ghost use Rattle.intake.specs.Taking.{WaitsFor};
ghost use Rattle.std.specs.Prelude.{◌≡◌, IsSome};

use crate::asked::{Asked, Taken};
use crate::called::Called;
use crate::takes::Takes;
use async_task::{Future, NoMemory, Poll, Wake};
use std::sync::Wait;
use waiting::channel::{Receiver, RecvError};
use waiting::semaphore::{Acquire, Permit, Semaphore};

/// Takes descriptors. Its drop passes on a permit that it was promised and a wake that came for it.
pub struct Taker<D: Drop, A: Wake + Drop, K: Wake + Drop, R: Wait + Copy + Drop> {
    permits: Semaphore<K, R>,
    asked: Asked<D, A, K, R>,
    // While it waits for a permit.
    acquire: Option<Acquire<K, R>>,
}

impl<D: Drop, A: Wake + Drop, K: Wake + Drop, R: Wait + Copy + Drop> Drop for Taker<D, A, K, R> {
    fn drop(self) {
        let Taker {
            permits,
            asked,
            acquire,
        } = self;
        drop(asked);
        drop(acquire);
        drop(permits);
    }
}

impl<D: Drop, A: Wake + Drop, K: Wake + Drop, R: Wait + Copy + Drop> Taker<D, A, K, R> {
    pub fn new(permits: Semaphore<K, R>, asked: Receiver<D, A, K, R>) -> Self
        ensures { result.asked.receiver ≡ asked }
    {
        Taker {
            permits,
            asked: Asked::new(asked),
            acquire: None,
        }
    }

    /// Gets a permit, or waits for one.
    fn poll_permit(&mut self, waker: &K) -> Poll<Result<Permit<K, R>, NoMemory>>
        ensures { result ≡ poll.Pending → IsSome self.new.acquire }
    {
        if let Some(acquire) = self.acquire.take() {
            return self.wait(acquire, waker);
        }
        if let Ok(permit) = self.permits.try_acquire() {
            return Poll::Ready(Ok(permit));
        }
        match self.permits.acquire() {
            Ok(acquire) => self.wait(acquire, waker),
            Err(error) => Poll::Ready(Err(error)),
        }
    }

    /// Polls this wait for a permit, and keeps it while it is pending. Nobody closes the semaphore.
    fn wait(&mut self, acquire: Acquire<K, R>, waker: &K) -> Poll<Result<Permit<K, R>, NoMemory>>
        ensures { result ≡ poll.Pending → IsSome self.new.acquire }
    {
        let mut acquire = acquire;
        match acquire.poll(waker) {
            Poll::Ready(Ok(permit)) => Poll::Ready(Ok(permit)),
            Poll::Ready(Err(_)) => Poll::Ready(Err(NoMemory)),
            Poll::Pending => {
                self.acquire = Some(acquire);
                Poll::Pending
            }
        }
    }
}

impl<D: Drop, A: Wake + Drop, K: Wake + Drop, R: Wait + Copy + Drop> Takes<K>
    for Taker<D, A, K, R> {
    type Taken = Taken<D, K, R>;

    ghost waits = { λ taker. WaitsFor taker.acquire taker.asked.receiver.waiting taker.asked.receiver.ended };

    /// Takes a descriptor only once it has a permit, and holds no permit while it waits.
    fn poll_take(&mut self, waker: &K) -> Poll<Result<Taken<D, K, R>, NoMemory>> {
        let permit = match self.poll_permit(waker) {
            Poll::Pending => return Poll::Pending,
            Poll::Ready(Ok(permit)) => permit,
            Poll::Ready(Err(error)) => return Poll::Ready(Err(error)),
        };
        match self.asked.poll_take(permit, waker) {
            Poll::Pending | Poll::Ready(Err(RecvError::Closed)) => Poll::Pending,
            Poll::Ready(Err(RecvError::NoMemory)) => Poll::Ready(Err(NoMemory)),
            Poll::Ready(Ok(taken)) => Poll::Ready(Ok(taken)),
        }
    }

    fn call(&self, waker: &K) -> Called {
        Called::by(waker)
    }
}
