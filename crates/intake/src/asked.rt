//! What is asked for, as a worker takes it.
ghost use Rattle.async_task.specs.declared.poll.Poll.TheVariants as poll;
ghost use Rattle.std.specs.Prelude.{◌≡◌, Err, IsSome};
ghost use Rattle.waiting.specs.declared.channel.errors.RecvError.TheVariants as recv;

use crate::admitted::Admitted;
use crate::makes::Makes;
use crate::spawns::{Spawned, Spawns};
use async_executor::SpawnError;
use async_task::{Poll, Wake};
use std::sync::Wait;
use waiting::channel::{Receiver, RecvError};
use waiting::semaphore::Permit;

/// The descriptors that weren't taken yet. Its drop passes on a wake that came for it.
#[derive(Drop)]
pub struct Asked<D: Drop, A: Wake + Drop, K: Wake + Drop, R: Wait + Copy + Drop> {
    receiver: Receiver<D, A, K, R>,
}

/// A descriptor that was taken, with a permit. It has no drop: its future is made and spawned.
#[must_use]
pub struct Taken<D: Drop, K: Wake + Drop, R: Wait + Copy + Drop> {
    asked: D,
    permit: Permit<K, R>,
}

impl<D: Drop, A: Wake + Drop, K: Wake + Drop, R: Wait + Copy + Drop> Asked<D, A, K, R> {
    pub fn new(receiver: Receiver<D, A, K, R>) -> Self
        ensures { result.receiver ≡ receiver }
    {
        Asked { receiver }
    }

    /// Takes the oldest descriptor with this permit, or waits for one. Where none is taken, the permit is given back.
    pub fn poll_take(
        &mut self,
        permit: Permit<K, R>,
        waker: &K,
    ) -> Poll<Result<Taken<D, K, R>, RecvError>>
        ensures waits { result ≡ poll.Pending → IsSome self.new.receiver.waiting }
        ensures over { result ≡ poll.Ready (Err recv.Closed) → IsSome self.new.receiver.ended }
    {
        match self.receiver.poll_recv(waker) {
            Poll::Pending => Poll::Pending,
            Poll::Ready(Ok(asked)) => Poll::Ready(Ok(Taken { asked, permit })),
            Poll::Ready(Err(error)) => Poll::Ready(Err(error)),
        }
    }
}

impl<D: Drop, K: Wake + Drop, R: Wait + Copy + Drop> Taken<D, K, R> {
    /// Makes its future, and spawns it. A future that is refused comes back.
    pub fn spawn<S, F, J, M>(self, make: &mut M, pool: &S) -> Result<Spawned, SpawnError<F>>
    where
        S: Spawns<F>,
        F: From<Admitted<J, K, R>> + Drop,
        J: Drop,
        M: Makes<D, J>,
    {
        let Taken { asked, permit } = self;
        pool.spawn_alone(F::from(Admitted::new(make.make(asked), permit)))
    }
}
