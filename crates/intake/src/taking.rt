//! What a thread awaits that runs an intake's pool.
ghost use Rattle.async_task.specs.declared.poll.Poll.TheVariants as poll;
ghost use Rattle.intake.specs.Taking.{RestsBy};
ghost use Rattle.std.specs.Prelude.{◌≡◌, IfOk, None, Some};

use crate::rest::Rest;
use crate::starts::{Started, Starts};
use crate::takes::Takes;
use async_task::{Future, NoMemory, Poll};

/// How many futures a poll spawns before it lets others go first.
const SPAWNED_AT_ONCE: u64 = 32;

/// A thread's own future `G`, beside who takes what is asked for, `P`, and who starts it, `Q`.
pub struct Taking<P: Drop, Q: Drop, G: Drop> {
    taker: P,
    starter: Q,
    future: G,
    // Since a poll that was pending.
    rest: Option<Rest>,
}

impl<P: Drop, Q: Drop, G: Drop> Drop for Taking<P, Q, G> {
    fn drop(self) {
        let Taking {
            taker,
            starter,
            future,
            rest: _rest,
        } = self;
        drop(taker);
        drop(starter);
        drop(future);
    }
}

impl<P: Drop, Q: Drop, G: Drop> Taking<P, Q, G> {
    pub fn new(taker: P, starter: Q, future: G) -> Self
        ensures { result.future ≡ future }
    {
        Taking {
            taker,
            starter,
            future,
            rest: None,
        }
    }

    /// Starts one. Pending where there is none to take, or no permit.
    fn take_one<K, W>(&mut self, waker: &K) -> Poll<Started>
    where
        P: Takes<K, Taken = W>,
        Q: Starts<W>,
        ensures { result ≡ poll.Pending → P.waits self.new.taker }
    {
        if let Some(started) = self.starter.start_kept() {
            return Poll::Ready(started);
        }
        match self.taker.poll_take(waker) {
            Poll::Pending => Poll::Pending,
            Poll::Ready(Err(NoMemory)) => Poll::Ready(Started::NoMemory),
            Poll::Ready(Ok(taken)) => Poll::Ready(self.starter.start(taken)),
        }
    }

    /// Spawns what is asked for, until nothing is or no place is free, or so many were spawned that it lets others go first: then it
    /// calls the waker. The one error is that there was no memory to wait or to spawn.
    fn take_in<K, W>(&mut self, waker: &K) -> Result<Rest, NoMemory>
    where
        P: Takes<K, Taken = W>,
        Q: Starts<W>,
        ensures { IfOk result (λ rest. RestsBy rest (P.waits self.new.taker)) }
    {
        for _ in 0..SPAWNED_AT_ONCE {
            match self.take_one(waker) {
                Poll::Pending => return Ok(Rest::Waits),
                Poll::Ready(Started::Spawned(_spawned)) => {}
                Poll::Ready(Started::Full) => break,
                Poll::Ready(Started::NoMemory) => return Err(NoMemory),
            }
        }
        Ok(Rest::Called(self.taker.call(waker)))
    }
}

impl<K, W, P, Q, G> Future<K> for Taking<P, Q, G>
where
    P: Takes<K, Taken = W> + Drop,
    Q: Starts<W> + Drop,
    G: Future<K> + Drop,
{
    type Output = Result<G::Output, NoMemory>;

    /// Takes in what is asked for, and polls the future.
    fn poll(&mut self, waker: &K) -> Poll<Result<G::Output, NoMemory>>
        ensures { result ≡ poll.Pending
            → (rest : _) × (self.new.rest ≡ Some rest) × RestsBy rest (P.waits self.new.taker) }
    {
        match self.take_in(waker) {
            Ok(rest) => self.rest = Some(rest),
            Err(error) => return Poll::Ready(Err(error)),
        }
        match self.future.poll(waker) {
            Poll::Ready(output) => Poll::Ready(Ok(output)),
            Poll::Pending => Poll::Pending,
        }
    }
}
