//! A future with a time limit.
ghost use Rattle.async_task.specs.declared.poll.Poll.TheVariants as poll;
ghost use Rattle.std.specs.Prelude.{◌≡◌, Err, IsSome, None};
ghost use Rattle.timer.specs.declared.errors.TimeoutError.{TimeoutError};

use crate::errors::TimeoutError;
use crate::sleep::Sleep;
use async_task::{Future, Poll, Wake};
use std::sync::Wait;

/// A future with a time limit. It answers the future's output, or that the time is up or the timer was stopped. Where both hold it
/// answers the output. Dropped, it drops the future and the sleep.
#[derive(Drop)]
pub struct Timeout<F, K: Wake + Drop, R: Wait + Copy + Drop> {
    pub(crate) future: F,
    pub(crate) sleep: Sleep<K, R>,
}

impl<F: Future<K>, K: Wake + Drop, R: Wait + Copy + Drop> Future<K> for Timeout<F, K, R> {
    type Output = Result<F::Output, TimeoutError>;

    fn poll(&mut self, waker: &K) -> Poll<Result<F::Output, TimeoutError>>
        ensures up { (why : TimeoutError) → result ≡ poll.Ready (Err why) → self.new.sleep.entry ≡ None }
        ensures in_time { result ≡ poll.Pending → IsSome self.new.sleep.entry }
    {
        if let Poll::Ready(output) = self.future.poll(waker) {
            return Poll::Ready(Ok(output));
        }
        match self.sleep.poll(waker) {
            Poll::Ready(Ok(())) => Poll::Ready(Err(TimeoutError::Elapsed)),
            Poll::Ready(Err(stopped)) => Poll::Ready(Err(TimeoutError::from(stopped))),
            Poll::Pending => Poll::Pending,
        }
    }
}
