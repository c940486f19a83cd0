//! A future over a program's waker, in an executor.
ghost use Rattle.std.specs.Prelude.{◌≡◌};

use crate::waker::Waker;
use async_executor::ExWaker;
use async_task::{Future, Poll, Runtime, Wake};
use blocking::ThreadWaker;

/// A future over a program's waker, as an executor polls it: each poll makes a copy of the executor's waker.
#[derive(Drop)]
pub struct Through<F> {
    future: F,
}

impl<F> Through<F> {
    pub(crate) fn of(future: F) -> Self
        ensures { result.future ≡ future }
    {
        Through { future }
    }

    pub(crate) fn into_inner(self) -> F
        ensures { result ≡ self.future }
    {
        let Through { future } = self;
        future
    }
}

impl<F, R: Runtime> Future<ExWaker<(), ThreadWaker, R>> for Through<F>
where
    F: Future<Waker<R>>,
{
    type Output = F::Output;

    /// Where no copy can be had the future isn't polled, and the waker is called, so that it is polled again.
    fn poll(&mut self, waker: &ExWaker<(), ThreadWaker, R>) -> Poll<F::Output> {
        match Waker::of(waker) {
            Some(copy) => self.future.poll(&copy),
            None => {
                waker.wake_by_ref();
                Poll::Pending
            }
        }
    }
}
