ghost use Rattle.std.specs.Prelude.{◌≡◌};

use async_task::{Future, Poll, Wake};
use std::sync::Wait;
use waiting::semaphore::Permit;

/// A future with its permit: what an intake's pool runs. `Intake::admit` makes one, and so does a worker for each descriptor. Its
/// drop drops the future, and then gives the permit back: so once the future has ended or was cancelled.
pub struct Admitted<J: Drop, K: Wake + Drop, R: Wait + Copy + Drop> {
    future: J,
    permit: Permit<K, R>,
}

impl<J: Drop, K: Wake + Drop, R: Wait + Copy + Drop> Drop for Admitted<J, K, R> {
    fn drop(self) {
        let Admitted { future, permit } = self;
        drop(future);
        drop(permit);
    }
}

impl<J: Drop, K: Wake + Drop, R: Wait + Copy + Drop> Admitted<J, K, R> {
    pub(crate) fn new(future: J, permit: Permit<K, R>) -> Self
        ensures future { result.future ≡ future }
        ensures permit { result.permit ≡ permit }
    {
        Admitted { future, permit }
    }

    /// The future. Its permit is given back.
    pub fn into_inner(self) -> J
        ensures { result ≡ self.future }
    {
        let Admitted {
            future,
            permit: _permit,
        } = self;
        future
    }
}

impl<K: Wake + Drop, J, R: Wait + Copy + Drop> Future<K> for Admitted<J, K, R>
where
    J: Future<K> + Drop,
{
    type Output = J::Output;

    fn poll(&mut self, waker: &K) -> Poll<J::Output>
        ensures { self.new.permit ≡ self.old.permit }
    {
        self.future.poll(waker)
    }
}
