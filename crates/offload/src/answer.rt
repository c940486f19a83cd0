ghost use Rattle.async_task.specs.declared.poll.Poll.TheVariants as poll;
ghost use Rattle.std.specs.Prelude.{◌≡◌, Err, IsSome};

use crate::shared::Accepted;
use async_task::{Future, Poll, Wake};
use std::sync::Wait;
use waiting::oneshot::{Canceled, Receiver};

/// The output of work that was accepted: a future that is ready once the work is done. `Canceled` says that the work was dropped
/// with the last handle before any thread took it. Dropped, it drops the output, and the work is done all the same.
///
/// Each poll leaves its waker in the place of the one before. Where no copy of the waker can be had it calls the waker, so that it is
/// polled again. It takes no memory.
#[derive(Drop)]
pub struct Answer<T: Drop, K: Wake + Drop, R: Wait + Copy + Drop> {
    receiver: Receiver<T, K, R>,
    // Proof that a thread was notified of the work.
    accepted: Accepted,
}

impl<T: Drop, K: Wake + Drop, R: Wait + Copy + Drop> Answer<T, K, R> {
    pub(crate) fn new(receiver: Receiver<T, K, R>, accepted: Accepted) -> Self
        ensures { result.receiver ≡ receiver }
    {
        Answer { receiver, accepted }
    }
}

impl<T: Drop, K: Wake + Drop, R: Wait + Copy + Drop> Future<K> for Answer<T, K, R> {
    type Output = Result<T, Canceled>;

    fn poll(&mut self, waker: &K) -> Poll<Result<T, Canceled>>
        ensures same { self.new.receiver.slot ≡ self.old.receiver.slot }
        ensures over { result ≡ poll.Ready (Err (record {})) → IsSome self.new.receiver.over }
    {
        self.receiver.poll(waker)
    }
}
