ghost use Rattle.async_task.specs.declared.poll.Poll.TheVariants as poll;
ghost use Rattle.std.specs.Prelude.{◌≡◌, ◌<◌, IsSome, Ok};

use crate::watch::receiver::Receiver;
use async_task::{Future, Poll, Wake};
use std::sync::Wait;
use waiting::channel::RecvError;

/// Waits for a change: a future that is ready once a newer value came than its receiver has seen, or none comes any more. Each
/// poll leaves its waker in the place of the one before. Where no copy of the waker can be had it calls the waker, so that it is
/// polled again. Dropped before, it has seen nothing, and waits no more.
pub struct Changed<'a, T: Drop, K: Wake + Drop, R: Wait + Copy + Drop> {
    receiver: &'a mut Receiver<T, K, R>,
}

impl<'a, T: Drop, K: Wake + Drop, R: Wait + Copy + Drop> Changed<'a, T, K, R> {
    pub(crate) fn new(receiver: &'a mut Receiver<T, K, R>) -> Self {
        Changed { receiver }
    }
}

impl<'a, T: Drop, K: Wake + Drop, R: Wait + Copy + Drop> Future<K> for Changed<'a, T, K, R> {
    type Output = Result<(), RecvError>;

    fn poll(&mut self, waker: &K) -> Poll<Result<(), RecvError>>
        ensures once { result ≡ poll.Ready (Ok tt) → self.old.receiver.now.seen < self.new.receiver.now.seen }
        ensures seen { ¬ (result ≡ poll.Ready (Ok tt)) → self.new.receiver.now.seen ≡ self.old.receiver.now.seen }
        ensures waits { result ≡ poll.Pending → IsSome self.new.receiver.now.seat }
    {
        self.receiver.poll_changed(waker)
    }
}

impl<'a, T: Drop, K: Wake + Drop, R: Wait + Copy + Drop> Drop for Changed<'a, T, K, R> {
    fn drop(self) {
        let Changed { receiver } = self;
        receiver.give_up();
    }
}
