//! The future that is awaited for the output of a future in a pool.
ghost use Rattle.async_task.specs.declared.poll.Poll.TheVariants as poll;
ghost use Rattle.std.specs.Prelude.{◌≡◌, Err, IsSome};

use async_task::{Future, Output, Poll, Runtime, Wake};
use waiting::oneshot::{Canceled, Receiver};

/// A future with the output of another future, which a task runs: it has the output's receiver, and the task's handle `H`. Its
/// drop cancels the task.
///
/// It is ready with `Canceled` where no output comes, since the pool went, or the output was given before. A future awaits it in a
/// field. A thread awaits it by `Pool::run`, which runs the pool there, or by `Pool::block_on`, where other threads run it. Polls
/// take no memory.
#[derive(Drop)]
#[must_use]
pub struct Answer<X: Output, H: Drop, K: Wake + Drop, R: Runtime> {
    pub(crate) from: Receiver<X, K, R>,
    pub(crate) task: H,
}

impl<X: Output, H: Drop, K: Wake + Drop, R: Runtime> Answer<X, H, K, R> {
    /// Makes an answer of what `answering` made, and the task of the other half.
    pub fn new(from: Receiver<X, K, R>, task: H) -> Self
        ensures from { result.from ≡ from }
        ensures task { result.task ≡ task }
    {
        Answer { from, task }
    }

    /// The task's handle. Detached, the future runs on, though nobody awaits it, and its output is dropped.
    pub fn into_task(self) -> H
        ensures { result ≡ self.task }
    {
        let Answer { from, task } = self;
        drop(from);
        task
    }
}

impl<X: Output, H: Drop, K: Wake + Drop, R: Runtime> Future<K> for Answer<X, H, K, R> {
    type Output = Result<X, Canceled>;

    fn poll(&mut self, waker: &K) -> Poll<Result<X, Canceled>>
        ensures task { self.new.task ≡ self.old.task }
        ensures from { self.new.from.slot ≡ self.old.from.slot }
        ensures over { result ≡ poll.Ready (Err (record {})) → IsSome self.new.from.over }
    {
        self.from.poll(waker)
    }
}
