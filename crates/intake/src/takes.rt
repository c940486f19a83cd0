use crate::called::Called;
use async_task::{NoMemory, Poll};

/// Takes what is to be started, as far as a worker has to know. `K` are the wakers that call it.
pub trait Takes<K> {
    ghost use Rattle.async_task.specs.declared.poll.Poll.TheVariants as poll;
    ghost use Rattle.std.specs.Prelude.{◌≡◌};

    /// What it takes.
    type Taken;

    /// That its waker is left where it is called, or that nothing comes any more.
    ghost waits: { Self → Type 0 };

    /// Takes one, or waits. The one error is that there was no memory to wait.
    fn poll_take(&mut self, waker: &K) -> Poll<Result<Self::Taken, NoMemory>>
        ensures { result ≡ poll.Pending → waits self.new };

    /// Calls this waker.
    fn call(&self, waker: &K) -> Called;
}
