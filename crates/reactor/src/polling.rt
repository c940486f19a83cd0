//! Polls of a source that read or write.
ghost use Rattle.reactor.specs.Polls.{HasPolled};

use crate::poller::Way;
use crate::source::Source;
use async_task::{Poll, Wake};
use std::io;
use std::sync::Wait;

impl<K: Wake + Drop, R: Wait + Copy + Drop> Source<K, R> {
    /// Reads or writes where this way is ready, by one call at most, and answers what that gave. Where the way isn't ready, or the
    /// call would block, leaves the waker or calls it, as `poll_ready` does. A closed reactor is an error of kind `BrokenPipe`. No
    /// lock is held during the call, and it takes no memory.
    pub fn poll_io<T: Drop, F: FnOnce() -> io::Result<T> + Drop>(
        &self,
        way: Way,
        waker: &K,
        call: F,
    ) -> Poll<io::Result<T>>
        requires { F.pre call }
        ensures { HasPolled (F.post call) result }
    {
        match self.poll_ready(way, waker) {
            Poll::Ready(Ok(guard)) => match guard.try_io(call) {
                Ok(done) => Poll::Ready(done),
                Err(_blocked) => self.wait(way, waker),
            },
            Poll::Ready(Err(closed)) => Poll::Ready(Err(closed.into())),
            Poll::Pending => Poll::Pending,
        }
    }

    /// As `poll_io`, for a read or a write of at most this many bytes. A call that moved some bytes, and fewer than that, says that
    /// the next would block. So the next poll waits for an event, unless one came meanwhile or the last has come.
    pub fn poll_transfer<F: FnOnce() -> io::Result<usize> + Drop>(
        &self,
        way: Way,
        waker: &K,
        most: usize,
        call: F,
    ) -> Poll<io::Result<usize>>
        requires { F.pre call }
        ensures { HasPolled (F.post call) result }
    {
        match self.poll_ready(way, waker) {
            Poll::Ready(Ok(guard)) => match guard.try_transfer(most, call) {
                Ok(moved) => Poll::Ready(moved),
                Err(_would_block) => self.wait(way, waker),
            },
            Poll::Ready(Err(closed)) => Poll::Ready(Err(closed.into())),
            Poll::Pending => Poll::Pending,
        }
    }

    /// Waits after a call that would have blocked: leaves the waker, or calls it where the way is ready again.
    fn wait<T>(&self, way: Way, waker: &K) -> Poll<io::Result<T>>
        ensures { HasPolled (λ _. ⊥) result }
    {
        match self.poll_ready(way, waker) {
            Poll::Ready(Ok(guard)) => {
                guard.retain_ready();
                waker.wake_by_ref();
                Poll::Pending
            }
            Poll::Ready(Err(closed)) => Poll::Ready(Err(closed.into())),
            Poll::Pending => Poll::Pending,
        }
    }
}
