ghost use Rattle.std.specs.Iterator.{at_most};
ghost use Rattle.std.specs.Prelude.{◌≡◌};
ghost use Rattle.concurrent_queue.specs.TryIter.{turns_left, walked_queue};

use crate::concurrent::ConcurrentQueue;
use std::alloc::AllocError;
use std::fmt;
use std::sync::{Forever, Wait};

/// The items of a `ConcurrentQueue`, oldest first, each taken out as it is given.
///
/// `next` answers `None` where no item is there, and may give items again later. The items that it has not given stay
/// in the queue. A copy walks the same queue.
#[derive(Drop)]
pub struct TryIter<'a, T, R: Wait> {
    queue: &'a ConcurrentQueue<T>,
    rt: &'a R,
    // The measure of a loop over it, which no run of the loop uses up.
    turns: Forever<'a, R>,
}

impl<'a, T, R: Wait> TryIter<'a, T, R> {
    pub(crate) fn new(queue: &'a ConcurrentQueue<T>, rt: &'a R) -> TryIter<'a, T, R>
        ensures { walked_queue result ≡ queue.now }
    {
        TryIter {
            queue,
            rt,
            turns: rt.forever(),
        }
    }
}

impl<'a, T, R: Wait> Iterator for TryIter<'a, T, R> {
    type Item = T;

    ghost remaining = { λ walk. at_most (turns_left walk) };

    fn next(&mut self) -> Option<T> {
        self.turns.next();
        self.queue.pop(self.rt).ok()
    }
}

/// It takes no memory, and never fails.
impl<'a, T, R: Wait> Clone for TryIter<'a, T, R> {
    fn clone(&self) -> Result<TryIter<'a, T, R>, AllocError> {
        Ok(TryIter::new(self.queue, self.rt))
    }
}

impl<'a, T, R: Wait> fmt::Debug for TryIter<'a, T, R> {
    fn fmt<W: fmt::Write>(&self, f: &mut fmt::Formatter<W>) -> fmt::Result {
        f.debug_tuple("TryIter").field(self.queue).finish()
    }
}
