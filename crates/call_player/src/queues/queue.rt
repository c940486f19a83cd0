//! What a script's calls are made on: a queue that threads share, or one of one owner.

use crate::queues::item::Item;
use concurrent_queue::{ConcurrentQueue, ForcePushError, PopError, PushError};
use queue_steps::Exclusive;
use std::alloc::AllocError;
use std::sync::Wait;

/// A queue of items, called by one party, which waits by a runtime value where the queue is shared.
pub trait Queue<'a, R> {
    fn push(&mut self, rt: &R, item: Item<'a>) -> Result<(), PushError<Item<'a>>>;

    fn force_push(
        &mut self,
        rt: &R,
        item: Item<'a>,
    ) -> Result<Option<Item<'a>>, ForcePushError<Item<'a>>>;

    fn pop(&mut self, rt: &R) -> Result<Item<'a>, PopError>;

    /// What so many calls of `next` on a new walk give, put behind `found`.
    fn walk(&mut self, rt: &R, steps: u64, found: &mut Vec<Option<u64>>) -> Result<(), AllocError>;

    fn close(&mut self, rt: &R) -> bool;

    fn is_empty(&self, rt: &R) -> bool;

    fn is_full(&self, rt: &R) -> bool;

    fn is_closed(&self, rt: &R) -> bool;

    fn len(&self, rt: &R) -> usize;

    fn capacity(&self) -> Option<usize>;
}

impl<'a, R> Queue<'a, R> for Exclusive<Item<'a>> {
    fn push(&mut self, _rt: &R, item: Item<'a>) -> Result<(), PushError<Item<'a>>> {
        self.push(item)
    }

    fn force_push(
        &mut self,
        _rt: &R,
        item: Item<'a>,
    ) -> Result<Option<Item<'a>>, ForcePushError<Item<'a>>> {
        self.force_push(item)
    }

    fn pop(&mut self, _rt: &R) -> Result<Item<'a>, PopError> {
        self.pop()
    }

    fn walk(
        &mut self,
        _rt: &R,
        steps: u64,
        found: &mut Vec<Option<u64>>,
    ) -> Result<(), AllocError> {
        let mut walk = self.try_iter();
        for _ in 0..steps {
            found.push(walk.next().map(Item::give))?;
        }
        Ok(())
    }

    fn close(&mut self, _rt: &R) -> bool {
        self.close()
    }

    fn is_empty(&self, _rt: &R) -> bool {
        self.is_empty()
    }

    fn is_full(&self, _rt: &R) -> bool {
        self.is_full()
    }

    fn is_closed(&self, _rt: &R) -> bool {
        self.is_closed()
    }

    fn len(&self, _rt: &R) -> usize {
        self.len()
    }

    fn capacity(&self) -> Option<usize> {
        self.capacity()
    }
}

impl<'a, R: Wait> Queue<'a, R> for ConcurrentQueue<Item<'a>> {
    fn push(&mut self, rt: &R, item: Item<'a>) -> Result<(), PushError<Item<'a>>> {
        ConcurrentQueue::push(self, rt, item)
    }

    fn force_push(
        &mut self,
        rt: &R,
        item: Item<'a>,
    ) -> Result<Option<Item<'a>>, ForcePushError<Item<'a>>> {
        ConcurrentQueue::force_push(self, rt, item)
    }

    fn pop(&mut self, rt: &R) -> Result<Item<'a>, PopError> {
        ConcurrentQueue::pop(self, rt)
    }

    fn walk(&mut self, rt: &R, steps: u64, found: &mut Vec<Option<u64>>) -> Result<(), AllocError> {
        let mut walk = self.try_iter(rt);
        for _ in 0..steps {
            found.push(walk.next().map(Item::give))?;
        }
        Ok(())
    }

    fn close(&mut self, rt: &R) -> bool {
        ConcurrentQueue::close(self, rt)
    }

    fn is_empty(&self, rt: &R) -> bool {
        self.is_empty(rt)
    }

    fn is_full(&self, rt: &R) -> bool {
        self.is_full(rt)
    }

    fn is_closed(&self, rt: &R) -> bool {
        self.is_closed(rt)
    }

    fn len(&self, rt: &R) -> usize {
        self.len(rt)
    }

    fn capacity(&self) -> Option<usize> {
        self.capacity()
    }
}
