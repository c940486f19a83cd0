ghost use Rattle.std.specs.Prelude.{◌≡◌, ◌<◌, ◌≤◌, Some, None, false, IfOk, IfSome};
ghost use Rattle.concurrent_queue.specs.SharedQueue.{MayPush, MayForcePush};
ghost use Rattle.concurrent_queue.specs.TryIter.{walked_queue};

use crate::bounded::Bounded;
use crate::glimpse::{Glimpse, Locked};
use crate::remains::Remains;
use crate::single::Single;
use crate::try_iter::TryIter;
use crate::unbounded::Unbounded;
use queue_steps::{ForcePushError, NoMemory, PopError, PushError};
use std::alloc::Global;
use std::fmt;
use std::marker::Model;
use std::sync::Wait;

/// A closable queue that threads share by `&`: `ConcurrentQueue` of the Rust crate `concurrent-queue`.
///
/// It moves between threads, and is shared by them, where `T` moves. A contract sees its capacity alone, since other
/// threads may change the rest at any moment. Its drop drops each item that is left, once.
///
/// `bounded` asks for the allocator and a capacity from 1 to 2^60 - 1, and takes all places. `unbounded` takes memory at pushes.
/// Most calls ask for a runtime value, `R: Wait`, since they may wait for another thread. A full queue, a closed queue and want of
/// memory refuse a push, and its item comes back. A ring or a chain accepts 2^61 items in its life: the push of one more closes
/// it.
///
/// From `queue` of `examples`:
///
/// ```
/// let queue = ConcurrentQueue::<u64>::bounded(rt.alloc(), 2)?;
/// assert!(rt; queue.push(&rt, 1).is_ok() & queue.push(&rt, 2).is_ok());
/// assert!(rt; matches!(queue.push(&rt, 3), Err(PushError::Full(3))));
/// assert!(rt; matches!(queue.force_push(&rt, 3), Ok(Some(1))));
/// assert!(rt; queue.close(&rt));
/// assert!(rt; matches!(queue.push(&rt, 4), Err(PushError::Closed(4))));
/// assert!(rt; matches!(queue.pop(&rt), Ok(2)) & matches!(queue.pop(&rt), Ok(3)));
/// assert!(rt; matches!(queue.pop(&rt), Err(PopError::Closed)));
/// ```
pub struct ConcurrentQueue<T> {
    kept: Kept<T>,
}

// Written out, so that crates above call it, and don't prove the drops of all its parts once more.
impl<T: Drop> Drop for ConcurrentQueue<T> {
    fn drop(self) {
        let ConcurrentQueue { kept } = self;
        drop(kept);
    }
}

#[derive(Drop)]
enum Kept<T> {
    Single(Single<T>),
    Bounded(Bounded<T>),
    Unbounded(Unbounded<T>),
}

impl<T> Model for ConcurrentQueue<T> {
    ghost use Rattle.concurrent_queue.specs.SharedQueue.{SharedQueue};

    ghost Value = { SharedQueue };

    ghost use Rattle.concurrent_queue.specs.Capacity.{kept_capacity};

    ghost view = { λ q. record { capacity = kept_capacity q.kept } };
}

impl<T> ConcurrentQueue<T> {
    /// Makes a queue that holds at most `cap` items, whose places are taken here: a single slot for 1, a ring for more.
    ///
    /// A capacity that no buffer can have is refused as want of memory too.
    pub fn bounded(alloc: Global, cap: usize) -> Result<ConcurrentQueue<T>, NoMemory>
        requires { 0 < cap }
        ensures { IfOk result (λ q. q.capacity ≡ Some cap) }
    {
        let kept = if cap == 1 {
            Kept::Single(Single::new(alloc)?)
        } else {
            Kept::Bounded(Bounded::new(alloc, cap)?)
        };
        Ok(ConcurrentQueue { kept })
    }

    /// Makes a queue without a limit, in blocks of 31 items. It takes no memory until the first push.
    pub fn unbounded(alloc: Global) -> ConcurrentQueue<T>
        ensures { result.capacity ≡ None }
    {
        ConcurrentQueue {
            kept: Kept::Unbounded(Unbounded::new(alloc)),
        }
    }

    /// Appends a value. A refused value comes back, and this call has changed nothing.
    ///
    /// A closed queue answers `Closed`, also where it is full; a full open one answers `Full`. Only an unbounded queue takes
    /// memory, and answers `NoMemory` where there is none. The push of item 2^61 + 1 closes a ring or a chain instead.
    #[inline]
    pub fn push<R: Wait>(&self, rt: &R, value: T) -> Result<(), PushError<T>>
        ensures { MayPush self.now.capacity value result }
    {
        match &self.kept {
            Kept::Single(slot) => slot.push(rt, value),
            Kept::Bounded(ring) => ring.push(rt, value),
            Kept::Unbounded(chain) => chain.push(rt, value),
        }
    }

    /// Appends a value, and on a full queue takes out the oldest item for it, which it returns.
    ///
    /// A closed queue answers `Closed`. A refused value comes back, and this call has changed nothing. Only an unbounded
    /// queue takes memory, and it takes nothing out. The forced push of item 2^61 + 1 closes a ring or a chain instead,
    /// and takes nothing out.
    pub fn force_push<R: Wait>(&self, rt: &R, value: T) -> Result<Option<T>, ForcePushError<T>>
        ensures { MayForcePush self.now.capacity value result }
    {
        match &self.kept {
            Kept::Single(slot) => slot.force_push(rt, value),
            Kept::Bounded(ring) => ring.force_push(rt, value),
            Kept::Unbounded(chain) => chain.force_push(rt, value),
        }
    }

    /// Takes out the oldest item. Without one a closed queue answers `Closed`, and an open one `Empty`.
    #[inline]
    pub fn pop<R: Wait>(&self, rt: &R) -> Result<T, PopError> {
        match &self.kept {
            Kept::Single(slot) => slot.pop(rt),
            Kept::Bounded(ring) => ring.pop(rt),
            Kept::Unbounded(chain) => chain.pop(rt),
        }
    }

    /// Closes the queue to pushes, and answers whether this call did so. The items stay, and may be popped.
    pub fn close<R: Wait>(&self, rt: &R) -> bool {
        match &self.kept {
            Kept::Single(slot) => slot.close(),
            Kept::Bounded(ring) => ring.close(),
            Kept::Unbounded(chain) => chain.close(rt),
        }
    }

    /// How many items are in the queue, at a moment of this call: of a bounded queue no more than its capacity.
    pub fn len<R: Wait>(&self, rt: &R) -> usize
        ensures { IfSome self.now.capacity (λ capacity. result ≤ capacity) }
    {
        match &self.kept {
            Kept::Single(slot) => slot.len(),
            Kept::Bounded(ring) => ring.len(rt),
            Kept::Unbounded(chain) => chain.len(rt),
        }
    }

    /// Whether no item is in the queue, at a moment of this call.
    pub fn is_empty<R: Wait>(&self, rt: &R) -> bool {
        match &self.kept {
            Kept::Single(slot) => slot.is_empty(),
            Kept::Bounded(ring) => ring.is_empty(),
            Kept::Unbounded(chain) => chain.is_empty(rt),
        }
    }

    /// Whether the queue holds as many items as it may, at a moment of this call. An unbounded one never does.
    pub fn is_full<R: Wait>(&self, rt: &R) -> bool
        ensures { (self.now.capacity ≡ None) → (result ≡ false) }
    {
        match &self.kept {
            Kept::Single(slot) => slot.is_full(),
            Kept::Bounded(ring) => ring.is_full(),
            Kept::Unbounded(chain) => chain.is_full(rt),
        }
    }

    /// Whether the queue was closed, at a moment of this call.
    pub fn is_closed<R: Wait>(&self, rt: &R) -> bool {
        match &self.kept {
            Kept::Single(slot) => slot.is_closed(),
            Kept::Bounded(ring) => ring.is_closed(),
            Kept::Unbounded(chain) => chain.is_closed(rt),
        }
    }

    /// How many items the queue may hold, as `bounded` was passed, or `None` where it is unbounded.
    pub fn capacity(&self) -> Option<usize>
        ensures { result ≡ self.now.capacity }
    {
        match &self.kept {
            Kept::Single(_) => Some(1),
            Kept::Bounded(ring) => Some(ring.capacity()),
            Kept::Unbounded(_) => None,
        }
    }

    /// An iterator that pops. It takes out an item only at `next`, and several iterators may walk at the same time.
    pub fn try_iter<'a, R: Wait>(&'a self, rt: &'a R) -> TryIter<'a, T, R>
        ensures { walked_queue result ≡ self.now }
    {
        TryIter::new(self, rt)
    }

    /// Takes the queue apart. It answers what the queue still held, oldest first, and then gives the memory back. This also ends a
    /// queue whose items may not be dropped.
    pub fn take_apart(self) -> Remains<T> {
        let ConcurrentQueue { kept } = self;
        match kept {
            Kept::Single(slot) => Remains::of_places(slot.take_apart()),
            Kept::Bounded(ring) => Remains::of_places(ring.take_apart()),
            Kept::Unbounded(chain) => Remains::of_chain(chain.into_inner()),
        }
    }

    fn glimpse(&self) -> Option<Glimpse>
        ensures { IfSome result (λ glimpse. IfSome self.now.capacity (λ capacity. glimpse.len ≤ capacity)) }
    {
        match &self.kept {
            Kept::Single(slot) => Some(slot.glimpse()),
            Kept::Bounded(ring) => ring.glimpse(),
            Kept::Unbounded(chain) => chain.glimpse(),
        }
    }
}

/// Its length, capacity and whether it is closed.
impl<T> fmt::Debug for ConcurrentQueue<T> {
    fn fmt<W: fmt::Write>(&self, f: &mut fmt::Formatter<W>) -> fmt::Result {
        let capacity = self.capacity();
        let mut text = f.debug_struct("ConcurrentQueue");
        match self.glimpse() {
            Some(Glimpse { len, is_closed }) => text
                .field("len", &len)
                .field("capacity", &capacity)
                .field("is_closed", &is_closed)
                .finish(),
            None => text
                .field("len", &Locked)
                .field("capacity", &capacity)
                .field("is_closed", &Locked)
                .finish(),
        }
    }
}
