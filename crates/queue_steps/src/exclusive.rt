//! The closable queue of one owner, proved once over `Representation`.
ghost use Rattle.std.specs.Prelude.{◌≡◌, ◌≢◌, ◌<◌, ◌↔◌, [], length, IsTrue, None, Some, IfOk, IfErr, OnOk, IsOk};
ghost use Rattle.queue_steps.specs.ClosableQueue.{IsFull, new_queue, count_of_new};
ghost use Rattle.queue_steps.specs.Replies.{Pushes, ForcePushes, Pops, Closes};

use crate::bounded::Bounded;
use crate::errors::{ForcePushError, NoMemory, PopError, PushError};
use crate::exclusive_iter::ExclusiveIter;
use crate::representation::Representation;
use crate::single::Single;
use crate::unbounded::Unbounded;
use std::alloc::Global;
use std::marker::Model;

/// A closable queue for one owner, through `&mut`.
///
/// A contract sees it as a `ClosableQueue`: its items, oldest first, its capacity, whether it was closed, and how many
/// items it has accepted. Its calls are those of `ConcurrentQueue`.
#[derive(Drop)]
pub struct Exclusive<T> {
    kept: Kept<T>,
}

#[derive(Drop)]
enum Kept<T> {
    Single(Single<T>),
    Bounded(Bounded<T>),
    Unbounded(Unbounded<T>),
}

impl<T> Model for Exclusive<T> {
    ghost use Rattle.queue_steps.specs.ClosableQueue.{ClosableQueue};

    ghost Value = { ClosableQueue T };

    ghost use Rattle.queue_steps.specs.Kept.{kept_queue};

    ghost view = { λ q. kept_queue q.kept };
}

impl<T> Exclusive<T> {
    ghost use Rattle.queue_steps.specs.ExclusiveIter.{iter_queue, iter_lender, IterWalks};

    /// A queue that holds at most `cap` items, whose places are taken here: a single slot for 1, which is never refused,
    /// a ring for more.
    ///
    /// A capacity that no buffer can have is refused as want of memory too.
    pub fn bounded(alloc: Global, cap: usize) -> Result<Exclusive<T>, NoMemory>
        requires { 0 < cap }
        ensures queue { IfOk result (λ q. q ≡ new_queue (Some cap) (count_of_new cap)) }
        ensures single { cap ≡ 1 → IsOk result }
    {
        let kept = if cap == 1 {
            Kept::Single(Single::new())
        } else {
            Kept::Bounded(Bounded::new(alloc, cap)?)
        };
        Ok(Exclusive { kept })
    }

    /// A queue without a limit, in blocks of 31 items. It takes no memory until the first push.
    pub fn unbounded(alloc: Global) -> Exclusive<T>
        ensures { result ≡ new_queue None (Some 0) }
    {
        Exclusive {
            kept: Kept::Unbounded(Unbounded::new(alloc)),
        }
    }

    /// Appends a value. A refused value comes back, and the queue stays as it was.
    ///
    /// A closed queue answers `Closed`, also where it is full, and else a full one `Full`. Only an unbounded queue takes
    /// memory, and answers `NoMemory` where there is none. The push of item 2^61 + 1 closes a ring or a chain instead.
    pub fn push(&mut self, value: T) -> Result<(), PushError<T>>
        ensures { Pushes self.old value result self.new }
    {
        match &mut self.kept {
            Kept::Single(queue) => queue.push(value),
            Kept::Bounded(queue) => queue.push(value),
            Kept::Unbounded(queue) => queue.push(value),
        }
    }

    /// Appends a value, and on a full queue takes out the oldest item for it, which it returns.
    ///
    /// A refused value comes back, and the queue stays as it was. Only an unbounded queue takes memory. The forced push
    /// of item 2^61 + 1 closes a ring or a chain instead, and takes nothing out.
    pub fn force_push(&mut self, value: T) -> Result<Option<T>, ForcePushError<T>>
        ensures { ForcePushes self.old value result self.new }
    {
        match &mut self.kept {
            Kept::Single(queue) => queue.force_push(value),
            Kept::Bounded(queue) => queue.force_push(value),
            Kept::Unbounded(queue) => queue.force_push(value),
        }
    }

    /// Takes out the oldest item. Without one a closed queue answers `Closed`, and an open one `Empty`.
    pub fn pop(&mut self) -> Result<T, PopError>
        ensures { Pops self.old result self.new }
    {
        match &mut self.kept {
            Kept::Single(queue) => queue.pop(),
            Kept::Bounded(queue) => queue.pop(),
            Kept::Unbounded(queue) => queue.pop(),
        }
    }

    /// Closes the queue to pushes, and says whether this call did so.
    pub fn close(&mut self) -> bool
        ensures { Closes self.old result self.new }
    {
        match &mut self.kept {
            Kept::Single(queue) => queue.close(),
            Kept::Bounded(queue) => queue.close(),
            Kept::Unbounded(queue) => queue.close(),
        }
    }

    /// How many items are in the queue.
    pub fn len(&self) -> usize
        ensures { result ≡ length self.now.items }
    {
        match &self.kept {
            Kept::Single(queue) => queue.len(),
            Kept::Bounded(queue) => queue.len(),
            Kept::Unbounded(queue) => queue.len(),
        }
    }

    /// Whether no item is in the queue.
    pub fn is_empty(&self) -> bool
        ensures { IsTrue result ↔ (self.now.items ≡ []) }
    {
        match &self.kept {
            Kept::Single(queue) => queue.is_empty(),
            Kept::Bounded(queue) => queue.is_empty(),
            Kept::Unbounded(queue) => queue.is_empty(),
        }
    }

    /// Whether the queue holds as many items as it may. An unbounded one never does.
    pub fn is_full(&self) -> bool
        ensures { IsTrue result ↔ IsFull self.now }
    {
        match &self.kept {
            Kept::Single(queue) => queue.is_full(),
            Kept::Bounded(queue) => queue.is_full(),
            Kept::Unbounded(queue) => queue.is_full(),
        }
    }

    /// Whether the queue was closed.
    pub fn is_closed(&self) -> bool
        ensures { result ≡ self.now.closed }
    {
        match &self.kept {
            Kept::Single(queue) => queue.is_closed(),
            Kept::Bounded(queue) => queue.is_closed(),
            Kept::Unbounded(queue) => queue.is_closed(),
        }
    }

    /// How many items the queue may hold, or `None` where it is unbounded.
    pub fn capacity(&self) -> Option<usize>
        ensures { result ≡ self.now.capacity }
    {
        match &self.kept {
            Kept::Single(queue) => queue.capacity(),
            Kept::Bounded(queue) => queue.capacity(),
            Kept::Unbounded(queue) => queue.capacity(),
        }
    }

    /// Gives the memory of an empty queue back, also where items may not be dropped. A queue that holds items comes back.
    pub fn destroy_empty(self) -> Result<(), Exclusive<T>>
        ensures ok { OnOk result (self.items ≡ []) }
        ensures err { IfErr result (λ back. (back ≡ self) × (self.items ≢ [])) }
    {
        if !self.is_empty() {
            return Err(self);
        }
        match self.kept {
            Kept::Single(queue) => queue.destroy_empty(),
            Kept::Bounded(queue) => queue.destroy_empty(),
            Kept::Unbounded(queue) => queue.destroy_empty(),
        }
        Ok(())
    }

    /// An iterator that pops. Items that it has not given when it is dropped stay in the queue.
    pub fn try_iter(&mut self) -> ExclusiveIter<'_, T>
        ensures queue { iter_queue result ≡ self.old }
        ensures same_reference { iter_lender result ≡ self.entry.ghost_name }
        ensures walks { IterWalks result }
    {
        ExclusiveIter { queue: self }
    }
}
