//! What the three queues for one owner have in common, with the closable queue as its meaning.
ghost use Rattle.std.specs.Prelude.{◌≡◌, ◌↔◌, [], length, IsTrue};
ghost use Rattle.queue_steps.specs.ClosableQueue.{ClosableQueue, IsFull};
ghost use Rattle.queue_steps.specs.Replies.{Pushes, ForcePushes, Pops, Closes};

use crate::errors::{ForcePushError, PopError, PushError};

/// A way to keep a closable queue for one owner. Nothing that these calls are given is dropped.
pub trait Representation<T> {
    // The closable queue that it keeps.
    ghost queue: { Self → ClosableQueue T };

    /// Adds an item at the end. A refusal hands it back.
    fn push(&mut self, value: T) -> Result<(), PushError<T>>
        ensures { Pushes (queue self.old) value result (queue self.new) };

    /// Adds an item at the end, in the place of the first one where the queue is full.
    fn force_push(&mut self, value: T) -> Result<Option<T>, ForcePushError<T>>
        ensures { ForcePushes (queue self.old) value result (queue self.new) };

    /// Takes the first item out.
    fn pop(&mut self) -> Result<T, PopError>
        ensures { Pops (queue self.old) result (queue self.new) };

    /// Closes the queue, and answers whether it was open.
    fn close(&mut self) -> bool
        ensures { Closes (queue self.old) result (queue self.new) };

    /// How many items the queue holds.
    fn len(&self) -> usize
        ensures { result ≡ length (queue self.now).items };

    /// Whether it holds none.
    fn is_empty(&self) -> bool
        ensures { IsTrue result ↔ ((queue self.now).items ≡ []) };

    /// Whether it holds as many as it may.
    fn is_full(&self) -> bool
        ensures { IsTrue result ↔ IsFull (queue self.now) };

    /// Whether it is closed.
    fn is_closed(&self) -> bool
        ensures { result ≡ (queue self.now).closed };

    /// How many items it may hold, or `None` where nothing limits them.
    fn capacity(&self) -> Option<usize>
        ensures { result ≡ (queue self.now).capacity };
}
