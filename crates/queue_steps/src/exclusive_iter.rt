ghost use Rattle.std.specs.Iterator.{item_count};
ghost use Rattle.queue_steps.specs.ExclusiveIter.{iter_rest, IterSteps};

use crate::exclusive::Exclusive;

/// The items of an `Exclusive` queue, oldest first, each taken out as it is given.
///
/// It ends where no item is left. The items that it has not given stay in the queue.
#[derive(Drop)]
pub struct ExclusiveIter<'a, T> {
    pub(crate) queue: &'a mut Exclusive<T>,
}

impl<'a, T> Iterator for ExclusiveIter<'a, T> {
    type Item = T;

    ghost next_gives = { IterSteps };

    ghost remaining = { item_count iter_rest };

    fn next(&mut self) -> Option<T> {
        self.queue.pop().ok()
    }
}
