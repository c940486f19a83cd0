//! The record of an order, which playing it makes.
ghost use Rattle.orders.specs.Ends.{end_of};
ghost use Rattle.std.specs.Prelude.{◌≡◌, ◌↔◌, IsTrue};

use crate::asking::Asking;
use crate::failure::End;
use crate::order::Order;
use crate::scheduler::Scheduler;
use async_task::Future;
use std::fmt::Debug;

/// An order that was played, and how it ended. Only the end of a `Scheduler` makes one, and it has no drop: who plays an order uses
/// what came of it.
#[must_use]
pub struct Played {
    order: Order,
    end: End,
}

impl Played {
    /// How it ended.
    pub fn end(&self) -> End
        ensures { result ≡ self.now.end }
    {
        self.end
    }

    /// Whether it ended so, which is all that is left of it.
    pub fn is_end(self, end: End) -> bool
        ensures { IsTrue result ↔ (self.end ≡ end) }
    {
        let Played { order: _, end: own } = self;
        own == end
    }

    /// Its calls.
    pub fn into_order(self) -> Order
        ensures { result ≡ self.order }
    {
        let Played { order, end: _ } = self;
        order
    }
}

impl<T: Debug + Drop, F: Future<Asking, Output = T> + Drop> Scheduler<F, T> {
    /// The order that was played, by what the check says of its end. All futures and outputs that are left are dropped.
    pub fn end(self, is_right: bool) -> Played
        ensures { result.end ≡ end_of self.is_over is_right }
    {
        Played {
            end: End::of(self.is_over, is_right),
            order: self.order,
        }
    }
}
