ghost use Rattle.std.specs.Prelude.{◌≡◌};

use crate::parts::{Left, Taken, Ticket, Waited};
use crate::table::Table;
use std::sync::{Arc, Wait};

/// A future's seat at its bridge. Dropped, it is left.
pub struct Place<K: Drop, R: Wait + Copy + Drop> {
    rt: R,
    table: Arc<Table<K>>,
    ticket: Ticket,
}

impl<K: Drop, R: Wait + Copy + Drop> Place<K, R> {
    ghost use Rattle.kit_futures.specs.Seats.{IsTurnOf};

    pub fn new(rt: R, table: Arc<Table<K>>, ticket: Ticket) -> Self
        ensures table { result.table ≡ table }
        ensures ticket { result.ticket ≡ ticket }
    {
        Place { rt, table, ticket }
    }

    /// The number of the future.
    pub fn ticket(&self) -> &Ticket
        ensures { result.now ≡ self.now.ticket }
    {
        &self.ticket
    }

    /// Takes the turn of the future.
    pub fn take(&self) -> Taken
        ensures { IsTurnOf self.now.ticket.number result }
    {
        self.table.lock(&self.rt).take(&self.ticket)
    }

    /// Leaves this waker in the place of the one before, unless the future was woken.
    pub fn wait(&self, waker: K) -> Waited<K> {
        self.table.lock(&self.rt).wait(&self.ticket, waker)
    }

    /// Leaves the seat. What stood there is dropped with no lock held.
    pub fn leave(self) -> Left
        ensures { result.number ≡ self.ticket.number }
    {
        let Place { rt, table, ticket } = self;
        let (left, seat) = table.lock(&rt).leave(ticket);
        drop(seat);
        left
    }
}

impl<K: Drop, R: Wait + Copy + Drop> Drop for Place<K, R> {
    fn drop(self) {
        let _left = self.leave();
    }
}
