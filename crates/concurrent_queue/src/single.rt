//! The single slot that threads share without a lock: its word and its slot stand in a table of atomic steps.

// Each call takes a seat, makes the running call and gives the seat back.
ghost use Rattle.std.specs.Prelude.{◌≡◌, ◌≤◌, Some};
ghost use Rattle.concurrent_queue.specs.SharedQueue.{MayPush, MayForcePush};
ghost use Rattle.concurrent_queue.specs.SingleSeat.{IsSeatOf};

pub(crate) mod calls;
pub mod moves;
pub mod plays;
pub(crate) mod popping;
pub(crate) mod pushing;
pub mod rule;

use crate::glimpse::Glimpse;
use crate::places::Places;
use atomic_table::Table;
use moves::Pass;
use plays::Begin;
use queue_steps::{ForcePushError, NoMemory, PopError, PushError};
use rule::{Doing, SingleRule};
use std::alloc::{AllocError, Global};
use std::sync::Wait;

/// A closable queue of one place, which threads share by `&`.
#[derive(Drop)]
pub struct Single<T> {
    pub board: Table<Option<T>, Doing, (), SingleRule, Global>,
    ghost sized: { (board.shared.table_id.words ≡ 1) × (board.shared.table_id.slots ≡ 1) },
}

impl<T> Single<T> {
    /// Makes an empty slot.
    pub fn new(alloc: Global) -> Result<Single<T>, NoMemory> {
        match Table::vacant(alloc, &[0], 1, &()) {
            Ok((board, _)) => Ok(Single { board }),
            Err(AllocError) => Err(NoMemory),
        }
    }

    /// Makes a new seat, for calls of `seated::single`. It has no bytes.
    #[inline(always)]
    pub fn seat(&self) -> Pass<T>
        ensures { IsSeatOf self.now.board.shared result }
    {
        self.board.shared.load_new_seat::<Begin>(0).1
    }

    #[inline(always)]
    pub(crate) fn push<R: Wait>(&self, rt: &R, value: T) -> Result<(), PushError<T>>
        ensures { MayPush (Some 1) value result }
    {
        pushing::push(rt, self, &mut self.seat(), value)
    }

    pub(crate) fn force_push<R: Wait>(
        &self,
        rt: &R,
        value: T,
    ) -> Result<Option<T>, ForcePushError<T>>
        ensures { MayForcePush (Some 1) value result }
    {
        pushing::force_push(rt, self, &mut self.seat(), value)
    }

    #[inline(always)]
    pub(crate) fn pop<R: Wait>(&self, rt: &R) -> Result<T, PopError> {
        popping::pop(rt, self, &mut self.seat())
    }

    pub(crate) fn close(&self) -> bool {
        calls::close(self, &mut self.seat())
    }

    pub(crate) fn len(&self) -> usize
        ensures { result ≤ 1 }
    {
        calls::len(self, &mut self.seat())
    }

    pub(crate) fn is_empty(&self) -> bool {
        calls::is_empty(self, &mut self.seat())
    }

    pub(crate) fn is_full(&self) -> bool {
        calls::is_full(self, &mut self.seat())
    }

    pub(crate) fn is_closed(&self) -> bool {
        calls::is_closed(self, &mut self.seat())
    }

    /// Its place, with what is in it.
    pub(crate) fn take_apart(self) -> Places<T> {
        Places::new(self.board.close(), 0)
    }

    /// Its length and whether it is closed, each read at its own moment.
    pub(crate) fn glimpse(&self) -> Glimpse
        ensures { result.len ≤ 1 }
    {
        Glimpse {
            len: self.len(),
            is_closed: self.is_closed(),
        }
    }
}
