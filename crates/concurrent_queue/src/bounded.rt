//! The ring that threads share without a lock: its words and its places stand in a table of atomic steps.

// Each call takes a seat, makes the running call and gives the seat back.
ghost use Rattle.std.specs.Prelude.{◌≡◌, ◌<◌, ◌≤◌, ◌+◌, ◌^◌, Some, IfOk, IfSome, OnOk, length, slice_index_or};
ghost use Rattle.concurrent_queue.specs.BoundedRule.{AreNewWords};
ghost use Rattle.concurrent_queue.specs.SharedQueue.{MayPush, MayForcePush};
ghost use Rattle.concurrent_queue.specs.BoundedSeat.{IsFreeSeatOf};

pub(crate) mod calls;
pub mod moves;
pub mod plays;
pub(crate) mod popping;
pub(crate) mod pushing;
pub mod rule;

use crate::glimpse::{Glimpse, TRIES};
use crate::places::Places;
use atomic_table::Table;
use moves::{HEAD, Pass, STAMPS, UNUSED};
use plays::Look;
use queue_steps::steps::bounded::Shape;
use queue_steps::{ForcePushError, NoMemory, PopError, PushError};
use rule::{BoundedRule, Doing};
use std::alloc::Global;
use std::sync::Wait;

/// A closable queue of a fixed number of places, which threads share by `&`.
#[derive(Drop)]
pub struct Bounded<T> {
    pub board: Table<Option<T>, Doing, Shape, BoundedRule, Global>,
    pub shape: Shape,
    ghost sized: { (board.shared.table_id.words ≡ shape.capacity + 32) × (board.shared.table_id.slots ≡ shape.capacity)
        × (board.shared.key ≡ shape) },
}

// The words of a new ring: each stamp is the index of its place.
fn new_words(alloc: Global, capacity: usize) -> Result<Vec<u64>, NoMemory>
    requires { capacity < 2 ^ 60 }
    ensures { IfOk result (λ words. AreNewWords capacity words.items) }
{
    let Ok(mut words) = Vec::from_elem(alloc, 0u64, capacity + STAMPS) else {
        return Err(NoMemory);
    };
    let row = words.as_mut_slice();
    for index in 0..capacity {
        row[index + STAMPS] = index as u64;
    }
    Ok(words)
}

impl<T> Bounded<T> {
    /// Makes a ring of this many places. One of 2^60 places is larger than any memory.
    pub fn new(alloc: Global, capacity: usize) -> Result<Bounded<T>, NoMemory>
        requires { 0 < capacity }
        ensures { IfOk result (λ ring. ring.shape.capacity ≡ capacity) }
    {
        if capacity >= 1 << 60 {
            return Err(NoMemory);
        }
        let shape = Shape::new(capacity as u64);
        let words = new_words(alloc, capacity)?;
        let Ok((board, _)) = Table::vacant(alloc, words.as_slice(), capacity, &shape) else {
            return Err(NoMemory);
        };
        Ok(Bounded { board, shape })
    }

    /// Makes a new seat, for calls of `seated::bounded`. It has no bytes.
    ///
    /// The word that it is taken by is one that no call writes, so that a pop doesn't look where pushes write.
    #[inline(always)]
    pub fn seat(&self) -> Pass<T>
        ensures { IsFreeSeatOf self.now.board.shared self.now.shape result }
    {
        self.board.shared.load_new_seat::<Look>(UNUSED).1
    }

    #[inline(always)]
    pub(crate) fn push<R: Wait>(&self, rt: &R, value: T) -> Result<(), PushError<T>>
        ensures { MayPush (Some self.now.shape.capacity) value result }
    {
        pushing::push(rt, self, &mut self.seat(), value)
    }

    pub(crate) fn force_push<R: Wait>(
        &self,
        rt: &R,
        value: T,
    ) -> Result<Option<T>, ForcePushError<T>>
        ensures { MayForcePush (Some self.now.shape.capacity) value result }
    {
        pushing::force_push(rt, self, &mut self.seat(), value)
    }

    #[inline(always)]
    pub(crate) fn pop<R: Wait>(&self, rt: &R) -> Result<T, PopError> {
        popping::pop(rt, self, &mut self.seat())
    }

    pub(crate) fn close(&self) -> bool {
        calls::close(self, &mut self.seat())
    }

    pub(crate) fn len<R: Wait>(&self, rt: &R) -> usize
        ensures { result ≤ self.now.shape.capacity }
    {
        calls::len(rt, self, &mut self.seat())
    }

    pub(crate) fn is_empty(&self) -> bool {
        calls::is_empty(self, &mut self.seat())
    }

    pub(crate) fn is_full(&self) -> bool {
        calls::is_full(self, &mut self.seat())
    }

    pub(crate) fn is_closed(&self) -> bool {
        calls::is_closed(self, &mut self.seat())
    }

    /// How many places it has.
    pub(crate) fn capacity(&self) -> usize
        ensures { result ≡ self.now.shape.capacity }
    {
        self.board.slot_count()
    }

    /// Its places, from the head on.
    pub(crate) fn take_apart(self) -> Places<T> {
        let head = self.shape.index(self.board.shared.peek(HEAD)) as usize;
        let first = if head < self.board.slot_count() {
            head
        } else {
            0
        };
        Places::new(self.board.close(), first)
    }

    /// Its length and whether it is closed, each read at its own moment. It waits for nobody, and answers `None` where the tail
    /// moved at each of many tries.
    pub(crate) fn glimpse(&self) -> Option<Glimpse>
        ensures { IfSome result (λ glimpse. glimpse.len ≤ self.now.shape.capacity) }
    {
        let len = calls::try_len(self, &mut self.seat(), TRIES)?;
        Some(Glimpse {
            len,
            is_closed: self.is_closed(),
        })
    }
}
