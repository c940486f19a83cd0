//! A ring of places for one owner.
ghost use Rattle.std.specs.Prelude.{◌≡◌, ◌<◌, ◌+◌, ◌*◌, ◌%◌, ◌^◌, [], None, Some, IsSome, OnOk, IfOk, vec_len, All};
ghost use Rattle.queue_steps.specs.ClosableQueue.{new_queue};
ghost use Rattle.queue_steps.specs.Bounded.{IsPlaceWord, next_at};
ghost use Rattle.queue_steps.specs.BoundedAtRest.{BoundedAtRest, AreFresh, slot_at, filled_at, emptied_at};
ghost use Rattle.queue_steps.specs.BoundedEnds.{PushEnds, ForcePushEnds, PopEnds};

use crate::errors::{ForcePushError, NoMemory, PopError, PushError};
use crate::representation::Representation;
use crate::steps::bounded::{self as steps, ForcePushTurn, PopTurn, PushTurn, Shape};
use std::alloc::Global;
use std::marker::Model;

/// A place of a ring.
#[derive(Drop)]
pub struct Slot<T> {
    stamp: u64,
    value: Option<T>,
}

/// The words of a ring, and its places.
#[derive(Drop)]
pub struct Bounded<T> {
    shape: Shape,
    tail: u64,
    head: u64,
    slots: Vec<Slot<T>>,
}

impl<T> Model for Bounded<T> {
    ghost use Rattle.queue_steps.specs.ClosableQueue.{ClosableQueue};

    ghost Value = { ClosableQueue T };

    ghost use Rattle.queue_steps.specs.BoundedAtRest.{ring_queue, BoundedAtRest};

    ghost view = { λ r. ring_queue r.shape.capacity r.shape.mark r.tail r.head r.slots.items };

    ghost invariant = { λ r. BoundedAtRest r.shape.capacity r.shape.mark r.tail r.head r.slots.items };
}

// What a push does once it has looked at the tail and at the stamp there. A place that still has an item is on a full ring.
fn find_push<T>(shape: Shape, tail: u64, head: u64, slots: &[Slot<T>]) -> PushTurn
    requires { BoundedAtRest shape.capacity shape.mark tail head slots.now }
    ensures { PushEnds shape.capacity shape.mark tail head result }
{
    let turn = steps::push_at_tail(shape, tail);
    let PushTurn::Stamp(_) = turn else {
        return turn;
    };
    steps::push_at_stamp(shape, tail, slots[shape.index(tail) as usize].stamp)
}

// The same of a forced push, which looks at the head of a full ring too.
fn find_force_push<T>(shape: Shape, tail: u64, head: u64, slots: &[Slot<T>]) -> ForcePushTurn
    requires { BoundedAtRest shape.capacity shape.mark tail head slots.now }
    ensures { ForcePushEnds shape.capacity shape.mark tail head result }
{
    match find_push(shape, tail, head, slots) {
        PushTurn::HeadFor(_) => steps::force_push_at_head(shape, tail, head),
        turn => ForcePushTurn::Push(turn),
    }
}

// What a pop does once it has looked at the words of a ring.
fn find_pop<T>(shape: Shape, tail: u64, head: u64, slots: &[Slot<T>]) -> PopTurn
    requires { BoundedAtRest shape.capacity shape.mark tail head slots.now }
    ensures { PopEnds shape.capacity shape.mark tail head result }
{
    let turn = steps::pop_at_stamp(shape, head, slots[shape.index(head) as usize].stamp);
    let PopTurn::TailFor(_) = turn else {
        return turn;
    };
    steps::pop_at_tail(shape, head, tail)
}

// Moves the tail on, and fills the place that it named. What was in that place comes back.
#[tactic(auto, using(crate::proofs::BoundedWords::place_fits))]
fn append<T>(shape: Shape, tail: &mut u64, slots: &mut Vec<Slot<T>>, value: T) -> Option<T>
    requires place { IsPlaceWord shape.capacity shape.mark tail.old }
    requires slots { vec_len slots.old ≡ shape.capacity }
    ensures tail { tail.new ≡ next_at shape.capacity shape.mark tail.old }
    ensures slots { slots.new.items ≡ filled_at slots.old.items (tail.old % shape.mark) (tail.old + 1) value }
    ensures old { result ≡ (slot_at slots.old.items (tail.old % shape.mark)).value }
{
    let word = *tail;
    *tail = shape.next(word);
    let slot = &mut slots[shape.index(word) as usize];
    slot.stamp = word + 1;
    slot.value.replace(value)
}

// Moves the head on, and empties the place that it named.
#[tactic(auto, using(crate::proofs::BoundedWords::place_fits))]
fn take<T>(shape: Shape, head: &mut u64, slots: &mut Vec<Slot<T>>) -> Option<T>
    requires place { IsPlaceWord shape.capacity shape.mark head.old }
    requires slots { vec_len slots.old ≡ shape.capacity }
    ensures head { head.new ≡ next_at shape.capacity shape.mark head.old }
    ensures slots { slots.new.items ≡ emptied_at slots.old.items (head.old % shape.mark) (head.old + 2 * shape.mark) }
    ensures item { result ≡ (slot_at slots.old.items (head.old % shape.mark)).value }
{
    let word = *head;
    *head = shape.next(word);
    let slot = &mut slots[shape.index(word) as usize];
    slot.stamp = word + shape.lap();
    slot.value.take()
}

// The places of a new ring, of which none has an item. A ring of 2^60 places is larger than any memory.
fn free_slots<T>(alloc: Global, capacity: usize) -> Result<Vec<Slot<T>>, NoMemory>
    ensures few { OnOk result (capacity < 2 ^ 60) }
    ensures slots { IfOk result (λ slots. AreFresh capacity slots.items) }
{
    if capacity >= 1 << 60 {
        return Err(NoMemory);
    }
    let Ok(mut slots) = Vec::with_capacity(alloc, capacity) else {
        return Err(NoMemory);
    };
    for stamp in 0..capacity as u64 {
        slots.push_reserved(Slot { stamp, value: None });
    }
    Ok(slots)
}

// Gives the memory of places back that have no item.
fn discard<T>(mut slots: Vec<Slot<T>>)
    requires { All (λ slot. slot.value ≡ None) slots.items }
{
    while let Some(slot) = slots.pop() {
        let Slot { stamp: _, value } = slot;
        let None = value else { unreachable!() };
    }
    slots.destroy_empty();
}

impl<T> Bounded<T> {
    /// An empty ring, with the memory of all its places.
    pub fn new(alloc: Global, capacity: usize) -> Result<Bounded<T>, NoMemory>
        requires { 0 < capacity }
        ensures { IfOk result (λ q. q ≡ new_queue (Some capacity) (Some 0)) }
    {
        let slots = free_slots(alloc, capacity)?;
        Ok(Bounded {
            shape: Shape::new(capacity as u64),
            tail: 0,
            head: 0,
            slots,
        })
    }

    /// Gives the memory of an empty ring back.
    pub fn destroy_empty(self)
        requires { self.items ≡ [] }
    {
        let Bounded {
            shape: _,
            tail: _,
            head: _,
            slots,
        } = self;
        discard(slots);
    }
}

impl<T> Representation<T> for Bounded<T> {
    ghost queue = { λ q. q };

    fn push(&mut self, value: T) -> Result<(), PushError<T>> {
        match find_push(self.shape, self.tail, self.head, &self.slots) {
            PushTurn::Append(_) => {
                match append(self.shape, &mut self.tail, &mut self.slots, value) {
                    None => Ok(()),
                    Some(_) => unreachable!(),
                }
            }
            PushTurn::Spend(_) => {
                self.tail += self.shape.mark;
                Err(PushError::Closed(value))
            }
            PushTurn::HeadFor(_) => Err(PushError::Full(value)),
            PushTurn::Closed => Err(PushError::Closed(value)),
            PushTurn::Tail | PushTurn::Stamp(_) => unreachable!(),
        }
    }

    fn force_push(&mut self, value: T) -> Result<Option<T>, ForcePushError<T>> {
        match find_force_push(self.shape, self.tail, self.head, &self.slots) {
            ForcePushTurn::Push(PushTurn::Append(_)) => {
                Ok(append(self.shape, &mut self.tail, &mut self.slots, value))
            }
            ForcePushTurn::Displace(_) => {
                self.head = self.shape.next(self.head);
                Ok(append(self.shape, &mut self.tail, &mut self.slots, value))
            }
            ForcePushTurn::Push(PushTurn::Spend(_)) => {
                self.tail += self.shape.mark;
                Err(ForcePushError::Closed(value))
            }
            ForcePushTurn::Push(_) => Err(ForcePushError::Closed(value)),
        }
    }

    fn pop(&mut self) -> Result<T, PopError> {
        match find_pop(self.shape, self.tail, self.head, &self.slots) {
            PopTurn::Take(_) => Ok(take(self.shape, &mut self.head, &mut self.slots).unwrap()),
            PopTurn::Empty => Err(PopError::Empty),
            PopTurn::Closed => Err(PopError::Closed),
            PopTurn::Head | PopTurn::Stamp(_) | PopTurn::TailFor(_) => unreachable!(),
        }
    }

    fn close(&mut self) -> bool {
        let first = steps::close(self.shape, self.tail);
        if first {
            self.tail += self.shape.mark;
        }
        first
    }

    fn len(&self) -> usize {
        steps::len(self.shape, self.tail, self.head) as usize
    }

    fn is_empty(&self) -> bool {
        steps::is_empty(self.shape, self.head, self.tail)
    }

    fn is_full(&self) -> bool {
        steps::is_full(self.shape, self.tail, self.head)
    }

    fn is_closed(&self) -> bool {
        steps::is_closed(self.shape, self.tail)
    }

    fn capacity(&self) -> Option<usize>
        ensures capacity { result ≡ self.now.capacity }
        ensures bounded { IsSome result }
    {
        Some(self.shape.capacity as usize)
    }
}
