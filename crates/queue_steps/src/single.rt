//! A queue of one place for one owner. Each of the three representations has the same functions,
//! in the same order.
ghost use Rattle.std.specs.Prelude.{◌≡◌, None, Some, [], false};
ghost use Rattle.queue_steps.specs.ClosableQueue.{new_queue};

use crate::errors::{ForcePushError, PopError, PushError};
use crate::representation::Representation;
use crate::steps::single::{self as steps, ForcePushTurn, PopTurn, PushTurn};
use std::marker::Model;

/// The word of a single slot, and the slot.
#[derive(Drop)]
pub struct Single<T> {
    word: u64,
    slot: Option<T>,
}

impl<T> Model for Single<T> {
    ghost use Rattle.queue_steps.specs.ClosableQueue.{ClosableQueue};

    ghost Value = { ClosableQueue T };

    ghost use Rattle.queue_steps.specs.Single.{slot_queue, SingleAtRest};

    ghost view = { λ s. slot_queue s.word s.slot };

    ghost invariant = { λ s. SingleAtRest s.word s.slot };
}

// Puts a value into a slot that has none.
pub fn fill<T>(slot: &mut Option<T>, value: T)
    requires { slot.old ≡ None }
    ensures { slot.new ≡ Some value }
{
    match slot.replace(value) {
        None => {}
        Some(_value) => unreachable!(),
    }
}

impl<T> Single<T> {
    pub fn new() -> Single<T>
        ensures { result ≡ new_queue (Some 1) None }
    {
        Single {
            word: 0,
            slot: None,
        }
    }

    /// Ends an empty slot, whose item needs no drop then.
    pub fn destroy_empty(self)
        requires { self.items ≡ [] }
    {
        let Single { word: _, slot } = self;
        let None = slot else { unreachable!() };
    }
}

impl<T> Representation<T> for Single<T> {
    ghost queue = { λ q. q };

    fn push(&mut self, value: T) -> Result<(), PushError<T>> {
        match steps::push(self.word) {
            PushTurn::Exchange(_, locked) => {
                self.word = locked;
                fill(&mut self.slot, value);
                self.word -= steps::LOCKED;
                Ok(())
            }
            PushTurn::Full => Err(PushError::Full(value)),
            PushTurn::Closed => Err(PushError::Closed(value)),
            PushTurn::Look => unreachable!(),
        }
    }

    fn force_push(&mut self, value: T) -> Result<Option<T>, ForcePushError<T>> {
        match steps::force_push(self.word) {
            ForcePushTurn::Exchange(_, locked) => {
                self.word = locked;
                let displaced = self.slot.replace(value);
                self.word -= steps::LOCKED;
                Ok(displaced)
            }
            ForcePushTurn::Closed => Err(ForcePushError::Closed(value)),
            ForcePushTurn::Look => unreachable!(),
        }
    }

    fn pop(&mut self) -> Result<T, PopError> {
        match steps::pop(self.word) {
            PopTurn::Exchange(_, locked) => {
                self.word = locked;
                let item = self.slot.take();
                self.word -= steps::LOCKED;
                Ok(item.unwrap())
            }
            PopTurn::Empty => Err(PopError::Empty),
            PopTurn::Closed => Err(PopError::Closed),
            PopTurn::Look => unreachable!(),
        }
    }

    fn close(&mut self) -> bool {
        let first = steps::close(self.word);
        if first {
            self.word += steps::CLOSED;
        }
        first
    }

    fn len(&self) -> usize {
        steps::len(self.word) as usize
    }

    fn is_empty(&self) -> bool {
        steps::is_empty(self.word)
    }

    fn is_full(&self) -> bool {
        steps::is_full(self.word)
    }

    fn is_closed(&self) -> bool {
        steps::is_closed(self.word)
    }

    fn capacity(&self) -> Option<usize>
        ensures capacity { result ≡ self.now.capacity }
        ensures one { result ≡ Some 1 }
    {
        let _word = self.word;
        Some(1)
    }
}
