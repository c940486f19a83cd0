//! The own queue of a run.
ghost use Rattle.std.specs.Prelude.{◌≡◌, ◌+◌, ◌-◌, ◌++◌, ◌≤◌, true, false};
ghost use Rattle.std.specs.Prelude.{nat_lt, List, [], ◌∷◌, length, drop};
ghost use Rattle.std.specs.Prelude.{IfOk, IfSome, IfNone};

use std::alloc::{AllocError, Global};
use std::collections::VecDeque;
use std::marker::Model;

/// How many places an own queue has.
pub const PLACES: usize = 512;

/// The own queue of a run: at most 512 Runnables, by their futures. All its places are made with it.
#[derive(Drop)]
pub struct OwnQueue {
    items: VecDeque<u64>,
}

impl Model for OwnQueue {
    ghost use Rattle.std.specs.Prelude.{◌≤◌, ℕ, List};
    ghost use Rattle.std.specs.VecDeque.{deque_capacity, deque_len};

    ghost Value = { List ℕ };

    ghost view = { λ q. q.items.items };

    ghost invariant = { λ q. (deque_len q.items ≤ 512) × (512 ≤ deque_capacity q.items) };
}

impl OwnQueue {
    /// An empty queue with all its places.
    pub fn new(alloc: Global) -> Result<OwnQueue, AllocError>
        ensures { IfOk result (λ q. q ≡ []) }
    {
        let mut items = VecDeque::new(alloc);
        items.reserve(PLACES)?;
        Ok(OwnQueue { items })
    }

    /// How many Runnables stand in it.
    pub fn len(&self) -> usize
        ensures { result ≡ length self.now }
    {
        self.items.len()
    }

    /// How many places are free.
    pub fn free_places(&self) -> usize
        ensures { result ≡ 512 - length self.now }
    {
        PLACES - self.items.len()
    }

    /// The first is taken, where there is one.
    pub fn take(&mut self) -> Option<u64>
        ensures none { IfNone result ((self.old ≡ []) × (self.new ≡ [])) }
        ensures some { IfSome result (λ f. self.old ≡ f ∷ self.new) }
    {
        self.items.pop_front()
    }

    /// One is appended, where a place is free. Answers whether one is. Takes no memory.
    pub fn append(&mut self, f: u64) -> bool
        ensures free { result ≡ nat_lt (length self.old) 512 }
        ensures kept { result ≡ true → self.new ≡ self.old ++ f ∷ [] }
        ensures same { result ≡ false → self.new ≡ self.old }
    {
        if self.items.len() >= PLACES {
            return false;
        }
        self.items.push_back_reserved(f);
        true
    }
}
