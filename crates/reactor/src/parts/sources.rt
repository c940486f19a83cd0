//! The sources that a reactor knows, each under its key.
ghost use Rattle.std.specs.Option.{option_copied};
ghost use Rattle.std.specs.Prelude.{◌≡◌, ◌+◌, ◌≤◌, ℕ, IfErr, IfOk, None, OnErr, OnOk, Some, false, is_some, nat_eq, true};
ghost use Rattle.std.specs.HashMap.{get};

use std::alloc::Global;
use std::collections::HashMap;
use std::mem;

/// The sources, each under a key that none had before. Each call is one section of whoever locks it; only `enter` takes memory. No
/// call drops a source: the caller drops each that comes out, once it has released the lock.
#[derive(Drop)]
pub struct Sources<S> {
    next: usize,
    is_closed: bool,
    entries: HashMap<usize, S>,
    ghost fresh: { (key : ℕ) → next ≤ key → is_some (get nat_eq entries key) ≡ false },
}

/// The key of a source, as the source has it. It has no drop: its owner leaves.
#[must_use]
pub struct Key {
    number: usize,
}

/// Why a source may not enter. The source comes back.
#[derive(Drop)]
pub enum Refused<S> {
    /// For want of memory, or after 2^64 - 1 sources.
    NoMemory(S),
    /// The reactor is closed.
    Closed(S),
}

impl Key {
    /// The key under which the poller has to know the source. It is below 2^64 - 1.
    pub fn number(&self) -> usize
        ensures { result ≡ self.now.number }
    {
        self.number
    }
}

impl<S: Drop> Sources<S> {
    ghost use Rattle.std.specs.HashMap.{IsEmpty, IsUnchanged};
    ghost use Rattle.reactor.specs.Tables.{IsRefused, OnlyAt, value_at};

    /// Makes an empty table. Takes no memory.
    pub fn new(alloc: Global) -> Self
        ensures open { result.is_closed ≡ false }
        ensures none { IsEmpty result.entries }
        ensures first { result.next ≡ 0 }
    {
        Sources {
            next: 0,
            is_closed: false,
            entries: HashMap::new(alloc),
        }
    }

    /// Adds a source, under the next key.
    pub fn enter(&mut self, source: S) -> Result<Key, Refused<S>>
        ensures key { IfOk result (λ key. key.number ≡ self.old.next) }
        ensures was_free { OnOk result (get nat_eq self.old.entries self.old.next ≡ None) }
        ensures there { OnOk result (OnlyAt self.old.next (Some source) self.old self.new) }
        ensures next { OnOk result (self.new.next ≡ self.old.next + 1) }
        ensures open { OnOk result (self.old.is_closed ≡ false) }
        ensures terms { self.new.is_closed ≡ self.old.is_closed }
        ensures why { IfErr result (λ refused. IsRefused self.old.is_closed refused) }
        ensures back { IfErr result (λ refused. value_at refused ≡ source) }
        ensures others { OnErr result (IsUnchanged self.old.entries self.new.entries) }
        ensures same_next { OnErr result (self.new.next ≡ self.old.next) }
    {
        if self.is_closed {
            return Err(Refused::Closed(source));
        }
        let number = self.next;
        if number == usize::MAX {
            return Err(Refused::NoMemory(source));
        }
        match self.entries.insert(number, source) {
            Ok(_none) => {
                self.next = number + 1;
                Ok(Key { number })
            }
            Err(failed) => Err(Refused::NoMemory(failed.value.1)),
        }
    }

    /// The source under this key, where one is there.
    pub fn get(&self, number: usize) -> Option<&S>
        ensures { option_copied result ≡ get nat_eq self.now.entries number }
    {
        self.entries.get(&number)
    }

    /// Removes the source, which comes out, unless the reactor was closed before.
    pub fn leave(&mut self, key: Key) -> Option<S>
        ensures out { result ≡ get nat_eq self.old.entries key.number }
        ensures gone { OnlyAt key.number None self.old self.new }
        ensures next { self.new.next ≡ self.old.next }
        ensures terms { self.new.is_closed ≡ self.old.is_closed }
    {
        let Key { number } = key;
        self.entries.remove(&number)
    }

    /// Whether it was closed.
    pub fn is_closed(&self) -> bool
        ensures { result ≡ self.now.is_closed }
    {
        self.is_closed
    }

    /// Closes the table: no source may enter from now on. All that are there come out.
    pub fn close(&mut self, alloc: Global) -> HashMap<usize, S>
        ensures out { result ≡ self.old.entries }
        ensures closed { self.new.is_closed ≡ true }
        ensures none { IsEmpty self.new.entries }
        ensures next { self.new.next ≡ self.old.next }
    {
        self.is_closed = true;
        mem::replace(&mut self.entries, HashMap::new(alloc))
    }
}
