//! The word that says whether a sleeper has to be notified.
ghost use Rattle.std.specs.Prelude.{◌≡◌};
ghost use Rattle.executor_parts.specs.Sleepers.{flag_of};

use crossbeam_utils::CachePadded;
use crossbeam_utils::atomic::AtomicCell;
use executor_parts::Sleepers;
use std::marker::Model;

/// Whether a tick or run that sleeps has been notified, or none sleeps. Each access is one call here. The word's type takes no
/// ordering, so none can be named: all its steps are in one order. It has its cache lines to itself.
#[derive(Drop)]
pub struct Flag {
    word: CachePadded<AtomicCell<bool>>,
}

/// The flag's next value, which the holder of the sleepers' lock still has to store. It has no drop: it is stored.
#[must_use]
pub struct NewFlag {
    notified: bool,
}

impl Model for NewFlag {
    ghost use Rattle.std.specs.Prelude.{Bool};

    ghost Value = { Bool };

    ghost view = { λ f. f.notified };
}

impl NewFlag {
    /// Makes the next value.
    pub fn of(notified: bool) -> NewFlag
        ensures { result ≡ notified }
    {
        NewFlag { notified }
    }
}

impl Flag {
    /// The flag of an executor where nobody sleeps.
    pub fn new() -> Flag {
        Flag {
            word: CachePadded::new(AtomicCell::new(true)),
        }
    }

    /// Exchanges the flag from false to true, and answers whether it was false. It reads the flag first. Where it reads true it
    /// does as a failed exchange does, and leaves the cache line to all threads.
    #[inline(always)]
    pub fn exchange(&self) -> bool {
        !self.word.load() && self.word.compare_exchange(false, true).is_ok()
    }

    /// Stores what the list of sleepers says, which is lent for as long as their lock is held.
    pub fn store<W>(&self, sleepers: &Sleepers<W>, new: NewFlag)
        requires { new ≡ flag_of sleepers.now }
    {
        let _ = sleepers;
        let NewFlag { notified } = new;
        self.word.store(notified);
    }
}
