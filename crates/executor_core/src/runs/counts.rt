//! What a run counts.
ghost use Rattle.std.specs.Prelude.{◌≡◌, ◌+◌, ◌==◌, cond};

use std::marker::Model;

/// At every 64th task that it has counted in its life, a run steals from the executor's queue.
const STEALS_AT: u64 = 64;

/// After 200 tasks a run lets others go first.
const PAUSES_AT: u64 = 200;

/// How many tasks a run has counted since it last stole so, and how many it has taken since it last let others go first.
#[derive(Drop)]
pub struct Counts {
    counted: u64,
    taken: u64,
}

impl Model for Counts {
    ghost use Rattle.std.specs.Prelude.{◌<◌};
    ghost use Rattle.executor_core.specs.Counted.{Counted};

    ghost Value = { Counted };

    ghost view = { λ c. record { counted = c.counted; taken = c.taken } };

    ghost invariant = { λ c. (c.counted < 64) × (c.taken < 200) };
}

impl Counts {
    /// Nothing is counted.
    pub fn new() -> Counts
        ensures { result ≡ record { counted = 0; taken = 0 } }
    {
        Counts {
            counted: 0,
            taken: 0,
        }
    }

    /// One more task is counted. Answers whether this is the 64th, and the count begins anew.
    pub fn count(&mut self) -> bool
        ensures full { result ≡ (self.old.counted + 1 == 64) }
        ensures counted { self.new ≡ record self.old { counted = cond result 0 (self.old.counted + 1) } }
    {
        let counted = self.counted + 1;
        if counted == STEALS_AT {
            self.counted = 0;
            return true;
        }
        self.counted = counted;
        false
    }

    /// One more task is taken. Answers whether this is the 200th, and the count begins anew.
    pub fn take(&mut self) -> bool
        ensures full { result ≡ (self.old.taken + 1 == 200) }
        ensures taken { self.new ≡ record self.old { taken = cond result 0 (self.old.taken + 1) } }
    {
        let taken = self.taken + 1;
        if taken == PAUSES_AT {
            self.taken = 0;
            return true;
        }
        self.taken = taken;
        false
    }
}
