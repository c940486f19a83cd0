//! What a run counts.
ghost use Rattle.std.specs.Prelude.{◌≡◌, ◌+◌, ◌==◌, cond, is_some};
ghost use Rattle.async_executor.specs.Counted.{searcher};

use call_steps::Searcher;
use std::marker::Model;

/// At every 64th task that it has counted in its life, a run steals from the executor's queue.
const STEALS_AT: u64 = 64;

/// After 200 tasks a run lets others go first.
const PAUSES_AT: u64 = 200;

/// How many tasks a run has counted since its last regular steal, and how many it has run since it last let others go first.
#[derive(Drop)]
pub struct Counts {
    counted: u64,
    taken: u64,
}

/// Says that a run has to steal from the executor's queue, before it runs the next task. It has no drop.
#[must_use]
pub struct OwesSteal {
    own: (),
}

/// Says that a run has taken 200 tasks since it last let others go first, and does so at the end of this poll. It has no drop.
#[must_use]
pub struct GivesWay {
    own: (),
}

impl GivesWay {
    /// The poll ends.
    pub fn spend(self) {
        let GivesWay { own: () } = self;
    }
}

impl Model for Counts {
    ghost use Rattle.std.specs.Prelude.{◌<◌};
    ghost use Rattle.async_executor.specs.Counted.{Counted};

    ghost Value = { Counted };

    ghost view = { λ c. record { counted = c.counted; taken = c.taken } };

    ghost invariant = { λ c. (c.counted < 64) × (c.taken < 200) };
}

impl Counts {
    /// Makes counts at zero.
    pub fn new() -> Counts
        ensures { result ≡ record { counted = 0; taken = 0 } }
    {
        Counts {
            counted: 0,
            taken: 0,
        }
    }

    /// Counts one more task. At the 64th the count begins anew, and the run has to steal from the executor's queue.
    pub fn count(&mut self) -> Option<OwesSteal>
        ensures full { is_some result ≡ (self.old.counted + 1 == 64) }
        ensures counted { self.new ≡ record self.old { counted = cond (is_some result) 0 (self.old.counted + 1) } }
    {
        let counted = self.counted + 1;
        if counted == STEALS_AT {
            self.counted = 0;
            return Some(OwesSteal { own: () });
        }
        self.counted = counted;
        None
    }

    /// How far it has counted, for a run that sleeps or not.
    #[inline(always)]
    pub fn at(&self, sleeps: bool) -> Searcher
        ensures { result ≡ searcher sleeps self.now }
    {
        Searcher {
            sleeps,
            counted: self.counted,
            taken: self.taken,
        }
    }

    /// Counts one more task as run. At the 200th the count begins anew, and a poll ends after it.
    pub fn take(&mut self) -> Option<GivesWay>
        ensures full { is_some result ≡ (self.old.taken + 1 == 200) }
        ensures taken { self.new ≡ record self.old { taken = cond (is_some result) 0 (self.old.taken + 1) } }
    {
        let taken = self.taken + 1;
        if taken == PAUSES_AT {
            self.taken = 0;
            return Some(GivesWay { own: () });
        }
        self.taken = taken;
        None
    }
}

impl OwesSteal {
    /// The run steals from the executor's queue.
    pub fn pay(self) {
        let OwesSteal { own: () } = self;
    }
}
