//! The turns of searches: which queue a search looks at first.
ghost use Rattle.std.specs.Prelude.{◌≡◌};
ghost use Rattle.async_executor.specs.Turns as turns;

use crossbeam_utils::CachePadded;
use crossbeam_utils::atomic::AtomicCell;
use executor_parts::Mark;

/// Of this many turns the last looks at the plain queue first.
const TURNS: u64 = 8;

/// How many searches have come to the executor's queues. The word wraps, as 2^64 is a multiple of 8. It has its cache lines to
/// itself, and its type takes no ordering: each turn is one step in the one order of all of them.
#[derive(Drop)]
pub struct Turns {
    word: CachePadded<AtomicCell<u64>>,
}

impl Turns {
    /// Makes the turns of an executor where nobody has searched.
    pub fn new() -> Turns {
        Turns {
            word: CachePadded::new(AtomicCell::new(0)),
        }
    }

    /// A turn is taken, in one step that adds to the word and reads it. At which queue it looks first is the answer.
    #[inline(always)]
    pub fn take(&self) -> Mark {
        mark_of_turn(self.word.fetch_add(1))
    }
}

/// The queue at which the turn of this number looks first.
#[inline(always)]
fn mark_of_turn(turn: u64) -> Mark
    ensures { result ≡ turns.mark_of_turn turn }
{
    if turn % TURNS == TURNS - 1 {
        Mark::Plain
    } else {
        Mark::Urgent
    }
}
