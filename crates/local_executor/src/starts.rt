//! Where a run's walks round the queues of other runs start.
ghost use Rattle.std.specs.Prelude.{◌≡◌};
ghost use Rattle.local_executor.specs.Starts.{drawn, seeded, used_up};

use rand_core::SeedableRng;
use rand_core::utils::NextWord;
use rand_xoshiro::Xoshiro256PlusPlus;

/// The words of a generator, of which each walk uses up one.
#[derive(Drop)]
pub struct Starts {
    words: Xoshiro256PlusPlus,
    // The word for the next walk, which is drawn already.
    next: u64,
}

impl Starts {
    /// Makes the words of a generator that is made from this number.
    pub fn new(seed: u64) -> Starts
        ensures { result ≡ drawn (seeded seed) }
    {
        let mut words = words_of(seed);
        let next = words.next_word();
        Starts { words, next }
    }

    /// The word for the next walk.
    pub fn next(&self) -> u64
        ensures { result ≡ self.now.next }
    {
        self.next
    }

    /// A walk has used the word up, where it was one.
    pub fn use_up(&mut self, has_walked: bool)
        ensures { self.new ≡ used_up has_walked self.old }
    {
        if has_walked {
            self.next = self.words.next_word();
        }
    }
}

/// The generator that is made from this number.
fn words_of(seed: u64) -> Xoshiro256PlusPlus
    ensures { result ≡ seeded seed }
{
    Xoshiro256PlusPlus::seed_from_u64(seed)
}
