//! What is drawn of a seed.

use rand_core::SeedableRng;
use rand_core::utils::NextWord;
use rand_xoshiro::Xoshiro256PlusPlus;

/// Draws, which a seed alone determines.
#[derive(Drop)]
pub struct Draws {
    words: Xoshiro256PlusPlus,
}

impl Draws {
    /// Those of this seed, from the first on.
    pub fn of(seed: u64) -> Draws {
        Draws {
            words: Xoshiro256PlusPlus::seed_from_u64(seed),
        }
    }

    /// A number below this one; 0 where that is 0.
    pub fn below(&mut self, count: u64) -> u64 {
        let word = self.words.next_word();
        if count == 0 { 0 } else { word % count }
    }

    /// Whether what comes in so many of a hundred cases comes now.
    pub fn comes(&mut self, percent: u64) -> bool {
        self.below(100) < percent
    }
}
