//! How a run walks round the queues of other runs.
ghost use Rattle.std.specs.Prelude.{◌≡◌, ◌<◌, ◌+◌, ◌%◌, ◌^◌};
ghost use Rattle.rand_xoshiro.specs.Xoshiro256.{plus_plus};

use rand_core::utils::NextWord;
use rand_xoshiro::Xoshiro256PlusPlus;

/// A walk round the places of a list.
#[derive(Drop)]
pub struct Walk {
    // Where it starts.
    start: usize,
    // How many places there are.
    places: usize,
}

impl Walk {
    /// A walk round this many places, from the one that the generator's next word names, counted round.
    pub fn begin(words: &mut Xoshiro256PlusPlus, places: usize) -> Walk
        requires { 0 < places }
        ensures start { result.start ≡ (plus_plus words.old).0 % places }
        ensures places { result.places ≡ places }
        ensures words { words.new ≡ (plus_plus words.old).1 }
    {
        let word = words.next_word();
        Walk {
            start: (word % places as u64) as usize,
            places,
        }
    }

    /// The place to which it comes after this many steps.
    pub fn place(&self, step: usize) -> usize
        requires start { self.now.start < self.now.places }
        requires step { step < self.now.places }
        requires few { self.now.places < 2 ^ 63 }
        ensures place { result ≡ (self.now.start + step) % self.now.places }
        ensures within { result < self.now.places }
    {
        (self.start + step) % self.places
    }
}
