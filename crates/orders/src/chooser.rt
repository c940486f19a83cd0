//! Who chooses the next call: a seed, a search, or a list.

use crate::calls::Call;
use crate::offers::Offers;
use crate::path::Path;
use rand_core::SeedableRng;
use rand_core::utils::NextWord;
use rand_xoshiro::Xoshiro256PlusPlus;
use std::alloc::AllocError;
use std::collections::VecDeque;

/// Who chooses which call comes next.
pub trait Choose {
    /// The next call, or None where the order is at its end.
    fn choose(&mut self, offers: &Offers) -> Result<Option<Call>, AllocError>;
}

/// Words that a seed gives.
#[derive(Drop)]
pub struct Drawn(Xoshiro256PlusPlus);

impl Drawn {
    /// Those of this seed.
    pub fn new(seed: u64) -> Self {
        Drawn(Xoshiro256PlusPlus::seed_from_u64(seed))
    }
}

impl Choose for Drawn {
    fn choose(&mut self, offers: &Offers) -> Result<Option<Call>, AllocError> {
        let place = self.0.next_word().checked_rem(offers.ways() as u64);
        Ok(offers.call(place.map_or(0, |place| place as usize)))
    }
}

/// The search through all orders.
impl Choose for Path {
    fn choose(&mut self, offers: &Offers) -> Result<Option<Call>, AllocError> {
        let ways = offers.ways();
        if ways == 0 {
            return Ok(None);
        }
        Ok(offers.call(self.take(ways)?))
    }
}

/// A list of calls, of which one that may not come is passed over. Behind it the first that may come is taken.
#[derive(Drop)]
pub struct Listed(pub VecDeque<Call>);

impl Choose for Listed {
    fn choose(&mut self, offers: &Offers) -> Result<Option<Call>, AllocError> {
        for _ in 0..self.0.len() {
            match self.0.pop_front() {
                Some(call) if offers.has(call) => return Ok(Some(call)),
                _ => {}
            }
        }
        Ok(offers.first())
    }
}
