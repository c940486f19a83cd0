//! Names by number, and those that a list has still in hand.

use crate::lists::draws::Draws;
use std::alloc::{AllocError, Global};

/// The name of the thing of this number, among those whose names begin so. Numbers from 676 on have the names of others again.
pub fn write_name(text: &mut String, first: char, number: u64) -> Result<(), AllocError> {
    text.push(first)?;
    text.push(letter(number / 26))?;
    text.push(letter(number))
}

/// One of the 26 letters.
fn letter(number: u64) -> char {
    (b'a' + (number % 26) as u8) as char
}

/// Things by number, of which some are given away.
#[derive(Drop)]
pub struct Hand {
    numbers: Vec<u64>,
}

impl Hand {
    /// None yet.
    pub fn new(alloc: Global) -> Hand {
        Hand {
            numbers: Vec::new(alloc),
        }
    }

    pub fn put(&mut self, number: u64) -> Result<(), AllocError> {
        self.numbers.push(number)?;
        Ok(())
    }

    /// One of them, which stays.
    pub fn shown(&self, draws: &mut Draws) -> Option<u64> {
        let place = draws.below(self.numbers.len() as u64) as usize;
        self.numbers.get(place).copied()
    }

    /// One of them, which is given away.
    pub fn taken(&mut self, draws: &mut Draws) -> Option<u64> {
        let place = draws.below(self.numbers.len() as u64) as usize;
        if place < self.numbers.len() {
            Some(self.numbers.remove(place))
        } else {
            None
        }
    }

    /// The last of them, which is given away.
    pub fn last(&mut self) -> Option<u64> {
        self.numbers.pop()
    }
}
