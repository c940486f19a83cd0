//! The items of a script: numbers that note when a queue drops them.

use std::alloc::{AllocError, Global};
use std::sync::atomic::AtomicU64;
use std::sync::atomic::Ordering::SeqCst;

/// The numbers of the items that were dropped, in order.
#[derive(Drop)]
pub struct Drops {
    count: AtomicU64,
    numbers: Vec<AtomicU64>,
}

impl Drops {
    /// Room for as many drops.
    pub fn with_room(alloc: Global, items: usize) -> Result<Drops, AllocError> {
        let mut numbers = Vec::with_capacity(alloc, items)?;
        for _ in 0..items {
            numbers.push(AtomicU64::new(0))?;
        }
        Ok(Drops {
            count: AtomicU64::new(0),
            numbers,
        })
    }

    fn note(&self, number: u64) {
        let place = self.count.fetch_add(1, SeqCst);
        if let Some(place) = self.numbers.get(place as usize) {
            place.store(number, SeqCst);
        }
    }

    /// The numbers, with 0 in each place of a drop that hasn't come.
    pub fn numbers(&self) -> &[AtomicU64] {
        self.numbers.as_slice()
    }

    /// How many items were dropped.
    pub fn count(&self) -> u64 {
        self.count.load(SeqCst)
    }
}

/// A number in a queue. Its drop is noted, unless it was given.
pub struct Item<'a> {
    number: u64,
    drops: &'a Drops,
}

impl<'a> Item<'a> {
    pub fn new(number: u64, drops: &'a Drops) -> Item<'a> {
        Item { number, drops }
    }

    /// The number, of an item that the queue has given: no drop is noted.
    pub fn give(self) -> u64 {
        let Self { number, drops: _ } = self;
        number
    }
}

impl<'a> Drop for Item<'a> {
    fn drop(self) {
        let Self { number, drops } = self;
        drops.note(number);
    }
}
