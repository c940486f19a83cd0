ghost use Rattle.std.specs.Prelude.{◌≡◌, IfOk};

use crate::cell::{Lost, Lot, Thing};
use crate::errors::RealmError;
use crate::realm::pages::Pages;
use std::alloc::Global;

/// What was let go of all that rests in a realm's cells, until the realm takes it back. It lies there as long as the program runs.
/// It has no type parameter, so that whatever rests can say where it is from.
#[derive(Drop)]
pub struct Returns {
    pub(crate) number: u64,
    /// By the places of cells. The list of its free places is that of the places of which something was let go.
    lost: Pages<Lost>,
    /// What has no place, or was not found at its own. It is nothing, as long as each thing is let go at the cell in which it
    /// rests.
    strays: Lost,
}

impl Returns {
    /// Nothing was let go yet, in the realm of this number.
    pub(crate) fn new(alloc: Global, number: u64) -> Result<Self, RealmError>
        ensures { IfOk result (λ returns. returns.number ≡ number) }
    {
        match Pages::new(alloc) {
            Ok(lost) => {
                let strays = Lost::new();
                Ok(Returns {
                    number,
                    lost,
                    strays,
                })
            }
            Err(_) => Err(RealmError::NoMemory),
        }
    }

    /// The number of the realm.
    pub(crate) fn number(&self) -> u64
        ensures { result ≡ self.now.number }
    {
        self.number
    }

    /// Makes room for what is let go of the cell at this place. None for want of memory.
    pub(crate) fn make_room(&self, place: usize) -> Option<()> {
        self.lost.make_at(place)
    }

    /// Takes back what rests in the cell at this place.
    pub(crate) fn keep(&self, place: usize, thing: Thing) {
        match self.lost.cell(place) {
            Some(lost) => {
                if lost.keep(thing) {
                    self.lost.release(place);
                }
            }
            None => self.set_aside(thing),
        }
    }

    /// Takes back what was not found at its place.
    pub(crate) fn set_aside(&self, thing: Thing) {
        self.strays.keep(thing);
    }

    /// All that was taken back of one cell, with its place.
    pub(crate) fn take(&self) -> Option<(usize, Lot)> {
        let place = self.lost.reuse()?;
        match self.lost.cell(place) {
            Some(lost) => Some((place, lost.take())),
            None => None,
        }
    }
}
