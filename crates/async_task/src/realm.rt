//! Where the cells of tasks lie. A cell may keep a waker of another cell of its own type, but no type can contain itself. So a
//! stored waker has the number of its task's place here, and a live handle has the realm at hand and finds the cell by that
//! number.
ghost use Rattle.std.specs.Prelude.{◌≡◌, IfOk};

mod pages;
mod returns;

use crate::errors::RealmError;
use crate::realm::pages::Pages;
pub use crate::realm::returns::Returns;
use std::alloc::{AllocError, Global};
use std::boxed::Box;
use std::random::RandomSource;

/// What lies at a place, before its first use.
pub trait Vacant: Sized {
    fn vacant(alloc: Global) -> Result<Self, AllocError>;
}

/// All cells of one type, each at its place. They lie there as long as the program runs, so that
/// handles may go anywhere, by reference. The place of a task that is over is used again; the memory of places is
/// never given back.
///
/// In the Rust crate each task has its own memory instead.
#[derive(Drop)]
pub struct Cells<C> {
    number: u64,
    pages: Pages<C>,
    pub(crate) returns: Returns,
    ghost same: { returns.number ≡ number },
}

impl<C: Drop> Cells<C> {
    /// Makes a realm with no cells yet, under this number.
    fn new(alloc: Global, number: u64) -> Result<Self, RealmError>
        ensures { IfOk result (λ cells. cells.number ≡ number) }
    {
        let returns = Returns::new(alloc, number)?;
        match Pages::new(alloc) {
            Ok(pages) => Ok(Cells {
                number,
                pages,
                returns,
            }),
            Err(_) => Err(RealmError::NoMemory),
        }
    }

    /// The realm's number. By it a task knows whether a waker is of a task that lies here too.
    pub fn number(&self) -> u64
        ensures { result ≡ self.now.number }
    {
        self.number
    }

    /// Gives a place back.
    pub(crate) fn release(&self, place: usize) {
        self.pages.release(place);
    }

    /// The cell at this place.
    pub(crate) fn cell(&self, place: usize) -> Option<&C> {
        self.pages.cell(place)
    }
}

impl<C: Drop + 'static> Cells<C> {
    /// The cell at this place, for cells that lie there for as long as the program runs.
    #[inline(always)]
    pub(crate) fn lasting(&'static self, place: usize) -> Option<&'static C> {
        self.cell(place)
    }
}

impl<C: Vacant + Drop> Cells<C> {
    /// Takes a place that nobody else has. None for want of memory, or where there are 2^24 - 32 places.
    pub(crate) fn vacancy(&self) -> Option<usize> {
        self.pages.vacancy()
    }

    /// Makes what lies at this place, and room for what is let go of it. None for want of memory.
    pub(crate) fn furnish(&self, place: usize) -> Option<()> {
        self.returns.make_room(place)?;
        self.pages.make_at(place)
    }
}

impl<C: Drop> Cells<C> {
    /// Makes a realm with no cells yet, for as long as the program runs. Its number is 64 bits that `rt` draws: two realms of one
    /// program have the same number with a chance of 1 in 2^64.
    pub fn leak<'r, R>(rt: R, alloc: Global) -> Result<&'r Self, RealmError>
    where
        C: 'r,
        R: RandomSource + Drop,
    {
        let Ok(cells) = Box::new(alloc, Cells::new(alloc, drawn(&rt)?)?) else {
            return Err(RealmError::NoMemory);
        };
        Ok(Box::leak(cells))
    }
}

/// A number that the system draws.
fn drawn<R: RandomSource>(rt: &R) -> Result<u64, RealmError> {
    let mut bytes = [0; 8];
    match rt.fill_bytes(&mut bytes) {
        Ok(()) => Ok(u64::from_ne_bytes(bytes)),
        Err(_) => Err(RealmError::NoRandom),
    }
}
