//! Slots in pages that double in size and never move, and a list of the slots that are free. No lock
//! is taken to reach a slot, to find a free one or to give it back.
ghost use Rattle.std.specs.Prelude.{◌<◌, ⊤};

use crate::realm::Vacant;
use boxcar::slot::{OnceSlot, SlotRule};
use boxcar::tag::Tag;
use std::alloc::{AllocError, Global};
use std::sync::atomic::AtomicU64;
use std::sync::atomic::Ordering::SeqCst;

/// The slots of the first page. Each page has twice as many as the one before.
const FIRST_PAGE: u32 = 32;

const PAGES: usize = 19;

/// All slots of all pages: 32 (2^19 - 1).
const CAPACITY: u32 = 16_777_184;

/// More than the greatest number of a place: numbers are taken modulo this.
const PLACES: usize = 0x100_0000;

/// The part of `Pages::free` that has a place. It is no larger than a place needs, so that the count of changes has 40 bits.
const LINK: u64 = 0xff_ffff;

/// What is set once may be anything.
pub struct Anything;

impl<T> SlotRule<T> for Anything {
    ghost holds = { λ _ _. ⊤ };
}

/// A value that is set once, and then read by any thread. Nobody waits for it, so that setting it calls no system.
type Once<T> = OnceSlot<T, Anything>;

/// A place for a cell.
#[derive(Drop)]
pub struct Slot<C> {
    /// It is made when the place is first taken, and stays.
    pub cell: Once<C>,
    /// Where the slot is free: 1 more than the place of the next free one, or 0.
    next: AtomicU64,
}

/// The slots, of which each has its number for good.
#[derive(Drop)]
pub struct Pages<C> {
    /// The low 24 bits are 1 more than the place of the first free slot that was in use before, or 0. The rest counts the changes,
    /// so that a slot that went and came back isn't mistaken, unless exactly 2^40 changes fall between a load and its exchange.
    /// Even then no task is harmed: a place that is in use may be answered as a free one, and a spawn passes over a cell that
    /// isn't empty. But free places may be lost, and a spawn may look for one without end.
    free: AtomicU64,
    /// The places from this one on were never in use.
    used: AtomicU64,
    pages: Vec<Once<Vec<Slot<C>, Global>>, Global>,
    alloc: Global,
}

/// The page of a place, and where it stands in that page.
fn position(place: u32) -> (usize, usize) {
    let past = place as u64 + FIRST_PAGE as u64;
    let page = (past / FIRST_PAGE as u64).ilog2();
    let start = (FIRST_PAGE as u64).wrapping_shl(page);
    (page as usize, past.wrapping_sub(start) as usize)
}

fn new_page<C: Drop>(alloc: Global, page: usize) -> Result<Vec<Slot<C>, Global>, AllocError>
    requires { page < 19 }
{
    let len = (FIRST_PAGE as usize) << page;
    let mut slots = Vec::with_capacity(alloc, len)?;
    for _ in 0..len {
        slots.push(Slot {
            cell: OnceSlot::new(&Tag::empty()),
            next: AtomicU64::new(0),
        })?;
    }
    Ok(slots)
}

/// The list of free slots after one more change, with this link to its first.
fn changed(free: u64, link: u64) -> u64 {
    (free | LINK).wrapping_add(1) | link
}

impl<C: Drop> Pages<C> {
    /// No slots yet: the first page is made when a place is first asked for.
    pub fn new(alloc: Global) -> Result<Pages<C>, AllocError> {
        let mut pages = Vec::with_capacity(alloc, PAGES)?;
        for _ in 0..PAGES {
            pages.push(OnceSlot::new(&Tag::empty()))?;
        }
        Ok(Pages {
            free: AtomicU64::new(0),
            used: AtomicU64::new(0),
            pages,
            alloc,
        })
    }

    /// The slot at this place.
    pub fn slot(&self, place: usize) -> Option<&Slot<C>> {
        let (page, at) = position((place % PLACES) as u32);
        self.pages.get(page)?.get()?.get(at)
    }

    /// Gives the place back.
    pub fn release(&self, place: usize) {
        let Some(slot) = self.slot(place) else {
            return;
        };
        let link = (place % PLACES) as u64 + 1;
        let _ = self.free.fetch_update(SeqCst, SeqCst, |free| {
            let next = free & LINK;
            // It often stands so already: a place that comes and goes is put before the same one.
            if slot.next.load(SeqCst) != next {
                slot.next.store(next, SeqCst);
            }
            Some(changed(free, link))
        });
    }

    /// The cell at this place.
    pub fn cell(&self, place: usize) -> Option<&C> {
        match self.slot(place) {
            Some(slot) => slot.cell.get(),
            None => None,
        }
    }

    /// A place that was given back.
    pub fn reuse(&self) -> Option<usize> {
        let free = self.free.fetch_update(SeqCst, SeqCst, |free| {
            let place = (free & LINK).checked_sub(1)?;
            let next = self.slot(place as usize)?.next.load(SeqCst);
            Some(changed(free, next))
        });
        let place = (free.ok()? & LINK).checked_sub(1)?;
        Some(place as usize)
    }

    fn grow(&self) -> Option<usize> {
        for _ in 0..u64::MAX {
            let used = self.used.load(SeqCst);
            if used >= CAPACITY as u64 {
                return None;
            }
            if self.slot(used as usize).is_none() {
                self.add_page(position(used as u32).0 % PAGES)?;
            } else if self
                .used
                .compare_exchange(used, used + 1, SeqCst, SeqCst)
                .is_ok()
            {
                return Some(used as usize);
            }
        }
        None
    }

    /// Makes the page, where nobody else did meanwhile.
    fn add_page(&self, page: usize) -> Option<()>
        requires { page < 19 }
    {
        let slots = new_page(self.alloc, page).ok()?;
        let _ = self.pages.get(page)?.set_written(slots);
        Some(())
    }
}

impl<C: Vacant + Drop> Pages<C> {
    /// Takes a place that nobody else has, until it is released. Its cell may still have to be made. None where there are too many
    /// places, or for want of memory.
    pub fn vacancy(&self) -> Option<usize> {
        match self.reuse() {
            Some(place) => Some(place),
            None => self.grow(),
        }
    }

    /// Makes the slot of this place, and its cell, unless they are there. None for want of memory.
    pub fn make_at(&self, place: usize) -> Option<()> {
        if self.slot(place).is_none() {
            self.add_page(position((place % PLACES) as u32).0 % PAGES)?;
        }
        self.make_cell(place)
    }

    /// Makes the cell at a place, unless it is there.
    fn make_cell(&self, place: usize) -> Option<()> {
        let slot = self.slot(place)?;
        if slot.cell.get().is_none() {
            let _ = slot.cell.set_written(C::vacant(self.alloc).ok()?);
        }
        Some(())
    }
}
