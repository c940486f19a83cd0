//! Where a player keeps handles and open runs.
use std::alloc::{AllocError, Global};

/// Where a player keeps handles `H` by number, and open runs `O`, of which the last is the innermost. A player is written for
/// any such place, and is given one where its runtime value is known.
pub trait Keeps<H, O> {
    /// Takes the handle of this number out.
    fn take(&mut self, number: usize) -> Option<H>;

    /// Lays a handle to its number. It takes memory.
    fn put(&mut self, number: usize, handle: H) -> Result<(), AllocError>;

    /// A run that is open now. It takes memory.
    fn open(&mut self, run: O) -> Result<(), AllocError>;

    /// Takes the innermost open run out.
    fn innermost(&mut self) -> Option<O>;

    /// Drops all that is kept.
    fn clear(&mut self);
}

/// Keeps handles and open runs in lists.
#[derive(Drop)]
pub struct Kept<H, O> {
    handles: Vec<Option<H>>,
    open: Vec<O>,
}

impl<H: Drop, O: Drop> Kept<H, O> {
    /// Keeps nothing yet.
    pub fn new(alloc: Global) -> Kept<H, O> {
        Kept {
            handles: Vec::new(alloc),
            open: Vec::new(alloc),
        }
    }
}

impl<H: Drop, O: Drop> Keeps<H, O> for Kept<H, O> {
    fn take(&mut self, number: usize) -> Option<H> {
        match self.handles.get_mut(number) {
            Some(place) => place.take(),
            None => None,
        }
    }

    fn put(&mut self, number: usize, handle: H) -> Result<(), AllocError> {
        for _ in self.handles.len()..=number {
            self.handles.push(None)?;
        }
        if let Some(place) = self.handles.get_mut(number) {
            *place = Some(handle);
        }
        Ok(())
    }

    fn open(&mut self, run: O) -> Result<(), AllocError> {
        self.open.push(run)?;
        Ok(())
    }

    fn innermost(&mut self) -> Option<O> {
        self.open.pop()
    }

    fn clear(&mut self) {
        self.open.clear();
        self.handles.clear();
    }
}
