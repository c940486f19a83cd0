//! The calls that may come next.

use crate::calls::Call;
use std::alloc::{AllocError, Global};

/// The calls that may come next: first those that have to come some time, then those that only may.
#[derive(Drop)]
pub struct Offers {
    calls: Vec<Call>,
    needed: usize,
}

impl Offers {
    /// None may come yet.
    pub fn new(alloc: Global) -> Self {
        Offers {
            calls: Vec::new(alloc),
            needed: 0,
        }
    }

    /// One that has to come.
    pub fn need(&mut self, call: Call) -> Result<(), AllocError> {
        self.calls.push(call)?;
        self.needed = self.calls.len();
        Ok(())
    }

    /// One that only may come; behind all that have to.
    pub fn allow(&mut self, call: Call) -> Result<(), AllocError> {
        self.calls.push(call)?;
        Ok(())
    }

    /// Whether none may come.
    pub fn is_empty(&self) -> bool {
        self.calls.is_empty()
    }

    /// In how many ways an order may go on. Where no call has to come, its end is the last of them.
    pub fn ways(&self) -> usize {
        if self.needed == 0 && !self.calls.is_empty() {
            self.calls.len().saturating_add(1)
        } else {
            self.calls.len()
        }
    }

    /// The call at this place, or None for the end.
    pub fn call(&self, place: usize) -> Option<Call> {
        self.calls.get(place).copied()
    }

    /// The first that has to come.
    pub fn first(&self) -> Option<Call> {
        if self.needed == 0 { None } else { self.call(0) }
    }

    /// Whether this one may come.
    pub fn has(&self, call: Call) -> bool {
        self.calls.contains(&call)
    }
}
