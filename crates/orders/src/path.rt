//! The search through all orders: at each call, which of those that might come was taken, and how many there were.

ghost use Rattle.orders.specs.Paths.{AreOver, IsOver, is_open};
ghost use Rattle.std.specs.Prelude.{◌≡◌, ◌↔◌, IfOk, false, true};

use std::alloc::{AllocError, Global};

/// One call of several that might come: which was taken, and how many there were.
#[derive(Clone, Copy, Drop)]
pub struct Choice {
    pub taken: usize,
    pub ways: usize,
}

impl Choice {
    /// Whether one behind that which was taken is left.
    pub fn is_open(&self) -> bool
        ensures { result ≡ is_open self.now }
    {
        self.taken < self.ways && self.ways - self.taken > 1
    }
}

/// The choices of the order that is played, or is the next to be.
#[derive(Drop)]
pub struct Path {
    choices: Vec<Choice>,
    at: usize,
    is_due: bool,
    is_astray: bool,
}

impl Path {
    /// The first order, which takes the first call each time, is to be played.
    pub fn new(alloc: Global) -> Self
        ensures { result.is_due ≡ true }
    {
        Path {
            choices: Vec::new(alloc),
            at: 0,
            is_due: true,
            is_astray: false,
        }
    }

    /// Whether an order is to be played.
    pub fn is_due(&self) -> bool
        ensures { result ≡ self.now.is_due }
    {
        self.is_due
    }

    /// Whether a play had other calls to choose from than the one before, at the same choices.
    pub fn is_astray(&self) -> bool {
        self.is_astray
    }

    /// How many orders are known that weren't played: one that is due, and one for each choice that is open.
    pub fn left(&self) -> usize
        ensures { (result ≡ 0) ↔ IsOver self.now }
    {
        let open = self
            .choices
            .iter()
            .filter(|choice| choice.is_open())
            .count();
        if self.is_due {
            open.saturating_add(1)
        } else {
            open
        }
    }

    /// Which of so many calls comes next.
    pub fn take(&mut self, ways: usize) -> Result<usize, AllocError> {
        let taken = match self.choices.get(self.at) {
            Some(choice) => {
                if choice.ways != ways {
                    self.is_astray = true;
                }
                choice.taken
            }
            None => {
                self.choices.push(Choice { taken: 0, ways })?;
                0
            }
        };
        self.at = self.at.saturating_add(1);
        Ok(taken)
    }

    /// Goes on to the next order: the last choice that is open takes the next call. Where none is open, no order is due.
    pub fn advance(&mut self) -> Result<(), AllocError>
        ensures was { IfOk result (λ _. self.new.is_due ≡ false → AreOver self.old.choices.items) }
        ensures is { IfOk result (λ _. self.new.is_due ≡ false → AreOver self.new.choices.items) }
    {
        self.at = 0;
        self.is_due = false;
        while let Some(choice) = self.choices.pop() {
            if choice.is_open() {
                let Choice { taken, ways } = choice;
                let taken = taken + 1;
                self.is_due = true;
                self.choices.push(Choice { taken, ways })?;
                return Ok(());
            }
        }
        Ok(())
    }
}
