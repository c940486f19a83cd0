//! The requests for memory of a command.
use script::Refusal;
use std::cell::Cell;

/// The requests for memory of the command that is played, and which of them are refused.
#[derive(Drop)]
pub struct Asking {
    refusal: Cell<Refusal>,
    /// How many it has made.
    made: Cell<u64>,
}

impl Asking {
    /// No command is played yet.
    pub fn new() -> Asking {
        Asking {
            refusal: Cell::new(Refusal::Nothing),
            made: Cell::new(0),
        }
    }

    /// A command begins, of whose requests these are refused.
    pub fn begin(&self, refusal: Refusal) {
        self.refusal.set(refusal);
        self.made.set(0);
    }

    /// Whether a request of the command may be refused.
    pub fn may_refuse(&self) -> bool {
        match self.refusal.get() {
            Refusal::Nothing => false,
            Refusal::Each | Refusal::Only(_) => true,
        }
    }

    /// The command makes a request. Says whether that is refused.
    pub fn is_refused(&self) -> bool {
        let made = self.made.get().saturating_add(1);
        self.made.set(made);
        match self.refusal.get() {
            Refusal::Nothing => false,
            Refusal::Each => true,
            Refusal::Only(number) => made == number,
        }
    }
}
