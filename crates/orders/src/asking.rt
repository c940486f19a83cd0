//! The waker of a future under test.

use async_task::Wake;
use std::alloc::{AllocError, Global};
use std::cell::Cell;
use std::rc::Rc;

/// What a waker's copies share.
#[derive(Drop)]
struct Marks {
    is_asked: Cell<bool>,
    is_refused: Cell<bool>,
}

/// The waker of a future's polls. It notes that a further poll is asked for: which call of the order grants that, a seed or a search
/// chooses. Its copy is refused in a poll by `Call::Refuse`; else a copy takes no memory.
#[derive(Drop)]
pub struct Asking(Rc<Marks, Global>);

impl Asking {
    /// A waker that nobody has called.
    pub(crate) fn new(alloc: Global) -> Result<Self, AllocError> {
        let marks = Rc::new(
            alloc,
            Marks {
                is_asked: Cell::new(false),
                is_refused: Cell::new(false),
            },
        )?;
        Ok(Asking(marks))
    }

    /// The same waker, also while copies are refused.
    pub(crate) fn share(&self) -> Result<Self, AllocError> {
        Ok(Asking(Rc::clone(&self.0)?))
    }

    /// Whether a further poll is asked for.
    pub(crate) fn is_asked(&self) -> bool {
        self.0.is_asked.get()
    }

    /// What was asked for is granted.
    pub(crate) fn grant(&self) {
        self.0.is_asked.set(false);
    }

    /// Whether copies are refused from now on.
    pub(crate) fn refuse(&self, is_refused: bool) {
        self.0.is_refused.set(is_refused);
    }
}

impl Wake for Asking {
    ghost is_same = { λ a b. Unit {0} };

    fn wake(self) {
        self.0.is_asked.set(true);
    }

    fn wake_by_ref(&self) {
        self.0.is_asked.set(true);
    }

    fn clone(&self) -> Option<Self> {
        if self.0.is_refused.get() {
            return None;
        }
        match Rc::clone(&self.0) {
            Ok(marks) => Some(Asking(marks)),
            Err(_) => None,
        }
    }

    fn will_wake(&self, other: &Self) -> bool {
        Rc::ptr_eq(&self.0, &other.0)
    }
}
