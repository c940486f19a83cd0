//! What a script shows.
use crate::asking::Asking;
use script::{Ending, Name};
use std::alloc::{AllocError, Global};
use std::cell::{Cell, RefCell};
use std::rc::Rc;

/// A stage that futures, outputs, wakers and a player share, in one thread.
pub type Shared = Rc<Stage, Global>;

/// What a script shows.
#[derive(Drop)]
pub struct Stage {
    alloc: Global,
    /// What is shown so far.
    text: RefCell<Vec<u8>>,
    /// The script has ended: no more is shown.
    is_over: Cell<bool>,
    /// Something that the script needs found no memory.
    lacks_memory: Cell<bool>,
    /// The requests for memory of the command that is played.
    pub asking: Asking,
    /// How many places the executor has.
    limit: u64,
    /// How many futures were accepted and aren't dropped yet.
    alive: Cell<u64>,
}

impl Stage {
    /// A stage on which nothing is shown yet, for an executor of so many places.
    pub fn new(alloc: Global, limit: u64) -> Result<Shared, AllocError> {
        let stage = Stage {
            alloc,
            text: RefCell::new(Vec::new(alloc)),
            is_over: Cell::new(false),
            lacks_memory: Cell::new(false),
            asking: Asking::new(),
            limit,
            alive: Cell::new(0),
        };
        match Rc::new(alloc, stage) {
            Ok(stage) => Ok(stage),
            Err(_) => Err(AllocError),
        }
    }

    /// Shows that this happened to the future, tick or run of this name.
    pub fn show_on(&self, happened: &[u8], name: Name) {
        self.append(happened);
        self.append(b" ");
        self.append(name.letters());
        self.append(b"\n");
    }

    /// Shows that a command of this word was answered so.
    pub fn show_end(&self, word: &[u8], answer: &[u8]) {
        self.append(word);
        self.append(b": ");
        self.append(answer);
        self.append(b"\n");
    }

    /// Shows that a command of this word was answered an output.
    pub fn show_output(&self, word: &[u8], number: u64) {
        match format!(in self.alloc; "{number}") {
            Ok(digits) => {
                self.append(word);
                self.append(b": ");
                self.append(Ending::Ready.text());
                self.append(b" ");
                self.append(digits.as_bytes());
                self.append(b"\n");
            }
            Err(_) => self.lack_memory(),
        }
    }

    fn append(&self, part: &[u8]) {
        if !self.is_over.get() && !self.has_appended(part) {
            self.lack_memory();
        }
    }

    fn has_appended(&self, part: &[u8]) -> bool {
        match self.text.try_borrow_mut() {
            Ok(mut text) => text.extend_from_slice(part).is_ok(),
            Err(_) => false,
        }
    }

    /// Something that the script needs found no memory.
    pub fn lack_memory(&self) {
        self.lacks_memory.set(true);
    }

    /// One more future was accepted.
    pub fn count_one(&self) {
        self.alive.set(self.alive.get().saturating_add(1));
    }

    /// One of them is dropped.
    pub fn count_out(&self) {
        self.alive.set(self.alive.get().saturating_sub(1));
    }

    /// Whether each future that was accepted is dropped.
    pub fn has_counted_all_out(&self) -> bool {
        self.alive.get() == 0
    }

    /// Whether the executor has no place left.
    pub fn is_full(&self) -> bool {
        self.alive.get() >= self.limit
    }

    /// The script has ended: what happens from now on isn't shown.
    pub fn end(&self) {
        self.is_over.set(true);
    }

    /// What was shown, unless memory lacked.
    pub fn take_text(&self) -> Result<Vec<u8>, AllocError> {
        match self.text.try_replace(Vec::new(self.alloc)) {
            Ok(text) if !self.lacks_memory.get() => Ok(text),
            _ => Err(AllocError),
        }
    }
}
