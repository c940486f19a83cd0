//! What the text of a queue shows of it, without a wait.
ghost use Rattle.std.specs.Prelude.{◌≡◌, length};

use queue_steps::Representation;
use std::sync::Mutex;
use std::{fmt, thread};

/// How often a glimpse tries a lock, or a tail that moves, before it gives up.
pub const TRIES: u32 = 10_000;

/// A queue's length and whether it is closed.
#[derive(Clone, Copy, Debug)]
pub struct Glimpse {
    /// How many items the queue held.
    pub len: usize,
    /// Whether it was closed.
    pub is_closed: bool,
}

impl Glimpse {
    /// What a queue is that nobody changes meanwhile.
    pub fn of<T, Q: Representation<T>>(queue: &Q) -> Glimpse
        ensures len { result.len ≡ length (Q.queue queue.now).items }
        ensures closed { result.is_closed ≡ (Q.queue queue.now).closed }
    {
        Glimpse {
            len: queue.len(),
            is_closed: queue.is_closed(),
        }
    }

    /// Looks under a lock without waiting for it, and answers `None` where it wasn't free at any of many tries.
    pub fn under<T, Q: Representation<T>>(lock: &Mutex<Q>) -> Option<Glimpse> {
        for _ in 0..TRIES {
            if let Some(queue) = lock.try_lock() {
                return Some(Glimpse::of(&*queue));
            }
            thread::yield_now();
        }
        None
    }
}

/// Stands in a text for a value under a lock that isn't free.
pub struct Locked;

impl fmt::Debug for Locked {
    fn fmt<W: fmt::Write>(&self, f: &mut fmt::Formatter<W>) -> fmt::Result {
        f.write_str("<locked>")
    }
}
