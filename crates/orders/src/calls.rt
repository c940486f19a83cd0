//! The calls of an order.

use std::fmt;

/// A call of an order. Futures are numbered from 0 on, as they were made.
#[derive(Clone, Copy, Debug, PartialEq, Eq, Drop)]
pub enum Call {
    /// The future of this number, which is the next, is spawned.
    Spawn(u64),
    /// The first of the queue is polled; or dropped, where it was cancelled.
    Poll,
    /// The same, and in this poll copies of its waker are refused.
    Refuse,
    /// A future that asked for a further poll is woken.
    Wake(u64),
    /// A future that waits is woken, and didn't ask.
    Stray(u64),
    /// A future is cancelled by its handle, which stays.
    Cancel(u64),
    /// The handle of a future is dropped: so the future is cancelled, or its output dropped.
    Leave(u64),
    /// What stands beside makes a step.
    Step,
}

/// What came of a poll.
#[derive(Clone, Copy, Debug, PartialEq, Eq, Drop)]
pub enum Came {
    /// The future of this number waits.
    Pending(u64),
    /// It gave its output.
    Ready(u64),
    /// It was dropped, unpolled.
    Dropped(u64),
}

/// A call that was made, with what came of it.
#[derive(Clone, Copy, Debug, PartialEq, Eq, Drop)]
pub struct Made {
    /// The call.
    pub call: Call,
    /// What a `Poll` or `Refuse` came to; None at other calls.
    pub came: Option<Came>,
}

/// How many calls of an order may be such that no executor makes by itself. None of them are, if left at 0.
#[derive(Clone, Copy, Default, Drop)]
pub struct Extra {
    /// Of `Call::Cancel`.
    pub cancels: u64,
    /// Of `Call::Leave`.
    pub leaves: u64,
    /// Of `Call::Stray`.
    pub strays: u64,
    /// Of `Call::Refuse`.
    pub refusals: u64,
}

/// The name of the future of this number: a letter, from the 27th on with a number behind it.
#[derive(Clone, Copy)]
struct Name(u64);

impl fmt::Display for Name {
    fn fmt<W: fmt::Write>(&self, f: &mut fmt::Formatter<W>) -> fmt::Result {
        write!(f, "{}", letter(self.0))?;
        if self.0 < 26 {
            Ok(())
        } else {
            write!(f, "{}", self.0 / 26)
        }
    }
}

/// A letter for the future of this number; another for each of the first 26.
pub fn letter(number: u64) -> char {
    char::from(b'a' + (number % 26) as u8)
}

/// A word or two, as `wake a` or `poll b: pending`.
impl fmt::Display for Made {
    fn fmt<W: fmt::Write>(&self, f: &mut fmt::Formatter<W>) -> fmt::Result {
        match self.call {
            Call::Spawn(number) => write!(f, "spawn {}", Name(number)),
            Call::Poll => self.write_poll("poll", f),
            Call::Refuse => self.write_poll("poll without memory", f),
            Call::Wake(number) => write!(f, "wake {}", Name(number)),
            Call::Stray(number) => write!(f, "wake unasked {}", Name(number)),
            Call::Cancel(number) => write!(f, "cancel {}", Name(number)),
            Call::Leave(number) => write!(f, "drop the handle of {}", Name(number)),
            Call::Step => write!(f, "step beside"),
        }
    }
}

impl Made {
    fn write_poll<W: fmt::Write>(&self, word: &str, f: &mut fmt::Formatter<W>) -> fmt::Result {
        match self.came {
            None => write!(f, "{word}"),
            Some(Came::Pending(number)) => write!(f, "{word} {}: pending", Name(number)),
            Some(Came::Ready(number)) => write!(f, "{word} {}: ready", Name(number)),
            Some(Came::Dropped(number)) => write!(f, "drop {}", Name(number)),
        }
    }
}
