//! One read or write, between reading the tick and clearing the readiness.
ghost use Rattle.std.specs.Prelude.{◌≡◌};
ghost use Rattle.reactor.specs.Attempts.{IsAttemptOf, IsTransferOf};

use std::io::{self, ErrorKind};

/// A way was ready at this tick. It has no drop: an attempt takes it, or its owner gives it back.
#[must_use]
pub struct Ready {
    tick: u64,
}

/// An attempt at this tick would have blocked. It has no drop: it ends in `Side::clear`.
#[must_use]
pub struct Stale {
    tick: u64,
}

/// The outcome of a read or a write.
#[must_use]
pub enum Attempt<T> {
    /// It was done, with success or not.
    Done(io::Result<T>),
    /// It would have blocked.
    Blocked(Stale),
}

/// The outcome of a read or a write of some bytes.
#[must_use]
pub enum Transfer {
    /// It was done, with success or not, and the next is worth a try.
    Done(io::Result<usize>),
    /// Some bytes were moved, and fewer than were asked for, so the next would block.
    Short(usize, Stale),
    /// It would have blocked.
    Blocked(Stale),
}

impl Ready {
    pub(super) fn at(tick: u64) -> Self
        ensures { result.tick ≡ tick }
    {
        Ready { tick }
    }

    /// Reads or writes. No lock is held.
    pub fn try_io<T: Drop, F: FnOnce() -> io::Result<T>>(self, call: F) -> Attempt<T>
        requires { F.pre call }
        ensures { IsAttemptOf (F.post call) self.tick result }
    {
        let Ready { tick } = self;
        match call() {
            Err(error) if error.kind() == ErrorKind::WouldBlock => Attempt::Blocked(Stale { tick }),
            done => Attempt::Done(done),
        }
    }

    /// Reads or writes at most this many bytes. No lock is held.
    pub fn try_transfer<F: FnOnce() -> io::Result<usize>>(self, most: usize, call: F) -> Transfer
        requires { F.pre call }
        ensures { IsTransferOf (F.post call) most self.tick result }
    {
        let at = self.tick;
        match self.try_io(call) {
            Attempt::Done(Ok(count)) if 0 < count && count < most => {
                Transfer::Short(count, Stale { tick: at })
            }
            Attempt::Done(done) => Transfer::Done(done),
            Attempt::Blocked(stale) => Transfer::Blocked(stale),
        }
    }

    /// Gives it back: the way stays ready.
    pub fn give_back(self) {
        let Ready { tick: _ } = self;
    }
}

impl Stale {
    pub(super) fn into_tick(self) -> u64
        ensures { result ≡ self.tick }
    {
        let Stale { tick } = self;
        tick
    }
}
