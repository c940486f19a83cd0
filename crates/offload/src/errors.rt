ghost use Rattle.offload.specs.Kinds.{kind_of_run, kind_of_try};
ghost use Rattle.std.specs.IoError.{error_kind};
ghost use Rattle.std.specs.Prelude.{◌≡◌};

use std::io::{self, ErrorKind};

/// Why work wasn't accepted at once. It comes back.
#[derive(Debug, PartialEq, Eq, Drop)]
pub enum TryRunError<J> {
    /// Each place has work that no thread has taken yet.
    Full(J),
    /// No work is accepted any more.
    Closed(J),
    /// There was no memory for its output.
    NoMemory(J),
}

/// Why there is no output. Work that wasn't accepted comes back.
#[derive(Debug, PartialEq, Eq, Drop)]
pub enum RunError<J> {
    /// It wasn't accepted, and no more work is.
    Closed(J),
    /// It wasn't accepted: there was no memory for its output, or for a place among the waiters.
    NoMemory(J),
    /// It was accepted, and dropped with the last handle before any thread took it.
    Canceled,
}

/// Lets `?` convert it to an `io::Error`. The work is dropped.
impl<J: Drop> From<TryRunError<J>> for io::Error {
    ghost from_gives = { λ why error. error_kind error ≡ kind_of_try why };

    fn from(error: TryRunError<J>) -> io::Error {
        match error {
            TryRunError::Full(_) => ErrorKind::WouldBlock.into(),
            TryRunError::Closed(_) => ErrorKind::BrokenPipe.into(),
            TryRunError::NoMemory(_) => ErrorKind::OutOfMemory.into(),
        }
    }
}

/// Lets `?` convert it to an `io::Error`. The work is dropped.
impl<J: Drop> From<RunError<J>> for io::Error {
    ghost from_gives = { λ why error. error_kind error ≡ kind_of_run why };

    fn from(error: RunError<J>) -> io::Error {
        match error {
            RunError::Closed(_) | RunError::Canceled => ErrorKind::BrokenPipe.into(),
            RunError::NoMemory(_) => ErrorKind::OutOfMemory.into(),
        }
    }
}
