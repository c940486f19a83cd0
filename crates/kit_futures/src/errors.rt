ghost use Rattle.std.specs.IoError.{error_kind};
ghost use Rattle.std.specs.Prelude.{◌≡◌};

use crate::parts::BridgeClosed;
use std::io::{self, ErrorKind};
use thiserror::Error;

/// Why a future isn't awaited. It comes back, never polled.
#[derive(Debug, PartialEq, Eq, Drop)]
pub enum EnterError<F> {
    /// There was no memory for its seat.
    NoMemory(F),
    /// The bridge is closed.
    Closed(F),
}

/// Why a future of the library's gives no output.
#[derive(Debug, Drop, Error)]
pub enum AwaitError {
    /// The bridge is closed: no wake of the future arrives any more. It was dropped.
    #[error("the bridge is closed")]
    Closed(BridgeClosed),
    /// It gave its output, or an error, at an earlier poll.
    #[error("polled after its end")]
    Finished,
}

impl<F> EnterError<F> {
    ghost use Rattle.kit_futures.specs.Errors.{refused};

    /// The future that was refused.
    pub fn into_inner(self) -> F
        ensures { result ≡ refused self }
    {
        match self {
            EnterError::NoMemory(future) | EnterError::Closed(future) => future,
        }
    }
}

/// Lets `?` convert it to an `io::Error`.
impl<F: Drop> From<EnterError<F>> for io::Error {
    ghost use Rattle.kit_futures.specs.Errors.{kind_of_enter};

    ghost from_gives = { λ refused error. error_kind error ≡ kind_of_enter refused };

    fn from(refused: EnterError<F>) -> io::Error {
        match refused {
            EnterError::NoMemory(_) => ErrorKind::OutOfMemory.into(),
            EnterError::Closed(_) => ErrorKind::BrokenPipe.into(),
        }
    }
}

/// Lets `?` convert it to an `io::Error`.
impl From<AwaitError> for io::Error {
    ghost use Rattle.kit_futures.specs.Errors.{kind_of_await};

    ghost from_gives = { λ why error. error_kind error ≡ kind_of_await why };

    fn from(error: AwaitError) -> io::Error {
        match error {
            AwaitError::Closed(_) => ErrorKind::BrokenPipe.into(),
            AwaitError::Finished => ErrorKind::UnexpectedEof.into(),
        }
    }
}
