//! Why calls are refused.
ghost use Rattle.std.specs.IoError.{error_kind};
ghost use Rattle.std.specs.Prelude.{◌≡◌};
ghost use Rattle.local_executor.specs.Kinds.{of_making, of_run};

use std::io::{self, ErrorKind};
use thiserror::Error;

/// Why no new executor was made.
#[derive(Clone, Copy, Debug, PartialEq, Eq, Drop, Error)]
pub enum LocalError {
    #[error("out of memory")]
    NoMemory,
    /// The system gave no random bytes, from which an executor gets its number.
    #[error("no random number")]
    NoRandom,
}

/// Why a run gives no output at this poll.
#[derive(Clone, Copy, Debug, PartialEq, Eq, Drop)]
pub enum RunError {
    /// No copy of the waker could be had. What the poll did before stays done, and the run can be polled again.
    NoMemory,
    /// The run gave its output at an earlier poll.
    Finished,
}

/// Lets `?` convert it to an `io::Error`.
impl From<LocalError> for io::Error {
    ghost from_gives = { λ why error. error_kind error ≡ of_making why };

    fn from(error: LocalError) -> io::Error {
        match error {
            LocalError::NoMemory => ErrorKind::OutOfMemory.into(),
            LocalError::NoRandom => ErrorKind::Other.into(),
        }
    }
}

/// Lets `?` convert it to an `io::Error`.
impl From<RunError> for io::Error {
    ghost from_gives = { λ why error. error_kind error ≡ of_run why };

    fn from(error: RunError) -> io::Error {
        match error {
            RunError::NoMemory => ErrorKind::OutOfMemory.into(),
            RunError::Finished => ErrorKind::UnexpectedEof.into(),
        }
    }
}
