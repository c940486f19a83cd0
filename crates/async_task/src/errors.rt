ghost use Rattle.std.specs.IoError.{error_kind};
ghost use Rattle.std.specs.declared.io.ErrorKind.TheVariants.{OutOfMemory};
ghost use Rattle.std.specs.Prelude.{◌≡◌};
ghost use Rattle.async_task.specs.declared.errors.RealmError.TheVariants as realm;

use crate::task::TaskError;
use std::io::{self, ErrorKind};
use thiserror::Error;

/// Memory was wanted, and there was none.
#[derive(Clone, Copy, Debug, PartialEq, Eq, Drop)]
pub struct NoMemory;

/// Lets `?` convert it to an `io::Error`.
impl From<NoMemory> for io::Error {
    ghost from_gives = { λ _ error. error_kind error ≡ OutOfMemory };

    fn from(_error: NoMemory) -> io::Error {
        ErrorKind::OutOfMemory.into()
    }
}

/// Why no new realm was made.
#[derive(Clone, Copy, Debug, PartialEq, Eq, Drop, Error)]
pub enum RealmError {
    #[error("out of memory")]
    NoMemory,
    /// The system gave no random bytes, from which a realm gets its number.
    #[error("no random number")]
    NoRandom,
}

impl From<NoMemory> for RealmError {
    ghost from_gives = { λ _ error. error ≡ realm.NoMemory };

    fn from(_error: NoMemory) -> RealmError {
        RealmError::NoMemory
    }
}

/// Lets `?` convert it to an `io::Error`.
impl From<RealmError> for io::Error {
    ghost use Rattle.async_task.specs.Errors.{kind_of};

    ghost from_gives = { λ why error. error_kind error ≡ kind_of why };

    fn from(error: RealmError) -> io::Error {
        match error {
            RealmError::NoMemory => ErrorKind::OutOfMemory.into(),
            RealmError::NoRandom => ErrorKind::Other.into(),
        }
    }
}

/// Lets `?` convert it to an `io::Error`.
impl From<TaskError> for io::Error {
    ghost use Rattle.async_task.specs.Errors.{kind_of_task};

    ghost from_gives = { λ why error. error_kind error ≡ kind_of_task why };

    fn from(error: TaskError) -> io::Error {
        match error {
            TaskError::TaskClosed => ErrorKind::BrokenPipe.into(),
            TaskError::NoMemory => ErrorKind::OutOfMemory.into(),
        }
    }
}
