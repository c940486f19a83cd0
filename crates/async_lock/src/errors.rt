ghost use Rattle.async_lock.specs.Kinds.{kind_of_try_lock};
ghost use Rattle.std.specs.IoError.{error_kind};
ghost use Rattle.std.specs.Prelude.{◌≡◌};
ghost use Rattle.std.specs.declared.io.ErrorKind.TheVariants.{OutOfMemory};

use std::io::{self, ErrorKind};

/// There was no memory for this value, which comes back.
#[derive(Clone, Copy, Debug, PartialEq, Eq, Drop)]
pub struct NoMemoryFor<T>(pub T);

/// Why a value can't be had at once.
#[derive(Clone, Copy, Debug, PartialEq, Eq, Drop)]
pub enum TryLockError {
    /// Another has it, or it is promised to a waiter.
    Locked,
    /// The mutex has 2^63 handles.
    NoMemory,
}

/// Lets `?` convert it to an `io::Error`. The value is dropped.
impl<T: Drop> From<NoMemoryFor<T>> for io::Error {
    ghost from_gives = { λ _ error. error_kind error ≡ OutOfMemory };

    fn from(_error: NoMemoryFor<T>) -> io::Error {
        ErrorKind::OutOfMemory.into()
    }
}

/// Lets `?` convert it to an `io::Error`. A value that another has is `WouldBlock`.
impl From<TryLockError> for io::Error {
    ghost from_gives = { λ why error. error_kind error ≡ kind_of_try_lock why };

    fn from(error: TryLockError) -> io::Error {
        match error {
            TryLockError::Locked => ErrorKind::WouldBlock.into(),
            TryLockError::NoMemory => ErrorKind::OutOfMemory.into(),
        }
    }
}
