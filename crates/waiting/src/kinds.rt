//! How `?` converts these errors to an `io::Result`. A message that wasn't sent is dropped.
ghost use Rattle.std.specs.IoError.{error_kind};
ghost use Rattle.std.specs.Prelude.{◌≡◌};
ghost use Rattle.std.specs.declared.io.ErrorKind.TheVariants.{BrokenPipe};
ghost use Rattle.waiting.specs.Kinds.{of_acquire, of_recv, of_send, of_try_acquire, of_try_recv, of_try_send};

use crate::channel::{RecvError, SendError, TryRecvError, TrySendError};
use crate::oneshot::Canceled;
use crate::semaphore::{AcquireError, TryAcquireError};
use std::io::{self, ErrorKind};

impl<T: Drop> From<TrySendError<T>> for io::Error {
    ghost from_gives = { λ why error. error_kind error ≡ of_try_send why };

    fn from(error: TrySendError<T>) -> io::Error {
        match error {
            TrySendError::Full(_) => ErrorKind::WouldBlock.into(),
            TrySendError::Closed(_) => ErrorKind::BrokenPipe.into(),
            TrySendError::NoMemory(_) => ErrorKind::OutOfMemory.into(),
        }
    }
}

impl<T: Drop> From<SendError<T>> for io::Error {
    ghost from_gives = { λ why error. error_kind error ≡ of_send why };

    fn from(error: SendError<T>) -> io::Error {
        match error {
            SendError::Closed(_) => ErrorKind::BrokenPipe.into(),
            SendError::NoMemory(_) => ErrorKind::OutOfMemory.into(),
        }
    }
}

impl From<TryRecvError> for io::Error {
    ghost from_gives = { λ why error. error_kind error ≡ of_try_recv why };

    fn from(error: TryRecvError) -> io::Error {
        match error {
            TryRecvError::Empty => ErrorKind::WouldBlock.into(),
            TryRecvError::Closed => ErrorKind::BrokenPipe.into(),
        }
    }
}

impl From<RecvError> for io::Error {
    ghost from_gives = { λ why error. error_kind error ≡ of_recv why };

    fn from(error: RecvError) -> io::Error {
        match error {
            RecvError::Closed => ErrorKind::BrokenPipe.into(),
            RecvError::NoMemory => ErrorKind::OutOfMemory.into(),
        }
    }
}

impl From<TryAcquireError> for io::Error {
    ghost from_gives = { λ why error. error_kind error ≡ of_try_acquire why };

    fn from(error: TryAcquireError) -> io::Error {
        match error {
            TryAcquireError::NoPermits => ErrorKind::WouldBlock.into(),
            TryAcquireError::Closed => ErrorKind::BrokenPipe.into(),
            TryAcquireError::NoMemory => ErrorKind::OutOfMemory.into(),
        }
    }
}

impl From<AcquireError> for io::Error {
    ghost from_gives = { λ why error. error_kind error ≡ of_acquire why };

    fn from(error: AcquireError) -> io::Error {
        match error {
            AcquireError::Closed => ErrorKind::BrokenPipe.into(),
            AcquireError::NoMemory => ErrorKind::OutOfMemory.into(),
        }
    }
}

impl From<Canceled> for io::Error {
    ghost from_gives = { λ _ error. error_kind error ≡ BrokenPipe };

    fn from(_canceled: Canceled) -> io::Error {
        ErrorKind::BrokenPipe.into()
    }
}
