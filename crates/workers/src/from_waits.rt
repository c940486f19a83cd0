//! How `?` converts errors to a `Fault`: those of what waits. A message that wasn't sent is dropped.
ghost use Rattle.std.specs.Prelude.{◌≡◌};
ghost use Rattle.workers.specs.Waits.{of_acquire, of_recv, of_recv_timeout, of_send, of_try_acquire, of_try_recv, of_try_send};
ghost use Rattle.workers.specs.declared.fault.Fault.TheVariants as fault;

use crate::fault::Fault;
use waiting::channel::{RecvError, RecvTimeoutError, SendError, TryRecvError, TrySendError};
use waiting::oneshot::Canceled;
use waiting::semaphore::{AcquireError, TryAcquireError};

impl<T: Drop> From<TrySendError<T>> for Fault {
    ghost from_gives = { λ error given. given ≡ of_try_send error };

    fn from(error: TrySendError<T>) -> Fault {
        match error {
            TrySendError::Full(_) => Fault::Full,
            TrySendError::Closed(_) => Fault::Closed,
            TrySendError::NoMemory(_) => Fault::NoMemory,
        }
    }
}

impl<T: Drop> From<SendError<T>> for Fault {
    ghost from_gives = { λ error given. given ≡ of_send error };

    fn from(error: SendError<T>) -> Fault {
        match error {
            SendError::Closed(_) => Fault::Closed,
            SendError::NoMemory(_) => Fault::NoMemory,
        }
    }
}

impl From<TryRecvError> for Fault {
    ghost from_gives = { λ error given. given ≡ of_try_recv error };

    fn from(error: TryRecvError) -> Fault {
        match error {
            TryRecvError::Empty => Fault::Empty,
            TryRecvError::Closed => Fault::Closed,
        }
    }
}

impl From<RecvError> for Fault {
    ghost from_gives = { λ error given. given ≡ of_recv error };

    fn from(error: RecvError) -> Fault {
        match error {
            RecvError::Closed => Fault::Closed,
            RecvError::NoMemory => Fault::NoMemory,
        }
    }
}

impl From<RecvTimeoutError> for Fault {
    ghost from_gives = { λ error given. given ≡ of_recv_timeout error };

    fn from(error: RecvTimeoutError) -> Fault {
        match error {
            RecvTimeoutError::Elapsed => Fault::Elapsed,
            RecvTimeoutError::Stopped | RecvTimeoutError::Closed => Fault::Closed,
            RecvTimeoutError::NoMemory => Fault::NoMemory,
        }
    }
}

impl From<TryAcquireError> for Fault {
    ghost from_gives = { λ error given. given ≡ of_try_acquire error };

    fn from(error: TryAcquireError) -> Fault {
        match error {
            TryAcquireError::NoPermits => Fault::Full,
            TryAcquireError::Closed => Fault::Closed,
            TryAcquireError::NoMemory => Fault::NoMemory,
        }
    }
}

impl From<AcquireError> for Fault {
    ghost from_gives = { λ error given. given ≡ of_acquire error };

    fn from(error: AcquireError) -> Fault {
        match error {
            AcquireError::Closed => Fault::Closed,
            AcquireError::NoMemory => Fault::NoMemory,
        }
    }
}

impl From<Canceled> for Fault {
    ghost from_gives = { λ _ given. given ≡ fault.Closed };

    fn from(_canceled: Canceled) -> Fault {
        Fault::Closed
    }
}
