//! How `?` converts errors to a `Fault`: those of queues. A value that wasn't pushed is dropped.
ghost use Rattle.std.specs.Prelude.{◌≡◌};
ghost use Rattle.workers.specs.Queues.{of_force_push, of_pop, of_push};
ghost use Rattle.workers.specs.declared.fault.Fault.TheVariants as fault;

use crate::fault::Fault;
use concurrent_queue::{ForcePushError, NoMemory, PopError, PushError};

impl<T: Drop> From<PushError<T>> for Fault {
    ghost from_gives = { λ error given. given ≡ of_push error };

    fn from(error: PushError<T>) -> Fault {
        match error {
            PushError::Full(_) => Fault::Full,
            PushError::Closed(_) => Fault::Closed,
            PushError::NoMemory(_) => Fault::NoMemory,
        }
    }
}

impl<T: Drop> From<ForcePushError<T>> for Fault {
    ghost from_gives = { λ error given. given ≡ of_force_push error };

    fn from(error: ForcePushError<T>) -> Fault {
        match error {
            ForcePushError::Closed(_) => Fault::Closed,
            ForcePushError::NoMemory(_) => Fault::NoMemory,
        }
    }
}

impl From<PopError> for Fault {
    ghost from_gives = { λ error given. given ≡ of_pop error };

    fn from(error: PopError) -> Fault {
        match error {
            PopError::Empty => Fault::Empty,
            PopError::Closed => Fault::Closed,
        }
    }
}

impl From<NoMemory> for Fault {
    ghost from_gives = { λ _ given. given ≡ fault.NoMemory };

    fn from(_error: NoMemory) -> Fault {
        Fault::NoMemory
    }
}
