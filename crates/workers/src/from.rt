//! How `?` converts errors to a `Fault`: those of executors and tasks.
ghost use Rattle.std.specs.Prelude.{◌≡◌};
ghost use Rattle.workers.specs.Faults.{of_realm, of_run, of_spawn, of_task};
ghost use Rattle.workers.specs.declared.fault.Fault.TheVariants as fault;

use crate::fault::Fault;
use async_executor::{RunError, SpawnError};
use async_task::{NoMemory, RealmError, TaskError};
use std::alloc::AllocError;

impl<F: Drop> From<SpawnError<F>> for Fault {
    ghost from_gives = { λ refused given. given ≡ of_spawn refused };

    fn from(refused: SpawnError<F>) -> Fault {
        match refused {
            SpawnError::Full(_) => Fault::Full,
            SpawnError::NoMemory(_) => Fault::NoMemory,
        }
    }
}

impl From<RunError> for Fault {
    ghost from_gives = { λ error given. given ≡ of_run error };

    fn from(error: RunError) -> Fault {
        match error {
            RunError::NoMemory => Fault::NoMemory,
            RunError::Finished => Fault::Finished,
        }
    }
}

impl From<TaskError> for Fault {
    ghost from_gives = { λ error given. given ≡ of_task error };

    fn from(error: TaskError) -> Fault {
        match error {
            TaskError::TaskClosed => Fault::TaskClosed,
            TaskError::NoMemory => Fault::NoMemory,
        }
    }
}

impl From<RealmError> for Fault {
    ghost from_gives = { λ error given. given ≡ of_realm error };

    fn from(error: RealmError) -> Fault {
        match error {
            RealmError::NoMemory => Fault::NoMemory,
            RealmError::NoRandom => Fault::NoRandom,
        }
    }
}

impl From<NoMemory> for Fault {
    ghost from_gives = { λ _ given. given ≡ fault.NoMemory };

    fn from(_error: NoMemory) -> Fault {
        Fault::NoMemory
    }
}

impl From<AllocError> for Fault {
    ghost from_gives = { λ _ given. given ≡ fault.NoMemory };

    fn from(_error: AllocError) -> Fault {
        Fault::NoMemory
    }
}
