//! How `?` converts errors to a `Fault`: those of timers, and of queues of tasks.
ghost use Rattle.std.specs.Prelude.{◌≡◌};
ghost use Rattle.workers.specs.Faults.{of_queue_spawn, of_sleep, of_timeout, of_timer};
ghost use Rattle.workers.specs.declared.fault.Fault.TheVariants as fault;

use crate::fault::Fault;
use ready_queue::SpawnError;
use timer::{SleepError, Stopped, TimeoutError, TimerError};

impl<F: Drop> From<SpawnError<F>> for Fault {
    ghost from_gives = { λ refused given. given ≡ of_queue_spawn refused };

    fn from(refused: SpawnError<F>) -> Fault {
        match refused {
            SpawnError::Full(_) => Fault::Full,
            SpawnError::Closed(_) => Fault::Closed,
            SpawnError::NoMemory(_) => Fault::NoMemory,
        }
    }
}

impl From<TimerError> for Fault {
    ghost from_gives = { λ error given. given ≡ of_timer error };

    fn from(error: TimerError) -> Fault {
        match error {
            TimerError::NoMemory => Fault::NoMemory,
            TimerError::NoClock => Fault::NoClock,
        }
    }
}

impl From<SleepError> for Fault {
    ghost from_gives = { λ error given. given ≡ of_sleep error };

    fn from(error: SleepError) -> Fault {
        match error {
            SleepError::Full => Fault::Full,
            SleepError::Closed => Fault::Closed,
        }
    }
}

impl From<Stopped> for Fault {
    ghost from_gives = { λ _ given. given ≡ fault.Closed };

    fn from(_stopped: Stopped) -> Fault {
        Fault::Closed
    }
}

impl From<TimeoutError> for Fault {
    ghost from_gives = { λ error given. given ≡ of_timeout error };

    fn from(error: TimeoutError) -> Fault {
        match error {
            TimeoutError::Elapsed => Fault::Elapsed,
            TimeoutError::Stopped => Fault::Closed,
        }
    }
}
