use async_task::RealmError;
use queue_steps::{NoMemory, PopError, PushError};
use std::alloc::{AllocError, AllocFailed};
use std::{fmt, io};

/// What the program ends on, where it doesn't end well. Its text goes to standard error.
#[derive(Clone, Copy, Debug)]
pub enum Fault {
    /// The arguments are none that the program knows.
    Usage,
    /// There was no memory.
    NoMemory,
    /// What is timed answered otherwise than the workload needs.
    Refused,
    /// The system gave no arguments, no time or no random number, or what is printed couldn't be written.
    System,
}

impl Fault {
    /// The status that the program exits with.
    pub fn status(&self) -> u8 {
        match self {
            Fault::Usage => 2,
            Fault::NoMemory => 3,
            Fault::Refused | Fault::System => 4,
        }
    }
}

impl fmt::Display for Fault {
    fn fmt<W: fmt::Write>(&self, f: &mut fmt::Formatter<W>) -> fmt::Result {
        f.write_str(match self {
            Fault::Usage => "usage: bench, bench NAME [OPS] or bench all",
            Fault::NoMemory => "out of memory",
            Fault::Refused => "a queue refused what the workload needs",
            Fault::System => "no arguments, no time, no random number or no output",
        })
    }
}

impl From<io::Error> for Fault {
    fn from(_error: io::Error) -> Fault {
        Fault::System
    }
}

impl From<AllocError> for Fault {
    fn from(_error: AllocError) -> Fault {
        Fault::NoMemory
    }
}

impl<T: Drop> From<AllocFailed<T>> for Fault {
    fn from(_error: AllocFailed<T>) -> Fault {
        Fault::NoMemory
    }
}

impl From<RealmError> for Fault {
    fn from(error: RealmError) -> Fault {
        match error {
            RealmError::NoMemory => Fault::NoMemory,
            RealmError::NoRandom => Fault::System,
        }
    }
}

impl From<async_task::NoMemory> for Fault {
    fn from(_error: async_task::NoMemory) -> Fault {
        Fault::NoMemory
    }
}

impl From<NoMemory> for Fault {
    fn from(_error: NoMemory) -> Fault {
        Fault::NoMemory
    }
}

impl From<PushError<u64>> for Fault {
    fn from(error: PushError<u64>) -> Fault {
        match error {
            PushError::NoMemory(_) => Fault::NoMemory,
            PushError::Full(_) | PushError::Closed(_) => Fault::Refused,
        }
    }
}

impl From<PopError> for Fault {
    fn from(_error: PopError) -> Fault {
        Fault::Refused
    }
}
