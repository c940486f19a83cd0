ghost use Rattle.std.specs.Prelude.{◌≡◌, Some};

use async_task::RealmError;
use jobs::JobsError;
use std::alloc::AllocError;
use std::error::Error;
use std::fmt;
use text_lines::ParseError;

/// What the program ends on, where it doesn't end well. Its text, which `Display` gives without
/// taking memory, goes to standard error.
#[derive(Clone, Copy, Debug, PartialEq, Eq)]
pub enum Fault {
    /// The job of this number, the least such, didn't come back from the workers. The first job has number 0.
    Missing(u64),
    /// The input line of this number is the first that is bad. The first line has number 1.
    BadLine(u64),
    /// The arguments are none that the program knows.
    Usage,
    /// There was no room for what the answer takes.
    NoMemory,
    /// A worker's thread couldn't be started.
    NoThread,
    /// The system gave no random number.
    NoRandom,
    /// The input couldn't be read, or wasn't over after as many reads as are tried.
    ReadFailed,
    /// The output couldn't be written.
    WriteFailed,
}

impl Fault {
    ghost use Rattle.commands.specs.Fault.{status_of};

    /// The status that the program exits with: 1 for a job that is missing, 2 for wrong arguments or a wrong input, 3 for a
    /// want of memory, threads or a random number, 4 for a failed read or write. Takes no memory.
    pub fn status(&self) -> u8
        ensures { result ≡ status_of self.now }
    {
        match self {
            Fault::Missing(_) => 1,
            Fault::BadLine(_) | Fault::Usage => 2,
            Fault::NoMemory | Fault::NoThread | Fault::NoRandom => 3,
            Fault::ReadFailed | Fault::WriteFailed => 4,
        }
    }
}

impl fmt::Display for Fault {
    ghost use Rattle.commands.specs.Fault.{text_of};

    ghost output = { λ fault. Some (text_of fault) };

    fn fmt<W: fmt::Write>(&self, f: &mut fmt::Formatter<W>) -> fmt::Result {
        match self {
            Fault::Missing(job) => write!(f, "job {job}: missing"),
            Fault::BadLine(line) => write!(f, "line {line}: bad line"),
            Fault::Usage => write!(f, "usage: taskrun jobs <workers> or taskrun sim"),
            Fault::NoMemory => write!(f, "out of memory"),
            Fault::NoThread => write!(f, "no thread"),
            Fault::NoRandom => write!(f, "no random number"),
            Fault::ReadFailed => write!(f, "read failed"),
            Fault::WriteFailed => write!(f, "write failed"),
        }
    }
}

impl Error for Fault {}

impl From<AllocError> for Fault {
    ghost use Rattle.commands.specs.declared.fault.Fault.TheVariants.{NoMemory};

    ghost from_gives = { λ _ fault. fault ≡ NoMemory };

    fn from(_error: AllocError) -> Self {
        Self::NoMemory
    }
}

impl From<ParseError> for Fault {
    ghost use Rattle.commands.specs.Fault.{fault_of};

    ghost from_gives = { λ error fault. fault ≡ fault_of error };

    fn from(error: ParseError) -> Fault {
        match error {
            ParseError::BadLine(number) => Fault::BadLine(number),
            ParseError::NoMemory => Fault::NoMemory,
        }
    }
}

impl From<RealmError> for Fault {
    ghost use Rattle.commands.specs.Fault.{fault_of_realm};

    ghost from_gives = { λ error fault. fault ≡ fault_of_realm error };

    fn from(error: RealmError) -> Fault {
        match error {
            RealmError::NoMemory => Fault::NoMemory,
            RealmError::NoRandom => Fault::NoRandom,
        }
    }
}

impl From<JobsError> for Fault {
    ghost use Rattle.commands.specs.Fault.{fault_of_jobs};

    ghost from_gives = { λ error fault. fault ≡ fault_of_jobs error };

    fn from(error: JobsError) -> Fault {
        match error {
            JobsError::NoThread => Fault::NoThread,
            JobsError::NoMemory => Fault::NoMemory,
            JobsError::Missing(number) => Fault::Missing(number),
        }
    }
}
