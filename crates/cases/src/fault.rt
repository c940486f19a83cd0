//! Why scripts aren't played.

use async_task::RealmError;
use std::alloc::AllocError;
use std::{fmt, io};

/// Why scripts aren't played.
#[derive(Debug, Drop)]
pub enum Fault {
    /// The arguments are none that the program knows.
    Usage,
    /// No case begins behind the one of this number, where the file hasn't ended.
    NoCase(u64),
    /// A script of a family shows something else; it was printed.
    Differs,
    /// Memory was refused.
    NoMemory,
    /// The system gave no random bytes, of which a realm has its number.
    NoRandom,
    /// A file can't be read, or the output not written.
    Io(io::Error),
}

impl Fault {
    /// The status with which the program ends, as `taskrun` has it for the same faults.
    pub fn status(&self) -> u8 {
        match self {
            Fault::Differs => 1,
            Fault::Usage | Fault::NoCase(_) => 2,
            Fault::NoMemory | Fault::NoRandom => 3,
            Fault::Io(_) => 4,
        }
    }
}

impl fmt::Display for Fault {
    fn fmt<W: fmt::Write>(&self, f: &mut fmt::Formatter<W>) -> fmt::Result {
        match self {
            Fault::Usage => write!(
                f,
                "usage: cases, cases lists, or cases <family> <file>; a family is the name of a line that cases prints"
            ),
            Fault::NoCase(number) => write!(f, "behind case {number} stands no case"),
            Fault::Differs => write!(f, "not all scripts show what is owed"),
            Fault::NoMemory => write!(f, "out of memory"),
            Fault::NoRandom => write!(f, "no random number"),
            Fault::Io(error) => write!(f, "{error}"),
        }
    }
}

impl From<AllocError> for Fault {
    fn from(_error: AllocError) -> Fault {
        Fault::NoMemory
    }
}

impl From<RealmError> for Fault {
    fn from(error: RealmError) -> Fault {
        match error {
            RealmError::NoMemory => Fault::NoMemory,
            RealmError::NoRandom => Fault::NoRandom,
        }
    }
}

impl From<io::Error> for Fault {
    fn from(error: io::Error) -> Fault {
        Fault::Io(error)
    }
}
