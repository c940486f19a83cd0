//! Why a script isn't played.
use script::ParseError;
use std::alloc::AllocError;

/// Why a script isn't played. Where it is a line, nothing was played. Lines are counted from 1.
#[derive(Clone, Copy, Debug, PartialEq, Eq, Drop)]
pub enum PlayError {
    /// This line is the first bad one.
    BadLine(u64),
    /// This line is the first that is no whole call of one party, or has an item `nest` where no future can run another.
    NotWhole(u64),
    NoMemory,
}

impl From<ParseError> for PlayError {
    fn from(error: ParseError) -> PlayError {
        match error {
            ParseError::BadLine(line) => PlayError::BadLine(line),
            ParseError::NoMemory => PlayError::NoMemory,
        }
    }
}

impl From<AllocError> for PlayError {
    fn from(_error: AllocError) -> PlayError {
        PlayError::NoMemory
    }
}
