//! Why a script isn't played.
use std::alloc::AllocError;
use text_lines::ParseError;

/// Why a script isn't played to its end.
#[derive(Clone, Copy, Debug, PartialEq, Eq)]
pub enum PlayError {
    /// The line of this number, counted from 1, is the first bad one. Nothing was played.
    BadLine(u64),
    /// Memory was refused.
    NoMemory,
}

impl From<ParseError> for PlayError {
    fn from(error: ParseError) -> PlayError {
        match error {
            ParseError::BadLine(line) => PlayError::BadLine(line),
            ParseError::NoMemory => PlayError::NoMemory,
        }
    }
}

impl From<AllocError> for PlayError {
    fn from(_error: AllocError) -> PlayError {
        PlayError::NoMemory
    }
}
