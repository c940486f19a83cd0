//! Why a text isn't read.

ghost use Rattle.std.specs.Prelude.{◌≡◌};
ghost use Rattle.text_lines.specs.declared.error.ParseError.TheVariants.{NoMemory};

use std::alloc::{AllocError, AllocFailed};

/// Why a text isn't read as what its lines should say.
#[derive(Clone, Copy, Debug, PartialEq, Eq)]
pub enum ParseError {
    /// The line of this number, counted from 1, is the first bad one.
    BadLine(u64),
    /// Memory was refused before a bad line was met.
    NoMemory,
}

impl From<AllocError> for ParseError {
    ghost from_gives = { λ _ error. error ≡ NoMemory };

    fn from(_error: AllocError) -> ParseError {
        ParseError::NoMemory
    }
}

impl<T: Drop> From<AllocFailed<T>> for ParseError {
    ghost from_gives = { λ _ error. error ≡ NoMemory };

    fn from(_error: AllocFailed<T>) -> ParseError {
        ParseError::NoMemory
    }
}
