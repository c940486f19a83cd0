ghost use Rattle.std.specs.IoError.{error_kind};
ghost use Rattle.std.specs.Prelude.{◌≡◌};

use crate::parts::Over;
use std::io::{self, ErrorKind};
use thiserror::Error;

/// Why no new source was made.
#[derive(Clone, Copy, Debug, PartialEq, Eq, Drop, Error)]
pub enum SourceError {
    /// Memory was wanted, and there was none. So too after 2^64 - 1 sources.
    #[error("out of memory")]
    NoMemory,
    #[error("the reactor is closed")]
    Closed,
}

/// The reactor is closed: it no longer notifies waiters of the source.
#[derive(Debug, Drop, Error)]
#[error("the reactor is closed")]
pub struct ReactorClosed {
    over: Over,
}

impl ReactorClosed {
    pub(crate) fn new(over: Over) -> Self {
        ReactorClosed { over }
    }
}

/// Lets `?` convert it to an `io::Error`.
impl From<SourceError> for io::Error {
    ghost use Rattle.reactor.specs.Errors.{of_source};

    ghost from_gives = { λ why error. error_kind error ≡ of_source why };

    fn from(error: SourceError) -> io::Error {
        match error {
            SourceError::NoMemory => ErrorKind::OutOfMemory.into(),
            SourceError::Closed => ErrorKind::BrokenPipe.into(),
        }
    }
}

/// Lets `?` convert it to an `io::Error`.
impl From<ReactorClosed> for io::Error {
    ghost use Rattle.std.specs.declared.io.ErrorKind.TheVariants.{BrokenPipe};

    ghost from_gives = { λ _ error. error_kind error ≡ BrokenPipe };

    fn from(_error: ReactorClosed) -> io::Error {
        ErrorKind::BrokenPipe.into()
    }
}
