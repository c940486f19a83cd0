ghost use Rattle.std.specs.IoError.{error_kind};
ghost use Rattle.ready_queue.specs.Errors.{kind_of};
ghost use Rattle.std.specs.Prelude.{◌≡◌};

use std::io::{self, ErrorKind};

/// Why a future wasn't accepted. It comes back.
#[derive(Debug, PartialEq, Eq, Drop)]
pub enum SpawnError<F> {
    /// As many accepted futures as the queue has places for are not dropped yet.
    Full(F),
    /// The queue is closed.
    Closed(F),
    /// There was no memory for its task.
    NoMemory(F),
}

impl<F> SpawnError<F> {
    ghost use Rattle.ready_queue.specs.Errors.{refused};

    /// The future that was refused.
    pub fn into_inner(self) -> F
        ensures { result ≡ refused self }
    {
        match self {
            SpawnError::Full(future) | SpawnError::Closed(future) | SpawnError::NoMemory(future) =>
                future,
        }
    }
}

/// So that `?` takes it to an `io::Result`.
impl<F: Drop> From<SpawnError<F>> for io::Error {
    ghost from_gives = { λ refused error. error_kind error ≡ kind_of refused };

    fn from(refused: SpawnError<F>) -> io::Error {
        match refused {
            SpawnError::Full(_) => ErrorKind::WouldBlock.into(),
            SpawnError::Closed(_) => ErrorKind::BrokenPipe.into(),
            SpawnError::NoMemory(_) => ErrorKind::OutOfMemory.into(),
        }
    }
}
