ghost use Rattle.std.specs.IoError.{error_kind};
ghost use Rattle.std.specs.Prelude.{◌≡◌};

use std::io::{self, ErrorKind};
use thiserror::Error;

/// Why something was refused, or has no output to give: the one error type of a program's calls.
#[derive(Clone, Copy, Debug, PartialEq, Eq, Drop, Error)]
pub enum Fault {
    /// Each place of an executor, a queue, a channel or a timer is taken, or each permit of a semaphore.
    #[error("full: each place is taken")]
    Full,
    /// There was no memory for what was wanted, or no copy of a waker could be had.
    #[error("out of memory")]
    NoMemory,
    /// The task was cancelled, or its output was given before.
    #[error("the task is closed: it was cancelled, or its output was given before")]
    TaskClosed,
    /// The run gave its output before.
    #[error("the run has ended: it gave its output before")]
    Finished,
    /// The system gave no random number, from which a realm gets its own.
    #[error("no random number")]
    NoRandom,
    /// A queue, a channel, a semaphore or a timer is closed, a timer was stopped, or the sender of a value went without sending.
    #[error("closed: nothing more is taken, or comes")]
    Closed,
    /// A channel has no message yet, or a queue no item.
    #[error("empty: nothing is there")]
    Empty,
    /// The time was up before the future was ready.
    #[error("the time is up")]
    Elapsed,
    /// A timer's clock.
    #[error("the clock can't be read")]
    NoClock,
}

/// Lets `?` convert it to an `io::Error`.
impl From<Fault> for io::Error {
    ghost use Rattle.workers.specs.Faults.{kind_of};

    ghost from_gives = { λ fault error. error_kind error ≡ kind_of fault };

    fn from(fault: Fault) -> io::Error {
        match fault {
            Fault::Full => ErrorKind::WouldBlock.into(),
            Fault::NoMemory => ErrorKind::OutOfMemory.into(),
            Fault::TaskClosed => ErrorKind::BrokenPipe.into(),
            Fault::Finished => ErrorKind::UnexpectedEof.into(),
            Fault::NoRandom => ErrorKind::Other.into(),
            Fault::Closed => ErrorKind::BrokenPipe.into(),
            Fault::Empty => ErrorKind::WouldBlock.into(),
            Fault::Elapsed => ErrorKind::TimedOut.into(),
            Fault::NoClock => ErrorKind::Other.into(),
        }
    }
}
