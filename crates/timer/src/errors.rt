ghost use Rattle.std.specs.IoError.{error_kind};
ghost use Rattle.std.specs.Prelude.{◌≡◌};

use crate::deadlines::Refused;
use std::io::{self, ErrorKind};
use thiserror::Error;

/// Why no timer was made.
#[derive(Clone, Copy, Debug, PartialEq, Eq, Drop, Error)]
pub enum TimerError {
    #[error("out of memory")]
    NoMemory,
    #[error("the clock can't be read")]
    NoClock,
}

/// Why no sleep was made.
#[derive(Clone, Copy, Debug, PartialEq, Eq, Drop, Error)]
pub enum SleepError {
    #[error("the timer is full: as many sleep as it was made for")]
    Full,
    #[error("the timer is closed")]
    Closed,
}

/// The timer was stopped before the time had come.
#[derive(Clone, Copy, Debug, PartialEq, Eq, Drop, Error)]
#[error("the timer was stopped before the time had come")]
pub struct Stopped;

/// Why a future with a time limit has no output.
#[derive(Clone, Copy, Debug, PartialEq, Eq, Drop, Error)]
pub enum TimeoutError {
    #[error("the time is up")]
    Elapsed,
    #[error("the timer was stopped before the time was up")]
    Stopped,
}

/// Lets `?` convert it to an `io::Error`.
impl From<TimerError> for io::Error {
    ghost use Rattle.timer.specs.Errors.{of_timer};

    ghost from_gives = { λ why error. error_kind error ≡ of_timer why };

    fn from(error: TimerError) -> io::Error {
        match error {
            TimerError::NoMemory => ErrorKind::OutOfMemory.into(),
            TimerError::NoClock => ErrorKind::Other.into(),
        }
    }
}

/// Lets `?` convert it to an `io::Error`.
impl From<SleepError> for io::Error {
    ghost use Rattle.timer.specs.Errors.{of_sleep};

    ghost from_gives = { λ why error. error_kind error ≡ of_sleep why };

    fn from(error: SleepError) -> io::Error {
        match error {
            SleepError::Full => ErrorKind::WouldBlock.into(),
            SleepError::Closed => ErrorKind::BrokenPipe.into(),
        }
    }
}

/// Lets `?` convert it to an `io::Error`.
impl From<Stopped> for io::Error {
    ghost use Rattle.std.specs.declared.io.ErrorKind.TheVariants.{BrokenPipe};

    ghost from_gives = { λ _ error. error_kind error ≡ BrokenPipe };

    fn from(_stopped: Stopped) -> io::Error {
        ErrorKind::BrokenPipe.into()
    }
}

/// Lets `?` convert it to an `io::Error`.
impl From<TimeoutError> for io::Error {
    ghost use Rattle.timer.specs.Errors.{of_timeout};

    ghost from_gives = { λ why error. error_kind error ≡ of_timeout why };

    fn from(error: TimeoutError) -> io::Error {
        match error {
            TimeoutError::Elapsed => ErrorKind::TimedOut.into(),
            TimeoutError::Stopped => ErrorKind::BrokenPipe.into(),
        }
    }
}

impl From<Stopped> for TimeoutError {
    ghost use Rattle.timer.specs.declared.errors.TimeoutError.TheVariants as timeout;

    ghost from_gives = { λ _ error. error ≡ timeout.Stopped };

    fn from(_stopped: Stopped) -> TimeoutError {
        TimeoutError::Stopped
    }
}

impl From<Refused> for SleepError {
    ghost use Rattle.timer.specs.Errors.{of_refused};

    ghost from_gives = { λ refused error. error ≡ of_refused refused };

    fn from(refused: Refused) -> SleepError {
        match refused {
            Refused::Full => SleepError::Full,
            Refused::Closed => SleepError::Closed,
        }
    }
}
