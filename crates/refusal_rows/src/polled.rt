//! How polls end.
use crate::rows::Ended;
use async_task::{NoMemory, Poll, TaskError};

/// How a poll ended.
#[derive(Clone, Copy, PartialEq, Eq)]
pub enum Polled {
    Pending,
    /// It gave this number; a tick gives 0.
    Gave(u64),
    /// The task is closed.
    Closed,
    Refused,
    /// A run that gave its output before.
    Finished,
}

/// What a poll of a handle ends with.
pub fn of_task(polled: Poll<Result<u64, TaskError>>) -> Polled {
    match polled {
        Poll::Pending => Polled::Pending,
        Poll::Ready(Ok(number)) => Polled::Gave(number),
        Poll::Ready(Err(TaskError::TaskClosed)) => Polled::Closed,
        Poll::Ready(Err(TaskError::NoMemory)) => Polled::Refused,
    }
}

/// What a poll of a handle ends with whose closing is no error.
pub fn of_fallible(polled: Poll<Result<Option<u64>, NoMemory>>) -> Polled {
    match polled {
        Poll::Pending => Polled::Pending,
        Poll::Ready(Ok(Some(number))) => Polled::Gave(number),
        Poll::Ready(Ok(None)) => Polled::Closed,
        Poll::Ready(Err(NoMemory)) => Polled::Refused,
    }
}

/// What a poll of a tick ends with.
pub fn of_tick(polled: Poll<Result<(), NoMemory>>) -> Polled {
    match polled {
        Poll::Pending => Polled::Pending,
        Poll::Ready(Ok(())) => Polled::Gave(0),
        Poll::Ready(Err(NoMemory)) => Polled::Refused,
    }
}

/// Whether a poll ended so, if it wasn't refused.
pub fn poll_ended(polled: Option<Polled>, wanted: Polled) -> Ended {
    match polled {
        Some(Polled::Refused) => Ended::Refused,
        Some(polled) => Ended::of(polled == wanted),
        None => Ended::Wrong,
    }
}
