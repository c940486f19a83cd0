/// Why there is no permit at once.
#[derive(Clone, Copy, Debug, PartialEq, Eq, Drop)]
pub enum TryAcquireError {
    /// None is free.
    NoPermits,
    /// The semaphore is closed.
    Closed,
    /// The semaphore has too many handles.
    NoMemory,
}

/// Why there is no permit.
#[derive(Clone, Copy, Debug, PartialEq, Eq, Drop)]
pub enum AcquireError {
    /// The semaphore is closed.
    Closed,
    /// There was no memory for a place among the waiters.
    NoMemory,
}
