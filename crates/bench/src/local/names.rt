//! Names for the types of `local_executor` as they are used here.
use async_task::Nobody;
use local_executor::{LocalExWaker, LocalExecutor, LocalHandle};

/// What a future is polled with.
pub type Key<R> = LocalExWaker<Nobody, R>;

/// The handle of a task.
pub type Handle<R> = LocalHandle<u64, Nobody, R>;

/// An executor that is timed.
pub type Timed<F, R> = LocalExecutor<F, u64, Nobody, R>;
