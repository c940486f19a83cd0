//! Names for the types of `async_executor` as they are used here.
use async_executor::{ExRealm, ExTask, ExWaker, Executor};
use blocking::ThreadWaker;

/// Where the tasks lie.
pub type Futures<R> = ExRealm<u64, ThreadWaker, R>;

/// What a future is polled with.
pub type Waker<R> = ExWaker<u64, ThreadWaker, R>;

/// The handle of a task.
pub type Handle<R> = ExTask<u64, ThreadWaker, R>;

/// An executor that is timed.
pub type Timed<F, R> = Executor<F, u64, ThreadWaker, R>;
