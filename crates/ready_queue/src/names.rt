//! Names for the types of `async_task` as a queue uses them: futures `F` with outputs `T`, awaited from outside by a `W`.
use crate::accepted::Accepted;
use crate::ready::Ready;
use async_task::{Awaiter, Cancel, Due, FallibleTask, Realm, Runnable, Scheduled, Task};

/// Where the tasks of a queue lie.
pub type QueueRealm<F, T, W, R> = Realm<Accepted<F, R>, T, Ready<R>, (), W>;

/// The handle of a future on a queue.
pub type QueueTask<F, T, W, R> = Task<Accepted<F, R>, T, Ready<R>, (), W, R>;

/// The same, which answers None once the task is closed.
pub type QueueFallible<F, T, W, R> = FallibleTask<Accepted<F, R>, T, Ready<R>, (), W, R>;

/// What closes a task of a queue, and may have its output.
pub type QueueCancel<F, T, W, R> = Cancel<Accepted<F, R>, T, Ready<R>, (), W, R>;

/// A task of a queue that is to be run.
pub type QueueRunnable<F, T, W, R> = Runnable<Accepted<F, R>, T, Ready<R>, (), W, R>;

/// The waker that futures of a queue are polled with, and that their handles keep.
pub type QueueWaker<F, T, W, R> = Awaiter<Accepted<F, R>, T, Ready<R>, (), W, R>;

pub(crate) type QueueScheduled<F, T, W, R> = Scheduled<Accepted<F, R>, T, Ready<R>, (), W, R>;

pub(crate) type QueueDue<F, T, W, R> = Due<Accepted<F, R>, T, Ready<R>, (), W, R>;
