//! Where a task's future is, and what the calls on a task of one owner answer.
use crate::schedule_info::ScheduleInfo;

/// Where the future of a task is.
#[derive(Debug, PartialEq, Eq, Drop)]
pub enum FuturePlace<F> {
    /// In the task.
    Home(F),
    /// With the owner, who polls it.
    Lent,
    /// With the owner, who drops it.
    Dropping,
    /// It is dropped.
    Gone,
}

/// What the owner of a task does with the future that `start` has taken out.
#[derive(Debug, PartialEq, Eq, Drop)]
#[must_use]
pub enum Start<F> {
    /// It polls the future, and then calls `settle`.
    Poll(F),
    /// It drops the future, and then calls `finish`.
    Drop(F),
}

/// How a poll of the future has ended.
#[derive(Debug, PartialEq, Eq, Drop)]
pub enum Back<F, T> {
    /// It has given this output, and is dropped.
    Ready(T),
    /// It hasn't, and comes back.
    Pending(F),
}

/// What the owner of a task does after a poll.
#[derive(Debug, PartialEq, Eq, Drop)]
#[must_use]
pub enum Settled<F, T, A> {
    /// The task is finished.
    Finish {
        /// The output that nobody is left to be given to: it is dropped.
        output: Option<T>,
        /// The awaiter: it is woken.
        awaiter: Option<A>,
    },
    /// The task was woken while it was polled: it is queued.
    Queue(ScheduleInfo),
    /// The task waits for a wake.
    Rest,
    /// The owner drops the future, and then calls `finish`.
    Drop(F),
}

/// What the owner of a task does with its awaiter, now that the future is dropped.
#[derive(Debug, PartialEq, Eq, Drop)]
#[must_use]
pub enum Finish<A> {
    /// Nobody awaits the task.
    Nothing,
    /// The awaiter is woken.
    Wake(A),
    /// The awaiter is dropped: the handle is gone.
    Drop(A),
}

/// What the owner of a task does after a cancel.
#[derive(Debug, PartialEq, Eq, Drop)]
#[must_use]
pub struct Cancel<A> {
    /// Where it is there, the task is queued, so that its future is dropped.
    pub queue: Option<ScheduleInfo>,
    /// The awaiter: it is woken.
    pub awaiter: Option<A>,
}

/// What the owner of a task does after a detach.
#[derive(Debug, PartialEq, Eq, Drop)]
#[must_use]
pub struct Detach<T> {
    /// Where it is there, the task is queued, so that its future is dropped.
    pub queue: Option<ScheduleInfo>,
    /// The output that nobody is left to be given to: it is dropped.
    pub output: Option<T>,
}

/// What a poll of the handle answers.
#[derive(Debug, PartialEq, Eq, Drop)]
#[must_use]
pub enum Polled<T, A> {
    /// The output, and the waker that was handed in, which is dropped.
    Output { output: T, spare: A },
    /// There will be no output. The waker that was handed in is dropped.
    Closed { spare: A },
    /// The waker that was handed in is kept. The one before it is dropped.
    Pending { replaced: Option<A> },
}
