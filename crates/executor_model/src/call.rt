//! What parties call, and what they are answered.
use executor_parts::Mark;

/// A call that a party makes. Futures, ticks, runs and wakers are numbered from 0, in the order in which they were made.
#[derive(Clone, Copy, Debug, PartialEq, Eq)]
pub enum Call {
    /// A future of this mark is handed to the executor.
    Spawn(Mark),
    /// The executor is asked to run one future that is due.
    TryTick,
    /// The executor is asked whether each accepted future is dropped.
    IsEmpty,
    /// The waker with this number is called, and goes.
    Wake(u64),
    /// The waker with this number is called, and stays.
    WakeByRef(u64),
    /// A copy is made of the waker with this number. It has the next number.
    Copy(u64),
    /// The waker with this number is let go.
    DropWaker(u64),
    /// Inside a poll: a copy is made of the waker of that poll. It has the next number.
    Keep,
    /// Inside a poll: the waker of that poll is called, and stays.
    WakeSelf,
    /// The handle of the future with this number is polled, and given this waker.
    PollHandle(u64, By),
    /// The future with this number is cancelled by its handle, which stays.
    Cancel(u64),
    /// The handle of the future with this number is let go, and the future is left to run.
    Detach(u64),
    /// The handle of the future with this number is let go, which cancels the future and detaches it.
    DropHandle(u64),
    /// A tick is made. It has the next number.
    NewTick,
    /// The tick with this number is polled, and given this waker.
    PollTick(u64, By),
    /// The tick with this number is dropped.
    DropTick(u64),
    /// A run is made. It has the next number.
    NewRun,
    /// The run with this number is polled, and given this waker.
    PollRun(u64, By),
    /// The run with this number is dropped.
    DropRun(u64),
    /// The executor is made static: its table's wakers go, and each of them is called.
    Leak,
    /// The executor is dropped.
    DropExecutor,
}

/// Whose waker a poll is given.
#[derive(Clone, Copy, Debug, PartialEq, Eq)]
pub enum By {
    /// The waker of the poll in which the party stands.
    Mine,
    /// A waker from outside of the executor, with this number.
    Outside(u64),
}

/// What a call is answered.
#[derive(Clone, Copy, Debug, PartialEq, Eq)]
pub enum Reply {
    /// What was asked for was made.
    Made,
    /// As many accepted futures as there are places are not yet dropped.
    Full,
    Yes,
    No,
    Done,
    /// Memory was refused, or there were too many references for one more.
    NoMemory,
    /// A polled handle has no output yet; a polled tick or run has found no future, and will be told; or a polled
    /// run has taken 200, and has called its own waker.
    Pending,
    /// A polled handle gives its output; a polled tick has run a future; the own future of a polled run is ready.
    Ready,
    /// A polled handle has no output and will have none.
    Cancelled,
    /// The polled run was ready before.
    Finished,
}
