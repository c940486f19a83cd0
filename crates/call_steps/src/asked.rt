use crate::names::{RunPoll, Sleeping, Stage, Waker};
use executor_parts::Mark;

/// What a call is asked to do, as it begins.
#[derive(Drop)]
pub enum Asked<F, T> {
    /// A future of this mark is handed to the executor.
    Spawn(Mark),
    /// The executor is asked to run one future that is due.
    TryTick,
    /// The executor is asked whether each accepted future is dropped.
    IsEmpty,
    /// A waker of this future is called, and goes.
    Wake(F),
    /// A waker of this future is called, and stays.
    WakeByRef(F),
    /// A copy is made of a waker of this future.
    Copy(F),
    /// A waker of this future is let go.
    DropWaker(F),
    /// The handle of this future is polled, and given this waker.
    PollHandle(F, Waker<F>),
    /// This future is cancelled by its handle, which stays.
    Cancel(F),
    /// The handle of this future is let go, and the future is left to run.
    Detach(F),
    /// The handle of this future is let go, which cancels the future and detaches it.
    DropHandle(F),
    /// A tick is made.
    NewTick,
    /// A tick is polled, and given this waker.
    PollTick(Sleeping<F, T>),
    /// A tick is dropped.
    DropTick(T),
    /// A run is made.
    NewRun,
    /// A run at this stage is polled.
    PollRun(RunPoll<F, T>, Stage),
    /// A run at this stage is dropped.
    DropRun(T, Stage),
    /// The executor is made static.
    Leak,
    /// The executor is dropped.
    DropExecutor,
}
