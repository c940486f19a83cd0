use crate::names::RunPoll;

/// User code, and what leads to it.
pub enum UserStep<F, T> {
    /// The poll of the future.
    Poll(F),
    /// The drop of the future begins.
    BeginDrop(F),
    /// The drop of the future.
    Drop(F),
    /// The drop of the future's output begins.
    BeginDropOutput(F),
    /// The drop of the future's output.
    DropOutput(F),
    /// The call of an outside waker.
    CallOutside,
    /// The poll of a run's own future.
    PollOwn(RunPoll<F, T>),
    /// The drop of the own future of this run.
    DropOwn(T),
}
