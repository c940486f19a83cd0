use crate::names::{Look, Sleeping, TickOrRun};

/// How a sleeper is told that there is something to do.
pub enum SleeperStep<F, T> {
    /// The flag is exchanged.
    ExchangeFlag,
    /// Who won the exchange takes the waker that was added last, where no sleeper is notified.
    HandOut,
    /// That waker is called.
    CallSleeper(Sleeping<F, T>),
}

/// The making of a tick, and what ticks and runs both do.
pub enum TickStep<F, T> {
    /// A tick is made, with room to sleep in.
    MakeTick,
    /// It searches from the beginning: a tick takes a turn, and a run the first Runnable of its own queue.
    Search(Sleeping<F, T>),
    /// A tick takes the first Runnable of one of the executor's queues.
    Look(Sleeping<F, T>, Look),
    /// The waker is copied, to fall asleep with.
    CopyWaker(Sleeping<F, T>),
    /// It falls asleep with the copy, or falls asleep again.
    FallAsleep(Sleeping<F, T>),
    /// It wakes up.
    WakeUp(TickOrRun<T>),
    /// It leaves the sleepers.
    Leave(TickOrRun<T>),
}
