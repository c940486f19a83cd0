use crate::names::{Look, RunPoll, Section, Steal};
use crate::reply::Reply;

/// What a call does with the list of the runs' own queues.
pub enum ListStep<F, T> {
    /// Its write lock is taken.
    LockWrite(Section<F, T>),
    /// This is done under the write lock.
    Write(Section<F, T>),
    /// The write lock is given back.
    UnlockWrite,
    /// Its read lock is taken, and the run's walk begins.
    LockRead(RunPoll<F, T>),
    /// The read lock is given back.
    UnlockRead,
}

/// Parts of a steal.
pub enum StealStep<F, T> {
    /// The length of the source is read.
    Length(Steal<F, T>),
    /// The length of the own queue is read. The number is that of the source.
    OwnLength(Steal<F, T>, u64),
    /// The first Runnable of the source is taken, and so many after it.
    Take(Steal<F, T>, u64),
    /// A Runnable of this future is appended to the own queue, with so many after it.
    Put(Steal<F, T>, u64, F),
}

/// Parts of the making, of a poll and of the drop of a run.
pub enum RunStep<F, T> {
    /// Room is made to fall asleep in.
    MakeRoom,
    /// Room is given back.
    ReturnRoom,
    /// A turn is taken, which names the executor's queue that is looked at first.
    TakeTurn(RunPoll<F, T>),
    /// The first Runnable of one of the executor's queues is taken.
    SearchCommon(RunPoll<F, T>, Look),
    /// In a walk, the first Runnable of the own queue is taken, where so many queues are still to go to.
    LookOwn(RunPoll<F, T>, u64),
    /// The waker that the poll was given is called, and stays.
    WakeOwn(RunPoll<F, T>),
    /// The first Runnable that is left in the own queue of this run is scheduled, in a call that is answered so.
    Reschedule(T, Reply),
}
