use crate::names::{Sleeping, Waker};
use executor_parts::Mark;
use task_moves::moves::Owed;

/// A tick or run that searches: whether it sleeps; and of a run, how many it has counted since the last 64th, and taken since it
/// last let others go first.
#[derive(Clone, Copy)]
pub struct Searcher {
    pub sleeps: bool,
    pub counted: u64,
    pub taken: u64,
}

/// What a step of a call finds.
#[derive(Drop)]
pub enum Saw<F, T> {
    /// Nothing was there, or the exchange was lost, or it was kept out; or user code has ended that answers nothing.
    Nothing,
    /// Something was there, or the exchange was won, or it was made.
    Something,
    /// As many accepted futures as there are places are not yet dropped.
    Full,
    /// Memory was refused, or there were too many references for one more.
    NoMemory,
    /// This future came in.
    Entered(F),
    /// The turn names the queue of this mark.
    Turn(Mark),
    /// The first Runnable is this future's.
    Found(F),
    /// The same, found by this one.
    FoundBy(F, Searcher),
    /// The task has moved; whether the table has its future; what is owed.
    Moved(bool, Owed),
    /// The polled future is not ready yet.
    Pending,
    /// It is ready.
    Ready,
    /// This sleeper's waker is handed out.
    HandedOut(Sleeping<F, T>),
    /// The waker is one from outside.
    Outside,
    /// It sleeps anew, or had been told.
    Anew,
    /// It sleeps where it slept, and this waker goes.
    Already(Option<Waker<F>>),
    /// It can't sleep there.
    Nowhere,
    /// It is awake, and this waker goes.
    Awake(Option<Waker<F>>),
    /// It slept and has left, and this waker goes; none where it had been told.
    Left(Option<Waker<F>>),
    /// Somebody is at the awaiter, or not; and this old one goes, where there is one.
    Awaiter(bool, Option<Waker<F>>),
    /// So many are there, or so many places are free, for this run.
    Number(u64, Searcher),
    /// This run's steal found nothing more.
    StealEnds(Searcher),
    /// The own queue of this run took the Runnable.
    Fits(Searcher),
    /// It didn't.
    Refused(Searcher),
    /// The walk comes to the own queue of this run, with so many still to go to behind it.
    Queue(T, u64),
    /// So many futures are to be dropped, and so many wakers to be woken.
    Closes(u64, u64),
    /// This future is to be dropped; behind it, so many futures and wakers are left.
    Drops(F, u64, u64),
    /// The task of this future was woken, as in `Moved`; so many wakers are left.
    Wakes(F, bool, Owed, u64),
}
