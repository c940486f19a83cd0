use crate::reply::Reply;
use executor_parts::Mark;

/// A waker: of the task of this future, or from outside of the executor.
#[derive(Drop)]
pub enum Waker<F> {
    Task(F),
    Outside,
}

/// Who falls asleep among the sleepers.
#[derive(Drop)]
pub enum TickOrRun<T> {
    Tick(T),
    Run(T),
}

/// Who falls asleep, and the waker that it falls asleep with.
#[derive(Drop)]
pub struct Sleeping<F, T> {
    pub waker: Waker<F>,
    pub who: TickOrRun<T>,
}

/// A poll of a run: the run, and the waker that it was given.
#[derive(Drop)]
pub struct RunPoll<F, T> {
    pub run: T,
    pub waker: Waker<F>,
}

/// A run was never polled; or its own queue is in the list; or that has gone from there.
#[derive(Clone, Copy)]
pub enum Stage {
    New,
    Listed,
    Ended,
}

/// What is done with the list of the runs' own queues under its write lock.
#[derive(Drop)]
pub enum Section<F, T> {
    /// A run is made: room in the list, and an own queue.
    MakeRun,
    /// The own queue of the run that is polled comes into the list.
    Register(RunPoll<F, T>),
    /// The own queue of this run goes from the list, in a call that is answered so.
    Unregister(T, Reply),
}

/// One of the two looks of a search at the executor's queues.
#[derive(Clone, Copy)]
pub enum Look {
    /// At the queue that the turn names. Where nothing is there, the other one is looked at.
    First(Mark),
    /// At the other one.
    Second(Mark),
}

/// A queue that a run steals from.
#[derive(Drop)]
pub enum Source<T> {
    /// The executor's queue of this mark.
    Common(Mark),
    /// The own queue of this run.
    Own(T),
}

/// What a run goes on with once a steal has ended.
#[derive(Drop)]
pub enum Then<F> {
    /// With this future, which it has found.
    Found(F),
    /// With this future, which it has counted too, once it has stolen from the executor's plain queue.
    StealPlain(F),
    /// With this future, which it has counted too.
    Run(F),
    /// With its walk, where so many queues are still to go to.
    Walk(u64),
}

/// A steal: the poll of the run that steals, where it steals from, and what it goes on with.
#[derive(Drop)]
pub struct Steal<F, T> {
    pub poll: RunPoll<F, T>,
    pub from: Source<T>,
    pub then: Then<F>,
}
