//! The state without what parties have still to do: tasks, table, ticks, runs and queues.
use crate::queues::Queues;
use crate::runs::TicksAndRuns;
use crate::table::Entries;
use executor_model::{Awaiter, Event};
use executor_parts::Mark;
use std::collections::VecDeque;
use task_moves::moves::State;

/// The state of the machine without what its parties have still to do.
#[derive(Drop)]
pub struct Store {
    /// Nobody drops the executor, and an entry of its table has no waker.
    pub is_static: bool,
    /// By the numbers of the futures: the flags and the count of each task.
    pub tasks: Vec<State>,
    /// The awaiter that each task keeps.
    pub awaiters: Vec<Option<Awaiter>>,
    /// The mark of each future.
    pub marks: Vec<Mark>,
    /// The Runnables, by their marks and futures.
    pub queues: Queues,
    /// So many turns look at the urgent queue first, before one looks at the plain one.
    pub urgent_turns: u64,
    /// The table, where each future has an entry, with the limit of undropped futures, and what the
    /// executor's drop has taken out of it and not yet dropped.
    pub entries: Entries,
    /// The wakers of those that it has dropped and not yet woken.
    pub waking: VecDeque<u64>,
    /// The kept wakers by number, each by its future.
    pub wakers: Vec<Option<u64>>,
    /// The ticks and runs, the sleepers among whom they fall asleep, and the flag beside these.
    pub ticks_and_runs: TicksAndRuns,
    /// The executor's drop was begun.
    pub gone: bool,
    pub trace: Vec<Event>,
}
