//! What `Debug` shows of the handles: the state of the task at one moment, how many references it has, and its metadata. Of what
//! rests in a cell it shows the task.
use crate::bounds::{Output, OutsideWaker};
use crate::cell::{GoesBack, Held, Returning, Scheduled, StoredRunnable, StoredWaker};
use crate::fallible::FallibleTask;
use crate::runnable::Runnable;
use crate::schedule::Schedule;
use crate::stored_task::StoredTask;
use crate::task::Task;
use std::fmt;
use std::sync::Wait;

fn show<F, T: Output, S, M, W, R, D>(
    name: &str,
    held: &Held<F, T, S, M, W, R>,
    f: &mut fmt::Formatter<D>,
) -> fmt::Result
where
    F: Drop + 'static,
    S: Drop + 'static,
    M: Copy + fmt::Debug + Drop + 'static,
    W: Drop + 'static,
    R: Wait + Copy + Drop,
    D: fmt::Write,
{
    let state = held.look().state();
    f.debug_struct(name)
        .field("scheduled", &state.scheduled)
        .field("running", &state.running)
        .field("completed", &state.completed)
        .field("closed", &state.closed)
        .field("awaiter", &state.awaiter)
        .field("task", &state.handle)
        .field("ref_count", &state.references)
        .field("metadata", held.metadata())
        .finish()
}

impl<F, T: Output, S, M, W: OutsideWaker, R> fmt::Debug for Runnable<F, T, S, M, W, R>
where
    F: Drop + 'static,
    S: Schedule<Scheduled<F, T, S, M, W, R>> + Drop + 'static,
    M: Copy + fmt::Debug + Drop + 'static,
    R: Wait + Copy + Drop,
{
    fn fmt<D: fmt::Write>(&self, f: &mut fmt::Formatter<D>) -> fmt::Result {
        show("Runnable", &self.held, f)
    }
}

impl<F, T: Output, S, M, W: OutsideWaker, R> fmt::Debug for Task<F, T, S, M, W, R>
where
    F: Drop + 'static,
    S: Schedule<Scheduled<F, T, S, M, W, R>> + Drop + 'static,
    M: Copy + fmt::Debug + Drop + 'static,
    R: Wait + Copy + Drop,
{
    fn fmt<D: fmt::Write>(&self, f: &mut fmt::Formatter<D>) -> fmt::Result {
        show("Task", &self.held, f)
    }
}

impl<F, T: Output, S, M, W: OutsideWaker, R> fmt::Debug for FallibleTask<F, T, S, M, W, R>
where
    F: Drop + 'static,
    S: Schedule<Scheduled<F, T, S, M, W, R>> + Drop + 'static,
    M: Copy + fmt::Debug + Drop + 'static,
    R: Wait + Copy + Drop,
{
    fn fmt<D: fmt::Write>(&self, f: &mut fmt::Formatter<D>) -> fmt::Result {
        show("FallibleTask", &self.held, f)
    }
}

impl<M> fmt::Debug for StoredRunnable<M> {
    fn fmt<D: fmt::Write>(&self, f: &mut fmt::Formatter<D>) -> fmt::Result {
        f.debug_struct("StoredRunnable")
            .field("identity", &self.identity())
            .finish()
    }
}

impl fmt::Debug for StoredWaker {
    fn fmt<D: fmt::Write>(&self, f: &mut fmt::Formatter<D>) -> fmt::Result {
        f.debug_struct("StoredWaker")
            .field("identity", &self.identity())
            .finish()
    }
}

impl<M> fmt::Debug for StoredTask<M> {
    fn fmt<D: fmt::Write>(&self, f: &mut fmt::Formatter<D>) -> fmt::Result {
        f.debug_struct("StoredTask")
            .field("identity", &self.identity())
            .finish()
    }
}

impl<X: GoesBack + fmt::Debug> fmt::Debug for Returning<X> {
    fn fmt<D: fmt::Write>(&self, f: &mut fmt::Formatter<D>) -> fmt::Result {
        f.debug_tuple("Returning").field(self.inner()).finish()
    }
}
