//! Runs of an executor of one thread.
ghost use Rattle.local_executor.specs.Runs.{IsRunAnswer};

use crate::body::Body;
use crate::entry::{LocalExWaker, Unlocked};
use crate::errors::RunError;
use crate::foreign::Foreign;
use crate::run::{self, Running};
use crate::starts::Starts;
use async_task::{Future, Poll, Wake};
use std::sync::Wait;

/// Runs the executor's futures until a future of its own is ready: a future with that one's output. Its drop gives the tasks in
/// its own queue back to the executor.
///
/// It is made by `LocalExecutor::run` or `StaticLocalExecutor::run`.
#[must_use]
pub struct LocalRun<'a, F: Drop, T: Drop, W: Wake + Drop, R: Wait + Copy + Drop, G: Drop> {
    pub(crate) executor: &'a Body<F, T, W, R>,
    /// The future that it runs for, until that future is ready.
    pub(crate) future: Option<Foreign<G>>,
    /// The run, which is out only while it is polled, and gone once its future was ready.
    pub(crate) running: Option<Running>,
    pub(crate) starts: Starts,
}

impl<F, T: Drop, W: Wake + Drop, R: Wait + Copy + Drop, G> Future<LocalExWaker<W, R>>
    for LocalRun<'_, F, T, W, R, G>
where
    F: Future<LocalExWaker<W, R>, Output = T> + Drop,
    G: Future<LocalExWaker<W, R>> + Drop,
{
    type Output = Result<G::Output, RunError>;

    /// Polls its future, and is ready where that future is. Else it runs tasks, until it finds none or has run 200 since it last
    /// let others go first.
    fn poll(&mut self, waker: &LocalExWaker<W, R>) -> Poll<Result<G::Output, RunError>>
        ensures { IsRunAnswer self.old.future self.new.future result }
    {
        self.go_on(waker, &mut Unlocked::at_entry())
    }
}

impl<F: Drop, T: Drop, W: Wake + Drop, R: Wait + Copy + Drop, G: Drop> Drop
    for LocalRun<'_, F, T, W, R, G> {
    /// Drops its future, schedules what is left in its own queue, and leaves the sleepers. A run that was never polled only
    /// drops its future and gives its room back.
    fn drop(self) {
        let LocalRun {
            executor,
            future,
            running,
            starts: _,
        } = self;
        run::end(&executor.link, future, running, &mut Unlocked::at_entry());
    }
}
