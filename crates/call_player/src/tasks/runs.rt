//! The calls on the list of Runnables and on open runs.
use crate::tasks::answer::Answer;
use crate::tasks::command::ListCall;
use crate::tasks::handle::{Handle, marks_of};
use crate::tasks::kept::Keeps;
use crate::tasks::player::Player;
use crate::tasks::scene::Entry;
use crate::tasks::stage::{
    Actor, Bell, Line, Output, ScriptRunnable, ScriptRunning, ScriptScheduled,
};
use async_task::{
    Back, Future, Poll, Returning, RunEnd, Runtime, Schedule, Started, StoredRunnable, Wake,
};
use std::alloc::AllocError;

/// A run that was left open before its future is polled. Its drop ends it without a poll.
pub struct OpenRun<R: Runtime>
where
    Actor<R>: Drop,
    Output<R>: Drop,
    Line<R>: Schedule<ScriptScheduled<R>> + Drop,
    Bell<R>: Wake + Drop,
{
    future: Actor<R>,
    running: ScriptRunning<R>,
}

impl<R: Runtime> OpenRun<R> {
    /// Polls the future, and ends the run. The answer is whether the task was woken meanwhile.
    fn settle(self) -> bool {
        let Self { future, running } = self;
        let mut future = future;
        match future.poll(running.waker()) {
            Poll::Ready(output) => {
                drop(future);
                ended(running.settle(Back::Ready(output)))
            }
            Poll::Pending => ended(running.settle(Back::Pending(future))),
        }
    }
}

impl<R: Runtime> Drop for OpenRun<R> {
    fn drop(self) {
        let Self { future, running } = self;
        ended(running.settle(Back::Pending(future)));
    }
}

/// Begins a run, which stays open, or closes the task.
fn start<R: Runtime, K: Keeps<Handle<R>, OpenRun<R>>>(
    runnable: ScriptRunnable<R>,
    kept: &mut K,
) -> Result<Answer, AllocError> {
    match runnable.start() {
        Started::Poll(future, running) => {
            kept.open(OpenRun { future, running })?;
            Ok(Answer::Is(true))
        }
        Started::Drop(future, closing) => {
            drop(future);
            closing.finish();
            Ok(Answer::Is(false))
        }
    }
}

type ScriptRunEnd<R> = RunEnd<Actor<R>, Output<R>, Line<R>, u64, Bell<R>, R>;

/// Ends a run.
fn ended<R: Runtime>(end: ScriptRunEnd<R>) -> bool {
    match end {
        RunEnd::Over => false,
        RunEnd::Pause(pause) => pause.finish(),
        RunEnd::Drop(future, closing) => {
            drop(future);
            closing.finish();
            false
        }
    }
}

impl<R: Runtime> Player<R> {
    /// A call on the list or on the innermost open run.
    pub fn list_call<K>(&self, call: ListCall, kept: &mut K) -> Result<Answer, AllocError>
    where
        K: Keeps<Handle<R>, OpenRun<R>>,
    {
        if let ListCall::Settle = call {
            return Ok(match kept.innermost() {
                Some(run) => Answer::Is(run.settle()),
                None => Answer::NotPossible,
            });
        }
        if let ListCall::Next = call {
            return self.next();
        }
        let Some(runnable) = self.first() else {
            return Ok(Answer::NotPossible);
        };
        match call {
            ListCall::Run => Ok(Answer::Is(runnable.run())),
            ListCall::Start => start(runnable, kept),
            ListCall::DropRunnable => {
                drop(runnable);
                Ok(Answer::Done)
            }
            ListCall::Reschedule => {
                runnable.schedule();
                Ok(Answer::Done)
            }
            ListCall::Settle | ListCall::Next => Ok(Answer::NotPossible),
        }
    }

    /// The Runnable that was stored.
    pub fn found(&self, stored: Returning<StoredRunnable<u64>>) -> Option<ScriptRunnable<R>> {
        match stored.redeem(self.rt, self.realm) {
            Some(scheduled) => Some(scheduled.into_runnable()),
            None => None,
        }
    }

    /// Takes the first Runnable of the list.
    fn first(&self) -> Option<ScriptRunnable<R>> {
        match self.scene.first(&self.rt) {
            Some(Entry { task: _, runnable }) => self.found(runnable),
            None => None,
        }
    }

    /// Looks at the first Runnable, and puts it back.
    fn next(&self) -> Result<Answer, AllocError> {
        let Some(Entry { task, runnable }) = self.scene.first(&self.rt) else {
            return Ok(Answer::NotPossible);
        };
        let Some(runnable) = self.found(runnable) else {
            return Ok(Answer::NotPossible);
        };
        let metadata = *runnable.metadata();
        let text: Result<String, AllocError> = format!(in self.alloc; "{runnable:?}");
        let stored = Returning::new(runnable.into_scheduled().store());
        self.scene.push_front(&self.rt, task, stored);
        let text = text?;
        let name = self.scene.name(&self.rt, self.alloc, task)?;
        let name = name.as_str();
        let marks = marks_of(text.as_str());
        Ok(Answer::Text(format!(in self.alloc; "{name}, metadata: {metadata}, {marks}")?))
    }
}
