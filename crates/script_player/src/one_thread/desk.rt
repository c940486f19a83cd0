//! The executors of a script.
use crate::one_thread::handle::{Handle, Kept};
use async_task::{Future, Poll};
use local_executor::{
    LocalExWaker, LocalExecutor, LocalHandle, LocalRun, LocalTick, RunError, SpawnError,
    StaticLocalExecutor,
};
use player_parts::{
    Answer, Bell, Desk, Gift, Own, Plan, Refused, Scripted, SharedShelf, answer_of_tick, future_of,
};
use std::sync::Wait;

/// The future of a script's line.
pub type ScriptFuture<R> = Scripted<Handle<R>, Kept<R>>;

/// The executor of a script.
pub type ScriptExecutor<R> = LocalExecutor<ScriptFuture<R>, Gift, Bell, R>;

/// The executor of a script that is static.
pub type ScriptStatic<R> = StaticLocalExecutor<ScriptFuture<R>, Gift, Bell, R>;

/// A tick of either.
pub type ScriptTick<'a, R> = LocalTick<'a, ScriptFuture<R>, Gift, Bell, R>;

/// A run of either.
pub type ScriptRun<'a, R> = LocalRun<'a, ScriptFuture<R>, Gift, Bell, R, Own<Handle<R>>>;

/// An executor of a script, and where the wakers of its futures are kept.
#[derive(Drop)]
pub struct OnLocal<'a, R: Wait + Copy + Drop> {
    pub executor: OneOf<'a, R>,
    pub shelf: &'a SharedShelf<Kept<R>>,
}

/// An executor of a script, of either kind.
#[derive(Drop)]
pub enum OneOf<'a, R: Wait + Copy + Drop> {
    Owned(&'a ScriptExecutor<R>),
    Static(&'a ScriptStatic<R>),
}

impl<'a, R: Wait + Copy + Drop> Desk<Handle<R>, ScriptTick<'a, R>, ScriptRun<'a, R>>
    for OnLocal<'a, R> {
    fn spawn(&self, plan: Plan<Handle<R>>) -> Result<Handle<R>, Refused<Handle<R>>> {
        let mark = plan.mark;
        let future = future_of(self.shelf, plan)?;
        let spawned = match &self.executor {
            OneOf::Owned(executor) => executor.spawn_marked(future, mark),
            OneOf::Static(executor) => executor.spawn_marked(future, mark),
        };
        answered(spawned)
    }

    fn try_tick(&self) -> bool {
        match &self.executor {
            OneOf::Owned(executor) => executor.try_tick(),
            OneOf::Static(executor) => executor.try_tick(),
        }
    }

    /// A static executor has no call for it: what it accepted is counted on the shelf, and what was dropped.
    fn is_empty(&self) -> bool {
        match &self.executor {
            OneOf::Owned(executor) => executor.is_empty(),
            OneOf::Static(_) => self.shelf.stage.has_counted_all_out(),
        }
    }

    fn may_end(&self) -> bool {
        match &self.executor {
            OneOf::Owned(_) => true,
            OneOf::Static(_) => false,
        }
    }

    fn tick(&self) -> Option<ScriptTick<'a, R>> {
        let made = match &self.executor {
            OneOf::Owned(executor) => {
                let executor: &'a ScriptExecutor<R> = *executor;
                executor.tick()
            }
            OneOf::Static(executor) => {
                let executor: &'a ScriptStatic<R> = *executor;
                executor.tick()
            }
        };
        match made {
            Ok(tick) => Some(tick),
            Err(_) => None,
        }
    }

    fn run(&self, own: Own<Handle<R>>) -> Result<ScriptRun<'a, R>, Own<Handle<R>>> {
        match &self.executor {
            OneOf::Owned(executor) => {
                let executor: &'a ScriptExecutor<R> = *executor;
                executor.run(own)
            }
            OneOf::Static(executor) => {
                let executor: &'a ScriptStatic<R> = *executor;
                executor.run(own)
            }
        }
    }

    fn poll_tick(&self, tick: &mut ScriptTick<'a, R>, bell: Bell) -> Answer {
        answer_of_tick(tick.poll(&LocalExWaker::Outside(bell)))
    }

    fn poll_run(&self, run: &mut ScriptRun<'a, R>, bell: Bell) -> Answer {
        answer_of_run(run.poll(&LocalExWaker::Outside(bell)))
    }
}

/// What a spawn answers.
fn answered<R: Wait + Copy + Drop>(
    spawned: Result<LocalHandle<Gift, Bell, R>, SpawnError<ScriptFuture<R>>>,
) -> Result<Handle<R>, Refused<Handle<R>>> {
    match spawned {
        Ok(handle) => Ok(Handle::Task(handle)),
        Err(SpawnError::Full(future)) => Err(Refused {
            answer: Answer::Full,
            held: future.into_held(),
        }),
        Err(SpawnError::NoMemory(future)) => Err(Refused {
            answer: Answer::NoMemory,
            held: future.into_held(),
        }),
    }
}

fn answer_of_run(polled: Poll<Result<u64, RunError>>) -> Answer {
    match polled {
        Poll::Pending => Answer::Pending,
        Poll::Ready(Ok(number)) => Answer::Output(number),
        Poll::Ready(Err(RunError::NoMemory)) => Answer::NoMemory,
        Poll::Ready(Err(RunError::Finished)) => Answer::Finished,
    }
}
