//! The executors of a script.
use crate::future::Planned;
use crate::handle::HoldIn;
use crate::outside::ScriptTask;
use crate::seat::{ScriptRun, ScriptTick, answer_of_run};
use crate::shelf::Kept;
use async_executor::{Executor, SpawnError, StaticExecutor};
use async_task::{Awaiter, Future, Runtime};
use player_parts::{
    Answer, Bell, Desk, Gift, Own, Plan, Refused, SharedShelf, answer_of_tick, future_of,
};

/// The executor of a script.
pub type ScriptExecutor<F, R> = Executor<F, Gift, Bell, R>;

/// The executor of a script that is static.
pub type ScriptStatic<F, R> = StaticExecutor<F, Gift, Bell, R>;

/// An executor of a script, and where the wakers of its futures are kept.
#[derive(Drop)]
pub struct OnExecutor<'a, F: Drop, R: Runtime> {
    pub executor: &'a ScriptExecutor<F, R>,
    pub shelf: &'a SharedShelf<Kept>,
}

/// The same, of one that is static.
#[derive(Drop)]
pub struct OnStatic<'a, F: Drop, R: Runtime> {
    pub executor: &'a ScriptStatic<F, R>,
    pub shelf: &'a SharedShelf<Kept>,
}

impl<'a, F, H, R: Runtime> Desk<H, ScriptTick<'a, F, R>, ScriptRun<'a, F, H, R>>
    for OnExecutor<'a, F, R>
where
    F: Planned<H, R>,
    H: HoldIn<R>,
{
    fn spawn(&self, plan: Plan<H>) -> Result<H, Refused<H>> {
        let mark = plan.mark;
        match future_of(self.shelf, plan) {
            Ok(future) => {
                let spawned = self.executor.spawn_marked(F::planned(future), mark);
                answered(spawned)
            }
            Err(refused) => Err(refused),
        }
    }

    fn try_tick(&self) -> bool {
        self.executor.try_tick()
    }

    fn is_empty(&self) -> bool {
        self.executor.is_empty()
    }

    fn may_end(&self) -> bool {
        true
    }

    fn tick(&self) -> Option<ScriptTick<'a, F, R>> {
        let executor = self.executor;
        match executor.tick() {
            Ok(tick) => Some(tick),
            Err(_) => None,
        }
    }

    fn run(&self, own: Own<H>) -> Result<ScriptRun<'a, F, H, R>, Own<H>> {
        let executor = self.executor;
        match executor.run(own) {
            Ok(run) => Ok(run),
            Err(own) => Err(own),
        }
    }

    fn poll_tick(&self, tick: &mut ScriptTick<'a, F, R>, bell: Bell) -> Answer {
        answer_of_tick(tick.poll(&Awaiter::Outside(bell)))
    }

    fn poll_run(&self, run: &mut ScriptRun<'a, F, H, R>, bell: Bell) -> Answer {
        answer_of_run(run.poll(&Awaiter::Outside(bell)))
    }
}

impl<'a, F, H, R: Runtime> Desk<H, ScriptTick<'a, F, R>, ScriptRun<'a, F, H, R>>
    for OnStatic<'a, F, R>
where
    F: Planned<H, R>,
    H: HoldIn<R>,
{
    fn spawn(&self, plan: Plan<H>) -> Result<H, Refused<H>> {
        let mark = plan.mark;
        match future_of(self.shelf, plan) {
            Ok(future) => {
                let spawned = self.executor.spawn_marked(F::planned(future), mark);
                answered(spawned)
            }
            Err(refused) => Err(refused),
        }
    }

    fn try_tick(&self) -> bool {
        self.executor.try_tick()
    }

    /// It has no call for it: what it accepted is counted here, and what was dropped.
    fn is_empty(&self) -> bool {
        self.shelf.stage.has_counted_all_out()
    }

    fn may_end(&self) -> bool {
        false
    }

    fn tick(&self) -> Option<ScriptTick<'a, F, R>> {
        let executor = self.executor;
        match executor.tick() {
            Ok(tick) => Some(tick),
            Err(_) => None,
        }
    }

    fn run(&self, own: Own<H>) -> Result<ScriptRun<'a, F, H, R>, Own<H>> {
        let executor = self.executor;
        match executor.run(own) {
            Ok(run) => Ok(run),
            Err(own) => Err(own),
        }
    }

    fn poll_tick(&self, tick: &mut ScriptTick<'a, F, R>, bell: Bell) -> Answer {
        answer_of_tick(tick.poll(&Awaiter::Outside(bell)))
    }

    fn poll_run(&self, run: &mut ScriptRun<'a, F, H, R>, bell: Bell) -> Answer {
        answer_of_run(run.poll(&Awaiter::Outside(bell)))
    }
}

/// What a spawn answers.
fn answered<F: Planned<H, R>, H: HoldIn<R>, R: Runtime>(
    spawned: Result<ScriptTask<R>, SpawnError<F>>,
) -> Result<H, Refused<H>> {
    match spawned {
        Ok(task) => Ok(H::of(task)),
        Err(SpawnError::Full(future)) => Err(Refused {
            answer: Answer::Full,
            held: future.held_back(),
        }),
        Err(SpawnError::NoMemory(future)) => Err(Refused {
            answer: Answer::NoMemory,
            held: future.held_back(),
        }),
    }
}
