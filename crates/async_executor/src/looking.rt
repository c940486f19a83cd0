//! How a try and a search look into the executor's queues.
ghost use Rattle.std.specs.Prelude.{◌≡◌, ◌∷◌, []};
ghost use Rattle.call_steps.specs.declared.step.CallStep.TheVariants as step;
ghost use Rattle.call_steps.specs.declared.step.table.QueueStep.TheVariants as queue_step;
ghost use Rattle.call_steps.specs.declared.step.tick.TickStep.TheVariants as tick_step;
ghost use Rattle.async_executor.specs.Runs.{looked_common, poll_with};
ghost use Rattle.call_steps.specs.declared.names.TickOrRun.TheVariants as tick_or_run;
ghost use Rattle.call_steps.specs.declared.step.run.RunStep.TheVariants as run_step;
ghost use Rattle.async_executor.specs.Steps.{of_stored, tried};
ghost use Rattle.async_executor.specs.Ticks.{searched, sleeping};

use crate::deeds::Steps;
use crate::deeds::queues::{At, FromQueues};
use crate::names::ExStoredRunnable;
use crate::state::State;
use crate::task_name::TaskName;
use call_steps::{Searcher, Waker};
use std::sync::Wait;

impl<W: Drop> State<W> {
    /// Takes a turn, and then the first Runnable of the queue that the turn names, or else of the other one, as a try does.
    #[inline(always)]
    pub fn take_in_turn<R: Wait>(&self, rt: &R, steps: &mut Steps) -> Option<ExStoredRunnable>
        requires { steps.old ≡ step.Queue queue_step.TakeTurn ∷ [] }
        ensures { steps.new ≡ tried (of_stored result) }
    {
        let mark = steps.take_turn(&self.turns);
        if let Some(first) = steps.take_unless_empty(&At::common(&self.queues, mark), None, rt) {
            return Some(first);
        }
        steps.take(&At::common(&self.queues, mark.other()), None, rt)
    }

    /// A run's look at the executor's queues, in a poll with a waker of this name. It takes a turn, and then the first Runnable of
    /// the queue that the turn names, or else of the other one.
    #[inline(always)]
    pub fn look_common<R: Wait>(
        &self,
        rt: &R,
        name: &Waker<TaskName>,
        steps: &mut Steps,
    ) -> Option<FromQueues>
        requires { steps.old ≡ step.Run (run_step.TakeTurn (poll_with name.now)) ∷ [] }
        ensures { steps.new ≡ looked_common name.now result }
    {
        let _ = name;
        let mark = steps.take_turn(&self.turns);
        if let Some(runnable) = steps.take_unless_empty(&At::common(&self.queues, mark), None, rt) {
            return Some(FromQueues { runnable, mark });
        }
        let mark = mark.other();
        let runnable = steps.take(&At::common(&self.queues, mark), None, rt)?;
        Some(FromQueues { runnable, mark })
    }

    /// A search of a tick that sleeps or not, and was polled with a waker of this name. It takes a turn, and then the first
    /// Runnable of the queue that the turn names, or else of the other one. It counts nothing.
    #[inline(always)]
    pub fn search_as_tick<R: Wait>(
        &self,
        rt: &R,
        name: &Waker<TaskName>,
        sleeps: bool,
        steps: &mut Steps,
    ) -> Option<ExStoredRunnable>
        requires { steps.old ≡ step.Tick (tick_step.Search (sleeping (tick_or_run.Tick tt) name.now)) ∷ [] }
        ensures { steps.new ≡ searched name.now sleeps (of_stored result) }
    {
        let _ = name;
        let by = Some(Searcher {
            sleeps,
            counted: 0,
            taken: 0,
        });
        let mark = steps.take_turn(&self.turns);
        if let Some(first) = steps.take_unless_empty(&At::common(&self.queues, mark), by, rt) {
            return Some(first);
        }
        steps.take(&At::common(&self.queues, mark.other()), by, rt)
    }
}
