//! How ticks and runs are made: all memory that they need later is taken here.
ghost use Rattle.std.specs.Prelude.{◌≡◌, ◌∷◌, [], false, Some, IfOk, IfErr};
ghost use Rattle.async_executor.specs.Foreign.{value_of};
ghost use Rattle.async_executor.specs.Making.{IsNew, IsUnlisted};
ghost use Rattle.async_executor.specs.Polls.{has_left};
ghost use Rattle.async_executor.specs.Seeds.{seeded};
ghost use Rattle.async_executor.specs.Steps.{made};
ghost use Rattle.call_steps.specs.declared.names.Section.TheVariants as section;
ghost use Rattle.call_steps.specs.declared.step.CallStep.TheVariants as step;
ghost use Rattle.call_steps.specs.declared.step.run.ListStep.TheVariants as list_step;
ghost use Rattle.call_steps.specs.declared.step.run.RunStep.TheVariants as run_step;
ghost use Rattle.call_steps.specs.declared.step.tick.TickStep.TheVariants as tick_step;

use crate::body::Body;
use crate::counts::Counts;
use crate::deeds::Steps;
use crate::entry::{Run, Tick, Unlocked};
use crate::foreign::Foreign;
use crate::names::ExWaker;
use crate::runner::Runner;
use crate::steps::Answered;
use crate::ticker::Ticker;
use async_task::{Future, NoMemory, Output, OutsideWaker, Runtime};
use call_steps::{Last, Reply};
use executor_parts::Room;

impl<F, T: Output, W: OutsideWaker, R: Runtime> Body<F, T, W, R>
where
    F: Future<ExWaker<T, W, R>, Output = T> + Drop,
{
    /// Makes a tick, which is awake. The second answer is the call's end.
    pub(crate) fn make_tick(
        &self,
        steps: Steps,
        unlocked: &mut Unlocked,
    ) -> (Result<Tick<'_, F, T, W, R>, NoMemory>, Last)
        requires { steps ≡ step.Tick tick_step.MakeTick ∷ [] }
        ensures stays { IfOk result.0 (λ tick. has_left tick.ticker ≡ false) }
        ensures answer { result.1 ≡ made result.0 }
    {
        let mut steps = steps;
        match steps.make_room(&self.state, &self.rt, unlocked) {
            Ok(new_room) => {
                let tick = Tick {
                    executor: self,
                    ticker: Ticker::Awake(new_room),
                    answered: Answered::never(),
                };
                (Ok(tick), steps.end(Reply::Made))
            }
            Err(NoMemory) => (Err(NoMemory), steps.end(Reply::NoMemory)),
        }
    }

    /// Makes a run, which is awake. For want of memory the future comes back. The second answer is the call's end.
    pub(crate) fn make_run<G>(
        &self,
        future: G,
        seed: u64,
        steps: Steps,
        unlocked: &mut Unlocked,
    ) -> (Result<Run<'_, F, T, W, R, G>, G>, Last)
    where
        G: Future<ExWaker<T, W, R>> + Drop,
        requires { steps ≡ step.Run run_step.MakeRoom ∷ [] }
        ensures back { IfErr result.0 (λ back. back ≡ future) }
        ensures future { IfOk result.0 (λ run. value_of run.future ≡ Some future) }
        ensures words { IfOk result.0 (λ run. run.runner.words ≡ seeded seed) }
        ensures new { IfOk result.0 (λ run. IsNew run.runner run.ticker run.counts) }
        ensures answer { result.1 ≡ made result.0 }
    {
        let mut steps = steps;
        match steps.make_room(&self.state, &self.rt, unlocked) {
            Ok(room) => self.make_run_in(room, future, seed, steps, unlocked),
            Err(NoMemory) => (Err(future), steps.end(Reply::NoMemory)),
        }
    }

    /// Makes a run that has this room to fall asleep in. The room goes back where memory is lacking.
    fn make_run_in<G>(
        &self,
        room: Room,
        future: G,
        seed: u64,
        steps: Steps,
        unlocked: &mut Unlocked,
    ) -> (Result<Run<'_, F, T, W, R, G>, G>, Last)
    where
        G: Future<ExWaker<T, W, R>> + Drop,
        requires { steps ≡ step.List (list_step.LockWrite section.MakeRun) ∷ [] }
        ensures back { IfErr result.0 (λ back. back ≡ future) }
        ensures future { IfOk result.0 (λ run. value_of run.future ≡ Some future) }
        ensures words { IfOk result.0 (λ run. run.runner.words ≡ seeded seed) }
        ensures new { IfOk result.0 (λ run. IsNew run.runner run.ticker run.counts) }
        ensures answer { result.1 ≡ made result.0 }
    {
        let mut steps = steps;
        match steps.make_runner(&self.state, seed, self.alloc, &self.rt, unlocked) {
            Ok(runner) => {
                let run = self.run_of(future, runner, room);
                (Ok(run), steps.end(Reply::Made))
            }
            Err(NoMemory) => {
                steps.return_room(room, &self.state, &self.rt, unlocked);
                (Err(future), steps.end(Reply::NoMemory))
            }
        }
    }

    /// Makes a run of these parts, which is awake and was never polled.
    fn run_of<G>(&self, future: G, runner: Runner, room: Room) -> Run<'_, F, T, W, R, G>
    where
        G: Future<ExWaker<T, W, R>> + Drop,
        requires unlisted { IsUnlisted runner }
        ensures future { value_of result.future ≡ Some future }
        ensures words { result.runner.words ≡ runner.words }
        ensures new { IsNew result.runner result.ticker result.counts }
    {
        Run {
            executor: self,
            future: Some(Foreign::of(future)),
            runner,
            ticker: Ticker::Awake(room),
            answered: Answered::never(),
            counts: Counts::new(),
        }
    }
}
