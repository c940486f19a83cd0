//! What calls do with the list of the runs' own queues, each under its lock.
ghost use Rattle.std.specs.Prelude.{◌≡◌, ◌∷◌, [], None, IfOk, is_ok};
ghost use Rattle.call_steps.specs.declared.names.Section.TheVariants as section;
ghost use Rattle.call_steps.specs.declared.step.CallStep.TheVariants as step;
ghost use Rattle.call_steps.specs.declared.step.run.ListStep.TheVariants as list_step;
ghost use Rattle.call_steps.specs.declared.step.run.RunStep.TheVariants as run_step;
ghost use Rattle.async_executor.specs.Deeds.{run_listed, run_made};
ghost use Rattle.async_executor.specs.Making.{IsUnlisted};
ghost use Rattle.call_steps.specs.declared.names.Source.TheVariants as source;
ghost use Rattle.call_steps.specs.declared.names.Then.TheVariants as then;
ghost use Rattle.async_executor.specs.declared.runner.Searched.TheVariants as outcome;
ghost use Rattle.async_executor.specs.Runs.{poll_with, reads_length, walks};
ghost use Rattle.async_executor.specs.Searched.{searched, walked};
ghost use Rattle.async_executor.specs.Seeds.{seeded};

use super::Steps;
use super::queues::Queue;
use crate::entry::Unlocked;
use crate::locks::Reading;
use crate::own_queues::OwnQueues;
use crate::runner::{Runner, Search, Searched};
use crate::state::State;
use crate::task_name::TaskName;
use async_task::NoMemory;
use call_steps::{Reply, Saw, Waker};
use std::alloc::Global;
use std::sync::{Arc, Wait};

impl Steps {
    /// Makes a run with an own queue, and room for it in the list.
    pub fn make_runner<W, R: Wait>(
        &mut self,
        state: &State<W>,
        seed: u64,
        alloc: Global,
        rt: &R,
        unlocked: &mut Unlocked,
    ) -> Result<Runner, NoMemory>
        requires { self.old ≡ step.List (list_step.LockWrite section.MakeRun) ∷ [] }
        ensures steps { self.new ≡ run_made (is_ok result) }
        ensures words { IfOk result (λ runner. runner.words ≡ seeded seed) }
        ensures unlisted { IfOk result (λ runner. IsUnlisted runner) }
    {
        self.follow(Saw::Nothing);
        match Runner::new(rt, alloc, state, seed, unlocked) {
            Ok(runner) => {
                self.follow(Saw::Something);
                self.follow(Saw::Nothing);
                Ok(runner)
            }
            Err(NoMemory) => {
                self.follow(Saw::NoMemory);
                self.follow(Saw::Nothing);
                Err(NoMemory)
            }
        }
    }

    /// Puts a run's own queue into the list, which may refuse it.
    pub fn register<W: Drop, R: Wait + Copy + Drop>(
        &mut self,
        runner: &Runner,
        state: &State<W>,
        name: &Waker<TaskName>,
        rt: R,
        unlocked: &mut Unlocked,
    ) -> bool
        requires { self.old ≡ step.List (list_step.LockWrite (section.Register (poll_with name.now))) ∷ [] }
        ensures { self.new ≡ run_listed name.now result }
    {
        let _ = name;
        self.follow(Saw::Nothing);
        if runner.list(rt, state, unlocked) {
            self.follow(Saw::Nothing);
            self.follow(Saw::Nothing);
            return true;
        }
        self.follow(Saw::NoMemory);
        self.follow(Saw::Nothing);
        false
    }

    /// Takes a run's own queue out of the list, in a call that answers this.
    pub fn unregister<W: Drop, R: Wait>(
        &mut self,
        runner: &mut Runner,
        state: &State<W>,
        reply: Reply,
        rt: &R,
        unlocked: &mut Unlocked,
    )
        requires { self.old ≡ step.List (list_step.LockWrite (section.Unregister tt reply)) ∷ [] }
        ensures steps { self.new ≡ step.Run (run_step.Reschedule tt reply) ∷ [] }
        ensures left { runner.new.room ≡ None }
    {
        let _ = reply;
        self.follow(Saw::Nothing);
        self.follow(Saw::Nothing);
        runner.leave_list(rt, state, unlocked);
        self.follow(Saw::Nothing);
    }

    /// Releases the list's lock, once a walk is over.
    #[inline(always)]
    pub fn unlock_read(
        &mut self,
        reading: Reading<'_, OwnQueues<Arc<Queue, Global>>>,
        came_to: &Searched,
        search: &Search<'_>,
    )
        requires { self.old ≡ walked search.now.at search.now.name.now came_to.now }
        ensures { self.new ≡ searched search.now.at search.now.name.now came_to.now }
    {
        let (_, _) = (came_to, search);
        drop(reading);
        self.follow(Saw::Nothing);
    }
}

impl Search<'_> {
    /// A walk goes to the next queue, with this many behind it.
    #[inline(always)]
    pub fn go_to(&self, left: u64, behind: &Option<u64>, steps: &mut Steps)
        requires { steps.old ≡ walks self.now.name.now behind.now }
        ensures { steps.new ≡ reads_length self.now.name.now (source.Own tt) (then.Walk left) }
    {
        // The same is seen either way: contracts go by the case.
        match behind {
            None => steps.follow(Saw::Queue((), left)),
            Some(_) => steps.follow(Saw::Queue((), left)),
        }
    }

    /// A walk has no queue to go to any more.
    #[inline(always)]
    pub fn end_walk(&self, behind: &Option<u64>, steps: &mut Steps)
        requires { steps.old ≡ walks self.now.name.now behind.now }
        ensures { steps.new ≡ walked self.now.at self.now.name.now outcome.Nothing }
    {
        // The same is seen either way: contracts go by the case.
        match behind {
            None => steps.follow(Saw::Nothing),
            Some(_) => steps.follow(Saw::Nothing),
        }
    }
}
