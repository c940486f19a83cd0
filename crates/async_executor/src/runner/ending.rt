//! How the own queue of a run ends, with what is left in it, as its call has to do next.
ghost use Rattle.std.specs.Prelude.{◌≡◌, ◌∷◌, [], true, false, None, IsTrue};
ghost use Rattle.call_steps.specs.Begins.{drop_run};
ghost use Rattle.call_steps.specs.Todo.{following};
ghost use Rattle.call_steps.specs.declared.reply.Reply.TheVariants as reply;
ghost use Rattle.call_steps.specs.declared.step.CallStep.TheVariants as step;
ghost use Rattle.call_steps.specs.declared.step.run.RunStep.TheVariants as run_step;
ghost use Rattle.async_executor.specs.Runs.{has_ended, leaves_with, stage_by};
ghost use Rattle.async_executor.specs.Steps.{of_stored, took};

use super::Runner;
use crate::deeds::Steps;
use crate::deeds::queues::At;
use crate::entry::Unlocked;
use crate::foreign::Foreign;
use crate::names::{ExRealm, ExStoredRunnable};
use crate::state::State;
use async_task::{Output, OutsideWaker, Runtime};
use call_steps::{Reply, Stage};
use std::mem;
use std::sync::Wait;

impl Runner {
    /// At which stage the run is.
    pub fn stage(&self) -> Stage
        ensures { result ≡ stage_by (has_ended self.now.room self.now.is_drained) self.now.is_listed }
    {
        if self.has_ended() {
            return Stage::Ended;
        }
        self.stage_listed()
    }

    /// At which stage it is, where it hasn't ended.
    pub fn stage_listed(&self) -> Stage
        ensures { result ≡ stage_by false self.now.is_listed }
    {
        if self.is_listed {
            return Stage::Listed;
        }
        Stage::New
    }

    /// Whether it has left the list, and its own queue was found empty then.
    fn has_ended(&self) -> bool
        ensures ended { result ≡ has_ended self.now.room self.now.is_drained }
        ensures left { IsTrue result → self.now.room ≡ None }
        ensures drained { IsTrue result → self.now.is_drained ≡ true }
    {
        match &self.room {
            None => self.is_drained,
            Some(_) => false,
        }
    }

    /// The run is dropped, with its own future, where that is there. Its own queue leaves the executor's list, where it is there,
    /// and its room there is given back. What is left in the queue is scheduled, in order.
    pub fn end<G: Drop, T: Output, W: OutsideWaker, R: Runtime>(
        &mut self,
        future: Option<Foreign<G>>,
        rt: R,
        state: &State<W>,
        realm: &'static ExRealm<T, W, R>,
        steps: &mut Steps,
        unlocked: &mut Unlocked,
    )
        requires { steps.old ≡ drop_run (stage_by (has_ended self.old.room self.old.is_drained) self.old.is_listed) tt }
        ensures steps { steps.new ≡ leaves_with reply.Done }
        ensures drained { self.new.is_drained ≡ true }
        ensures left { self.new.room ≡ None }
    {
        if self.has_ended() {
            if let Some(future) = future {
                future.let_go(unlocked);
            }
            return;
        }
        steps.drop_own(future, unlocked);
        if self.is_listed {
            steps.unregister(self, state, Reply::Done, &rt, unlocked);
        } else {
            self.leave_list(&rt, state, unlocked);
        }
        self.reschedule(rt, state, realm, Reply::Done, steps, unlocked);
    }

    /// Leaves the executor's list: its room there is given back, and its own queue is removed, where it is there.
    pub fn leave_list<W: Drop, R: Wait>(
        &mut self,
        rt: &R,
        state: &State<W>,
        unlocked: &mut Unlocked,
    )
        ensures { self.new.room ≡ None }
    {
        if let Some(room) = mem::replace(&mut self.room, None) {
            let listed = state.own_queues.write(rt, unlocked).get().leave(room);
            drop(listed);
        }
    }

    /// Schedules what is left in the own queue, in order, in a call that answers this.
    pub fn reschedule<T: Output, W: OutsideWaker, R: Runtime>(
        &mut self,
        rt: R,
        state: &State<W>,
        realm: &'static ExRealm<T, W, R>,
        reply: Reply,
        steps: &mut Steps,
        unlocked: &mut Unlocked,
    )
        requires { steps.old ≡ step.Run (run_step.Reschedule tt reply) ∷ [] }
        ensures steps { steps.new ≡ leaves_with reply }
        ensures drained { self.new.is_drained ≡ true }
        ensures room { self.new.room ≡ self.old.room }
    {
        for _ in rt.forever() {
            let Some(stored) = self.take_last(&rt, reply, steps) else {
                return;
            };
            state.push_stored(rt, realm, stored, steps, unlocked);
        }
        unreachable!()
    }

    /// Takes the first of the own queue, which stands in no list any more.
    fn take_last<R: Wait>(
        &mut self,
        rt: &R,
        reply: Reply,
        steps: &mut Steps,
    ) -> Option<ExStoredRunnable>
        requires { steps.old ≡ step.Run (run_step.Reschedule tt reply) ∷ [] }
        ensures steps { steps.new ≡ following (took (of_stored result)) steps.old }
        ensures drained { result ≡ None → self.new.is_drained ≡ true }
        ensures room { self.new.room ≡ self.old.room }
    {
        let _ = reply;
        let Some(runnable) = steps.take(&At::own(&self.own), None, rt) else {
            self.is_drained = true;
            return None;
        };
        Some(runnable)
    }
}
