//! What calls do with the own future of a run, with no lock held.
ghost use Rattle.std.specs.Prelude.{◌≡◌, ◌∷◌, [], Some};
ghost use Rattle.call_steps.specs.Todo.{below, top};
ghost use Rattle.call_steps.specs.declared.step.CallStep.TheVariants as step;
ghost use Rattle.call_steps.specs.declared.step.user.UserStep.TheVariants as user_step;
ghost use Rattle.async_executor.specs.Runs.{poll_with, polled_own};
ghost use Rattle.async_executor.specs.Steps.{name_given};

use super::Steps;
use crate::entry::Unlocked;
use crate::foreign::Foreign;
use crate::names::ExWaker;
use crate::task_name::TaskName;
use async_task::{Future, Output, OutsideWaker, Poll, Runtime};
use call_steps::{Saw, Waker};

impl Steps {
    /// Polls the own future of a run with a waker of this name.
    pub fn poll_own<G: Future<ExWaker<T, W, R>>, T: Output, W: OutsideWaker, R: Runtime>(
        &mut self,
        future: &mut Foreign<G>,
        waker: &ExWaker<T, W, R>,
        name: &Waker<TaskName>,
        unlocked: &Unlocked,
    ) -> Poll<G::Output>
        requires named { name.now ≡ name_given waker.now }
        requires polls { self.old ≡ step.User (user_step.PollOwn (poll_with name.now)) ∷ [] }
        ensures { self.new ≡ polled_own name.now result }
    {
        let _ = name;
        let polled = future.poll(waker, unlocked);
        match &polled {
            Poll::Ready(_) => self.follow(Saw::Ready),
            Poll::Pending => self.follow(Saw::Pending),
        }
        polled
    }

    /// Drops the own future of a run, where it is there.
    pub fn drop_own<G: Drop>(&mut self, future: Option<Foreign<G>>, unlocked: &Unlocked)
        requires { top self.old ≡ Some (step.User (user_step.DropOwn tt)) }
        ensures { self.new ≡ below self.old }
    {
        if let Some(future) = future {
            future.let_go(unlocked);
        }
        self.follow(Saw::Nothing);
    }
}
