//! What bodies do where a task isn't where it is known to be. No contract says that they never come here. So each records that the
//! next thing was done, and does nothing. Scripts and tests show that none is reached.
ghost use Rattle.std.specs.Prelude.{◌≡◌, ◌∷◌, Some};
ghost use Rattle.task_moves.specs.declared.moves.owed.Move.TheVariants as move;
ghost use Rattle.call_steps.specs.Todo.{below, top};
ghost use Rattle.call_steps.specs.declared.step.CallStep.TheVariants as step;
ghost use Rattle.call_steps.specs.declared.step.table.QueueStep.TheVariants as queue_step;
ghost use Rattle.call_steps.specs.declared.step.user.UserStep.TheVariants as user_step;

use super::Steps;
use crate::task_name::TaskName;
use call_steps::Saw;

impl Steps {
    /// A Runnable that has to be appended is of another realm.
    pub fn append_elsewhere(&mut self, name: &TaskName)
        requires { top self.old ≡ Some (step.Queue (queue_step.Append name.now)) }
        ensures { self.new ≡ below self.old }
    {
        let _ = name;
        self.follow(Saw::Nothing);
        self.see_moved(false);
    }

    /// A Runnable that has to be run is of another realm.
    pub fn take_up_elsewhere(&mut self, name: &TaskName)
        requires { top self.old ≡ Some (step.Move move.TakeUp name.now) }
        ensures { self.new ≡ below self.old }
    {
        let _ = name;
        self.see_moved(false);
    }

    /// A future that has to be polled isn't in its entry.
    pub fn poll_nothing(&mut self, name: &TaskName)
        requires { top self.old ≡ Some (step.User (user_step.Poll name.now)) }
        ensures { self.new ≡ step.Move move.EndPending name.now ∷ below self.old }
    {
        let _ = name;
        self.follow(Saw::Pending);
        self.follow(Saw::Something);
    }
}
