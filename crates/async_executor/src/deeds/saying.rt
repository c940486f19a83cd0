//! How deeds write down what has a word of its own in `call_steps`. Only deeds can.
ghost use Rattle.std.specs.Prelude.{◌≡◌, Some};
ghost use Rattle.task_moves.specs.declared.moves.owed.Move.TheVariants as move;
ghost use Rattle.call_steps.specs.declared.saw.Saw.TheVariants as saw;
ghost use Rattle.call_steps.specs.declared.step.CallStep.TheVariants as step;
ghost use Rattle.call_steps.specs.Fitting.{Fits};
ghost use Rattle.call_steps.specs.Seeing.{due, forgotten, futured, moved, seen, woke};
ghost use Rattle.call_steps.specs.Todo.{below, following, top};

use super::Steps;
use crate::task_name::TaskName;
use task_moves::moves::{FutureDebt, Move};

impl Steps {
    #[inline(always)]
    pub(super) fn see(&mut self, there: bool)
        requires something { Fits (top self.old) saw.Something }
        requires nothing { Fits (top self.old) saw.Nothing }
        ensures { self.new ≡ following (seen there) self.old }
    {
        self.call.see(there);
    }

    #[inline(always)]
    pub(super) fn see_moved(&mut self, is_due: bool)
        requires { Fits (top self.old) (moved is_due) }
        ensures { self.new ≡ following (moved is_due) self.old }
    {
        self.call.see_moved(is_due);
    }

    #[inline(always)]
    pub(super) fn see_woken(&mut self, woken: TaskName, is_due: bool, left: u64)
        requires { Fits (top self.old) (woke woken is_due left) }
        ensures { self.new ≡ following (woke woken is_due left) self.old }
    {
        self.call.see_woken(woken, is_due, left);
    }

    #[inline(always)]
    pub(super) fn see_future(&mut self, debt: FutureDebt, next: Option<Move>)
        requires { Fits (top self.old) (futured debt next) }
        ensures { self.new ≡ following (futured debt next) self.old }
    {
        self.call.see_future(debt, next);
    }

    #[inline(always)]
    pub(super) fn see_forgotten(&mut self)
        requires { Fits (top self.old) forgotten }
        ensures { self.new ≡ following forgotten self.old }
    {
        self.call.see_forgotten();
    }

    #[inline(always)]
    pub(super) fn see_awaiter_woken(&mut self, closed: &TaskName, awaiter: TaskName)
        requires { top self.old ≡ Some (step.Move move.DropRunnable closed.now) }
        ensures { self.new ≡ due (Some awaiter) (below self.old) }
    {
        self.call.see_awaiter_woken(closed, awaiter);
    }
}
