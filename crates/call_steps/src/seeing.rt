//! What running calls see most often.
ghost use Rattle.std.specs.Prelude.{◌≡◌, ◌∷◌, Some, None, false};
ghost use Rattle.task_moves.specs.declared.moves.owed.Move.TheVariants as move;
ghost use Rattle.call_steps.specs.declared.saw.Saw.TheVariants as saw;
ghost use Rattle.call_steps.specs.declared.names.Waker.TheVariants as waker;
ghost use Rattle.call_steps.specs.declared.step.CallStep.TheVariants as step;
ghost use Rattle.call_steps.specs.declared.step.handle.HandleStep.TheVariants as handle_step;
ghost use Rattle.call_steps.specs.declared.step.handle.WakerStep.TheVariants as waker_step;
ghost use Rattle.call_steps.specs.Fitting.{Fits};
ghost use Rattle.call_steps.specs.Seeing.{due, forgotten, futured, infos, moved, seen, woke};
ghost use Rattle.call_steps.specs.Todo.{below, following, top};

use crate::call::Call;
use crate::names::Waker;
use crate::saw::Saw;
use task_moves::ScheduleInfo;
use task_moves::moves::{AwaiterDebt, FutureDebt, Move, Owed};

impl<F: Drop, T: Drop, B: Drop> Call<F, T, B> {
    /// It was there, or was made; or not.
    #[inline(always)]
    pub fn see(&mut self, there: bool)
        requires something { Fits (top self.old) saw.Something }
        requires nothing { Fits (top self.old) saw.Nothing }
        ensures { self.new ≡ following (seen there) self.old }
    {
        if there {
            self.follow(Saw::Something);
        } else {
            self.follow(Saw::Nothing);
        }
    }

    /// A task has moved, and all that it owed was paid in that, but for its Runnable, where that is due.
    #[inline(always)]
    pub fn see_moved(&mut self, is_due: bool)
        requires { Fits (top self.old) (moved is_due) }
        ensures { self.new ≡ following (moved is_due) self.old }
    {
        let owed = owing(scheduled(is_due), None, None, None);
        self.follow(Saw::Moved(false, owed));
    }

    /// A waker was called that came out of the table, of this future's task, and all that this owed was paid in that, but for its
    /// Runnable, where that is due; so many wakers are left.
    pub fn see_woken(&mut self, woken: F, is_due: bool, left: u64)
        requires { Fits (top self.old) (woke woken is_due left) }
        ensures { self.new ≡ following (woke woken is_due left) self.old }
    {
        let owed = owing(scheduled(is_due), None, None, None);
        self.follow(Saw::Wakes(woken, false, owed, left));
    }

    /// A task has moved: this is owed to its future, and this move follows, where one does. All else was paid in that.
    #[inline(always)]
    pub fn see_future(&mut self, debt: FutureDebt, next: Option<Move>)
        requires { Fits (top self.old) (futured debt next) }
        ensures { self.new ≡ following (futured debt next) self.old }
    {
        self.follow(Saw::Moved(true, owing(None, Some(debt), None, next)));
    }

    /// A poll has ended of a task that nobody can reach any more: its future is to be dropped, and then all that its cell still has.
    pub fn see_forgotten(&mut self)
        requires { Fits (top self.old) forgotten }
        ensures { self.new ≡ following forgotten self.old }
    {
        let owed = Owed {
            empty_cell: true,
            ..owing(None, Some(FutureDebt::DropFuture), None, None)
        };
        self.follow(Saw::Moved(true, owed));
    }

    /// A Runnable of the first future was closed. The second awaited that one, and was woken: its Runnable is due.
    pub fn see_awaiter_woken(&mut self, closed: &F, awaiter: F)
        requires { top self.old ≡ Some (step.Move move.DropRunnable closed.now) }
        ensures { self.new ≡ due (Some awaiter) (below self.old) }
    {
        self.see_awaiter_owed(closed);
        self.see_awaiter_taken(closed, awaiter);
        self.see_moved(true);
    }

    /// A Runnable was closed, and who awaits its task is to be notified.
    fn see_awaiter_owed(&mut self, closed: &F)
        requires { top self.old ≡ Some (step.Move move.DropRunnable closed.now) }
        ensures { self.new ≡ step.Handle (handle_step.Notify closed.now false) ∷ below self.old }
    {
        let _ = closed;
        let told = Some(AwaiterDebt::NotifyAwaiter);
        self.follow(Saw::Moved(false, owing(None, None, told, None)));
    }

    /// The awaiter was taken out: a waker of the second task, which is to be called.
    fn see_awaiter_taken(&mut self, closed: &F, awaiter: F)
        requires { top self.old ≡ Some (step.Handle (handle_step.Notify closed.now false)) }
        ensures { self.new ≡ step.Waker (waker_step.CallAwaiter closed.now (waker.Task awaiter)) ∷ below self.old }
    {
        let _ = closed;
        self.follow(Saw::Awaiter(false, None));
        self.follow(Saw::Awaiter(false, Some(Waker::Task(awaiter))));
    }
}

/// How a task is to be scheduled whose Runnable is due: it wasn't woken while it was polled.
#[inline(always)]
fn scheduled(is_due: bool) -> Option<ScheduleInfo>
    ensures { result ≡ infos is_due }
{
    if is_due {
        return Some(ScheduleInfo {
            woken_while_running: false,
        });
    }
    None
}

/// What a task owes that has moved.
#[inline(always)]
fn owing(
    schedule: Option<ScheduleInfo>,
    future: Option<FutureDebt>,
    awaiter: Option<AwaiterDebt>,
    next: Option<Move>,
) -> Owed
    ensures { result ≡ record {
      schedule = schedule;
      future = future;
      drop_output = false;
      awaiter = awaiter;
      next = next;
      answer = None;
      empty_cell = false;
    } }
{
    Owed {
        schedule,
        future,
        drop_output: false,
        awaiter,
        next,
        answer: None,
        empty_cell: false,
    }
}
