//! What calls do with tasks, by their Runnables and their wakers, and with wakers from outside.
ghost use Rattle.std.specs.Prelude.{◌≡◌, IfSome, Some, is_some};
ghost use Rattle.task_moves.specs.declared.moves.owed.Move.TheVariants as move;
ghost use Rattle.call_steps.specs.Seeing.{due, woke};
ghost use Rattle.call_steps.specs.Todo.{below, following, top};
ghost use Rattle.call_steps.specs.declared.step.CallStep.TheVariants as step;
ghost use Rattle.call_steps.specs.declared.step.tick.SleeperStep.TheVariants as sleeper_step;
ghost use Rattle.async_executor.specs.Closing.{CallsWaker};
ghost use Rattle.async_executor.specs.Calling.{called_kept, CallsKept};
ghost use Rattle.async_executor.specs.Steps.{name_given, of_handed, sleeper_as};

use super::Steps;
use crate::due::{Handed, pay};
use crate::entry::Unlocked;
use crate::leaving::ToCall;
use crate::names::{ExRealm, ExStoredRunnable, ExWaker};
use crate::sleeping::SleeperWaker;
use crate::task_name::TaskName;
use async_task::{GoesBack, Output, OutsideWaker, Returning, Runtime, StoredWaker, Wake};
use call_steps::{Saw, TickOrRun, Waker};

impl Steps {
    /// Closes a Runnable, as the executor's queue is closed. The answer is a task that has to be queued then, if there is one.
    pub fn close_runnable<T: Output, W: OutsideWaker, R: Runtime>(
        &mut self,
        runnable: ExStoredRunnable,
        rt: R,
        realm: &'static ExRealm<T, W, R>,
        unlocked: &Unlocked,
    ) -> Option<Handed<T, W, R>>
        requires { top self.old ≡ Some (step.Move move.DropRunnable runnable.identity) }
        ensures { self.new ≡ due (of_handed result) (below self.old) }
    {
        let _ = unlocked;
        let closed = TaskName::of_runnable(&runnable);
        match runnable.close(rt, realm) {
            Ok(Some(due)) => {
                let handed = Handed::of(due);
                self.see_awaiter_woken(&closed, handed.name());
                Some(handed)
            }
            Ok(None) => {
                self.see_moved(false);
                None
            }
            Err(runnable) => {
                runnable.go_back();
                self.see_moved(false);
                None
            }
        }
    }

    /// Drops the waker of a task. The answer is that task, where it has to be queued then.
    pub fn release<T: Output, W: OutsideWaker, R: Runtime>(
        &mut self,
        waker: Returning<StoredWaker>,
        rt: R,
        realm: &'static ExRealm<T, W, R>,
        unlocked: &Unlocked,
    ) -> Option<Handed<T, W, R>>
        requires { top self.old ≡ Some (step.Move move.Release waker.identity) }
        ensures { self.new ≡ due (of_handed result) (below self.old) }
    {
        let _ = unlocked;
        match waker.release(rt, realm) {
            Some(due) => {
                self.see_moved(true);
                Some(Handed::of(due))
            }
            None => {
                self.see_moved(false);
                None
            }
        }
    }

    /// Calls the waker of a sleeper. The answer is a task that has to be queued then, if there is one.
    pub fn call_sleeper<T: Output, W: OutsideWaker, R: Runtime>(
        &mut self,
        waker: SleeperWaker<W>,
        who: &TickOrRun<()>,
        rt: R,
        realm: &'static ExRealm<T, W, R>,
        unlocked: &Unlocked,
    ) -> Option<Handed<T, W, R>>
        requires { top self.old ≡ Some (step.Sleeper (sleeper_step.CallSleeper (sleeper_as who.now waker))) }
        ensures { self.new ≡ due (of_handed result) (below self.old) }
    {
        let (_, _) = (unlocked, who);
        match waker {
            SleeperWaker::Task(waker) => match waker.wake(rt, realm) {
                Some(due) => {
                    self.see_moved(true);
                    Some(Handed::of(due))
                }
                None => {
                    self.see_moved(false);
                    None
                }
            },
            SleeperWaker::Outside(waker) => {
                waker.wake();
                self.follow(Saw::Outside);
                self.follow(Saw::Nothing);
                None
            }
        }
    }

    /// Calls a waker of this name that the caller keeps, with all that this leads to.
    pub fn call_kept<T: Output, W: OutsideWaker, R: Runtime>(
        &mut self,
        waker: &ExWaker<T, W, R>,
        name: &Waker<TaskName>,
        unlocked: &Unlocked,
    )
        requires named { name.now ≡ name_given waker.now }
        requires calls { CallsKept name.now self.old }
        ensures { self.new ≡ called_kept name.now self.old }
    {
        let _ = unlocked;
        waker.wake_by_ref();
        match name {
            Waker::Task(_) => self.see_moved(false),
            Waker::Outside => {
                self.follow(Saw::Outside);
                self.follow(Saw::Nothing);
            }
        }
    }

    /// Calls a waker that came out of the table, where this many are left, as a leak and an executor's drop do. The answer is a
    /// task that has to be queued then, if there is one.
    pub fn call_entry<T: Output, W: OutsideWaker, R: Runtime>(
        &mut self,
        waker: ToCall,
        left: u64,
        rt: R,
        realm: &'static ExRealm<T, W, R>,
        unlocked: &Unlocked,
    ) -> Option<Handed<T, W, R>>
        requires { CallsWaker (top self.old) }
        ensures steps { self.new ≡ following (woke waker.identity (is_some result) left) self.old }
        ensures task { IfSome result (λ handed. handed.runnable.stored.identity ≡ waker.identity) }
    {
        let name = waker.name();
        match waker.call(rt, realm, unlocked) {
            Some(handed) => {
                self.see_woken(name, true, left);
                Some(handed)
            }
            None => {
                self.see_woken(name, false, left);
                None
            }
        }
    }

    /// Drops the waker of an entry that left. The waker is of this task, which is known only by reading. What then has to be
    /// queued, which is nothing, is handed over as a part of its own.
    #[inline(always)]
    pub fn release_entry<T: Output, W: OutsideWaker, R: Runtime>(
        &mut self,
        waker: Returning<StoredWaker>,
        name: &TaskName,
        rt: R,
        realm: &'static ExRealm<T, W, R>,
        unlocked: &mut Unlocked,
    )
        requires { top self.old ≡ Some (step.Move move.Release name.now) }
        ensures { self.new ≡ below self.old }
    {
        let _ = name;
        self.see_moved(false);
        pay(rt, waker.release(rt, realm), unlocked);
    }
}
