//! What calls do with the executor's table, except the sections of a task's poll.
ghost use Rattle.std.specs.Prelude.{◌≡◌, ◌∷◌, [], ◌++◌, ◌+◌, IfErr, IfNone, IfOk, IfSome, None, OnSome, Some, length};
ghost use Rattle.std.specs.Prelude.{drop as list_drop};
ghost use Rattle.call_steps.specs.Closing.{closing, leaking};
ghost use Rattle.call_steps.specs.Todo.{below, following, top};
ghost use Rattle.call_steps.specs.declared.reply.Reply.TheVariants as reply;
ghost use Rattle.call_steps.specs.declared.step.CallStep.TheVariants as step;
ghost use Rattle.call_steps.specs.declared.step.table.ClosingStep.TheVariants as closing_step;
ghost use Rattle.call_steps.specs.declared.step.table.TableStep.TheVariants as table_step;
ghost use Rattle.executor_parts.specs.Places.{first_waker, turned};
ghost use Rattle.async_executor.specs.Closing.{listed};
ghost use Rattle.async_executor.specs.Errors.{refused};
ghost use Rattle.async_executor.specs.Steps.{accepted_as};

use super::{Steps, sections};
use crate::body::Body;
use crate::closing::HasClosed;
use crate::due::share;
use crate::entry::Unlocked;
use crate::errors::SpawnError;
use crate::leaving::{Leaving, NoRoom, ToCall};
use crate::locks::Guarded;
use crate::marked::Marked;
use crate::names::{ExTask, TableWaker};
use crate::queue::ExQueue;
use crate::spawning::accept;
use crate::task_name::TaskName;
use async_task::{Output, OutsideWaker, Runtime};
use call_steps::Saw;
use executor_parts::{Mark, Places};

impl<F: Drop, T: Output, W: OutsideWaker, R: Runtime> Body<F, T, W, R> {
    /// Accepts a future with this mark, or refuses it, in one section of the table's lock, after what was let go is closed.
    #[inline(always)]
    pub fn accept(
        &self,
        future: F,
        mark: Mark,
        closed: HasClosed,
        steps: &mut Steps,
        unlocked: &mut Unlocked,
    ) -> Result<(Marked, ExTask<T, W, R>), SpawnError<F>>
        requires { top steps.old ≡ Some (step.Table (table_step.Enter mark)) }
        ensures steps { steps.new ≡ following (accepted_as result) steps.old }
        ensures one_task { IfOk result (λ both. both.0.stored.identity ≡ both.1.identity) }
        ensures marked { IfOk result (λ both. both.1.metadata ≡ mark) }
        ensures here { IfOk result (λ both. both.1.identity.realm ≡ self.now.realm.now.number) }
        ensures future { IfErr result (λ error. refused error ≡ future) }
    {
        let schedule = ExQueue::new(self.rt, share(self.rt, &self.state));
        let accepted = accept(
            self.table.lock(&self.rt, unlocked).get(),
            self.rt,
            self.realm,
            schedule,
            self.is_static,
            mark,
            future,
            closed,
        );
        match &accepted {
            Ok((runnable, _)) => steps.follow(Saw::Entered(runnable.name())),
            Err(SpawnError::Full(_)) => steps.follow(Saw::Full),
            Err(SpawnError::NoMemory(_)) => steps.follow(Saw::NoMemory),
        }
        accepted
    }
}

impl Steps {
    /// An executor's drop takes all out of the table. It has this room for the wakers.
    pub fn take_out<F>(
        &mut self,
        table: Guarded<Places<F, TableWaker>>,
        leaving: &Leaving,
    ) -> Places<F, TableWaker>
        requires { top self.old ≡ Some (step.Closing closing_step.TakeOut) }
        ensures { self.new ≡ closing (length result.entries) (length leaving.now.wakers.items) ++ below self.old }
    {
        let table = table.into_inner();
        self.follow(Saw::Closes(table.len() as u64, leaving.len() as u64));
        table
    }

    /// A leak takes all out of the table, to call their wakers.
    pub fn leak_out<F>(&mut self, table: Guarded<Places<F, TableWaker>>) -> Places<F, TableWaker>
        requires { top self.old ≡ Some (step.Closing closing_step.LeakOut) }
        ensures { self.new ≡ leaking (length result.entries) ++ below self.old }
    {
        let table = table.into_inner();
        self.follow(Saw::Closes(0, table.len() as u64));
        table
    }

    /// An executor's drop drops the future of the first entry, and appends that entry's waker to its list. The waker comes back
    /// where there is no room for it. None where no entry is left.
    pub fn drop_next<F: Drop>(
        &mut self,
        table: &mut Places<F, TableWaker>,
        leaving: &mut Leaving,
        unlocked: &Unlocked,
    ) -> Option<Option<NoRoom>>
        requires { self.old ≡ closing (length table.old.entries) (length leaving.old.wakers.items) ++ step.End reply.Done ∷ [] }
        ensures steps { self.new ≡ closing (length table.new.entries) (length leaving.new.wakers.items) ++ step.End reply.Done ∷ [] }
        ensures rest { table.new.entries ≡ list_drop 1 table.old.entries }
        ensures none { IfNone result ((table.new.entries ≡ []) × (leaving.new ≡ leaving.old)) }
        ensures some { OnSome result (length table.old.entries ≡ length table.new.entries + 1) }
        ensures kept { result ≡ Some None → leaving.new.wakers.items ≡ leaving.old.wakers.items ++ listed (first_waker table.old.entries) }
        ensures back { IfSome result (λ refused. IfSome refused (λ back. (first_waker table.old.entries ≡ Some back.waker)
            × (leaving.new.wakers.items ≡ leaving.old.wakers.items))) }
    {
        let (future, waker) = sections::leave_first(table)?;
        let (name, refused) = leaving.keep(waker);
        self.follow(Saw::Drops(name, table.len() as u64, leaving.len() as u64));
        if let Some(future) = future {
            future.let_go(unlocked);
        }
        self.follow(Saw::Nothing);
        Some(refused)
    }

    /// A leak takes the next waker out, to be called, where this many are left. An entry without one counts as woken.
    pub fn turn<F>(&mut self, table: &mut Places<F, TableWaker>, left: u64) -> Option<ToCall>
        requires { top self.old ≡ Some (step.Closing closing_step.LeakNext) }
        ensures waker { result ≡ first_waker table.old.entries }
        ensures turned { table.new.entries ≡ turned table.old.entries }
        ensures rest { table.new ≡ record table.old { entries = table.new.entries } }
        ensures some { IfSome result (λ _. self.new ≡ self.old) }
        ensures none { IfNone result (self.new ≡ leaking left ++ below self.old) }
    {
        let waker = sections::turn(table);
        if waker.is_none() {
            self.see_woken(TaskName::of_none(), false, left);
        }
        waker
    }
}
