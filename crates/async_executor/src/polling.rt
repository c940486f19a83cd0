//! How a task of the executor is run: its future is polled, or dropped where the task is closed. Each look at the table is
//! one section of its lock, and no lock is held while code of a user runs.
ghost use Rattle.std.specs.Prelude.{◌≡◌, ◌∷◌, Some, IfSome};
ghost use Rattle.task_moves.specs.declared.moves.owed.Move.TheVariants as move;
ghost use Rattle.async_task.specs.Awaiters.{identity_of};
ghost use Rattle.call_steps.specs.Todo.{below, top};
ghost use Rattle.call_steps.specs.declared.step.CallStep.TheVariants as step;
ghost use Rattle.call_steps.specs.declared.step.table.TableStep.TheVariants as table_step;
ghost use Rattle.call_steps.specs.declared.step.user.UserStep.TheVariants as user_step;
ghost use Rattle.async_executor.specs.Polling.{end_by, end_of, end_step};

use crate::body::Body;
use crate::deeds::sections::Taken;
use crate::deeds::task_run::{Dropping, Polling};
use crate::deeds::{Steps, sections};
use crate::entry::Unlocked;
use crate::names::{ExRunnable, ExStoredRunnable, ExWaker};
use crate::task_name::TaskName;
use async_task::{Back, Future, GoesBack, Output, OutsideWaker, Poll, Runtime, Started};
use executor_parts::EntryPlace;

impl<F, T: Output, W: OutsideWaker, R: Runtime> Body<F, T, W, R>
where
    F: Future<ExWaker<T, W, R>, Output = T> + Drop,
{
    /// Runs a task that was found.
    #[inline(always)]
    pub(crate) fn poll_or_drop(
        &self,
        stored: ExStoredRunnable,
        steps: &mut Steps,
        unlocked: &mut Unlocked,
    )
        requires { top steps.old ≡ Some (step.Move move.TakeUp stored.identity) }
        ensures { steps.new ≡ below steps.old }
    {
        let name = TaskName::of_runnable(&stored);
        match stored.redeem(self.rt, self.realm) {
            Ok(scheduled) => match scheduled.into_runnable().start_once() {
                Ok((place, running)) => {
                    let polling = Polling::begin(running, &name, steps);
                    self.poll(place, polling, &name, steps, unlocked);
                }
                Err(runnable) => self.start_apart(runnable, &name, steps, unlocked),
            },
            Err(elsewhere) => {
                elsewhere.go_back();
                steps.take_up_elsewhere(&name);
            }
        }
    }

    /// Runs a task that one try didn't take up.
    #[cold]
    #[inline(never)]
    fn start_apart(
        &self,
        runnable: ExRunnable<T, W, R>,
        name: &TaskName,
        steps: &mut Steps,
        unlocked: &mut Unlocked,
    )
        requires named { runnable.identity ≡ name.now }
        requires taken_up { top steps.old ≡ Some (step.Move move.TakeUp name.now) }
        ensures { steps.new ≡ below steps.old }
    {
        match runnable.start() {
            Started::Poll(place, running) => {
                let polling = Polling::begin(running, name, steps);
                self.poll(place, polling, name, steps, unlocked);
            }
            Started::Drop(place, closing) => {
                let dropping = Dropping::begin(closing, name, steps);
                self.drop_future(place, dropping, name, steps, unlocked);
            }
        }
    }

    /// Polls the future at this place, and ends the run.
    #[inline(always)]
    fn poll(
        &self,
        place: EntryPlace,
        polling: Polling<T, W, R>,
        name: &TaskName,
        steps: &mut Steps,
        unlocked: &mut Unlocked,
    )
        requires named { identity_of polling.running.waker ≡ Some name.now }
        requires polls { top steps.old ≡ Some (step.Table (table_step.TakeToPoll name.now)) }
        ensures { steps.new ≡ below steps.old }
    {
        let taken = sections::take_to_poll(
            self.table.lock(&self.rt, unlocked).get(),
            place,
            name,
            steps,
        );
        let polled = self.poll_taken(place, taken, &polling, name, steps, unlocked);
        let back = back_of(polled, place);
        polling.settle(self, back, name, steps, unlocked);
    }

    /// Polls the future that was taken out of this place, and puts it back, or drops it where it is ready. One that isn't in its entry
    /// counts as pending.
    #[inline(always)]
    fn poll_taken(
        &self,
        place: EntryPlace,
        taken: Option<Taken<F>>,
        polling: &Polling<T, W, R>,
        name: &TaskName,
        steps: &mut Steps,
        unlocked: &mut Unlocked,
    ) -> Poll<T>
        requires place { IfSome taken (λ taken. taken.place ≡ place) }
        requires polls { top steps.old ≡ Some (step.User (user_step.Poll name.now)) }
        ensures { steps.new ≡ step.Move (end_of result) name.now ∷ below steps.old }
    {
        let Some(taken) = taken else {
            steps.poll_nothing(name);
            return Poll::Pending;
        };
        let mut taken = taken;
        match taken.poll(polling.waker(), name, steps, unlocked) {
            Poll::Ready(output) => {
                taken.let_go(name, steps, unlocked);
                self.leave(place, name, steps, unlocked);
                Poll::Ready(output)
            }
            Poll::Pending => {
                let displaced = sections::put_back(
                    self.table.lock(&self.rt, unlocked).get(),
                    taken,
                    name,
                    steps,
                );
                if let Some(future) = displaced {
                    future.let_go(unlocked);
                }
                Poll::Pending
            }
        }
    }

    /// Drops the future at this place, as its task is closed, and ends the run.
    #[cold]
    #[inline(never)]
    pub fn drop_future(
        &self,
        place: EntryPlace,
        dropping: Dropping<T, W, R>,
        name: &TaskName,
        steps: &mut Steps,
        unlocked: &mut Unlocked,
    )
        requires taken { top steps.old ≡ Some (step.Table (table_step.TakeToDrop name.now)) }
        requires ends { top (below steps.old) ≡ Some (end_step dropping name.now) }
        ensures { steps.new ≡ below (below steps.old) }
    {
        self.drop_and_leave(place, name, steps, unlocked);
        dropping.finish(name, steps, unlocked);
    }

    /// Drops the future at this place, and its entry leaves the table.
    fn drop_and_leave(
        &self,
        place: EntryPlace,
        name: &TaskName,
        steps: &mut Steps,
        unlocked: &mut Unlocked,
    )
        requires { top steps.old ≡ Some (step.Table (table_step.TakeToDrop name.now)) }
        ensures { steps.new ≡ below steps.old }
    {
        let taken = sections::take_to_drop(
            self.table.lock(&self.rt, unlocked).get(),
            place,
            name,
            steps,
        );
        sections::let_go(taken, name, steps, unlocked);
        self.leave(place, name, steps, unlocked);
    }

    /// The entry at this place leaves the table.
    #[inline(always)]
    fn leave(&self, place: EntryPlace, name: &TaskName, steps: &mut Steps, unlocked: &mut Unlocked)
        requires { top steps.old ≡ Some (step.Table (table_step.LeaveTable name.now)) }
        ensures { steps.new ≡ below steps.old }
    {
        let left = sections::leave(
            self.table.lock(&self.rt, unlocked).get(),
            place,
            name,
            steps,
        );
        let Some((future, waker)) = left else {
            return;
        };
        if let Some(future) = future {
            future.let_go(unlocked);
        }
        if let Some(waker) = waker {
            steps.release_entry(waker, name, self.rt, self.realm, unlocked);
        }
    }
}

/// What a poll gave, or the place where its future lies again.
#[inline(always)]
fn back_of<T>(polled: Poll<T>, place: EntryPlace) -> Back<EntryPlace, T>
    ensures { end_by result ≡ end_of polled }
{
    match polled {
        Poll::Ready(output) => Back::Ready(output),
        Poll::Pending => Back::Pending(place),
    }
}
