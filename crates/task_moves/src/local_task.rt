//! A task that one owner has by `&mut`, with the rules of the shared one.
mod answers;
mod looks;
mod paying;
mod places;

use crate::moves;
use crate::moves::{Answer, Move, State};
use crate::schedule_info::ScheduleInfo;
pub use answers::{Back, Cancel, Detach, Finish, FuturePlace, Polled, Settled, Start};
use paying::{Called, give_up, let_go, notify, notify_nobody, register, woken};
use places::{put, store, taken};
use std::marker::Model;

/// One future with its handle, its wakers, its output and who awaits it, for one owner. None of its
/// calls takes memory, and none runs code of its user: what has to be polled, dropped, woken or
/// queued is answered to the owner.
///
/// The rules are those of the crate `async-task`. Each change is one of `moves`.
#[derive(Drop)]
pub struct LocalTask<F, T, A, M = ()> {
    state: State,
    /// The move that `finish` makes.
    next: Option<Move>,
    future: FuturePlace<F>,
    output: Option<T>,
    awaiter: Option<A>,
    metadata: M,
}

impl<F, T, A, M> Model for LocalTask<F, T, A, M> {
    ghost use Rattle.task_moves.specs.LocalTask.{LocalValue, IsSound, task_of};

    ghost Value = { LocalValue F T A M };

    ghost view = { λ l. record { task = task_of l.state l.output l.awaiter; future = l.future; metadata = l.metadata } };

    ghost invariant = { λ l. IsSound F T A l.state l.next l.future l.output l.awaiter };
}

impl<F, T, A> LocalTask<F, T, A> {
    ghost use Rattle.std.specs.Prelude.{◌≡◌};
    ghost use Rattle.task_moves.specs.declared.local_task.answers.FuturePlace.TheVariants.{Home};
    ghost use Rattle.task_moves.specs.AbstractTask as abstract;

    /// A new task without metadata: it has its handle and no waker, and its owner queues it.
    pub fn new(future: F) -> Self
        ensures task { result.task ≡ abstract.spawned 0 }
        ensures future { result.future ≡ Home future }
    {
        LocalTask::marked(future, ())
    }
}

impl<F, T, A, M> LocalTask<F, T, A, M> {
    ghost use Rattle.std.specs.Prelude.{◌≡◌, ◌<◌, ◌^◌, ◌↔◌, true, false, not, IsTrue};
    ghost use Rattle.task_moves.specs.declared.local_task.answers.FuturePlace.TheVariants.{Home, Lent, Dropping, Gone};
    ghost use Rattle.task_moves.specs.declared.local_task.answers.Back.TheVariants.{Ready, Pending};
    ghost use Rattle.task_moves.specs.AbstractTask as abstract;
    ghost use Rattle.task_moves.specs.LocalTask as local;
    ghost use Rattle.task_moves.specs.LocalTask.{told, with_task, info_of, is_home};
    ghost use Rattle.task_moves.specs.LocalTask.{future_in, is_poll, started, references_of};

    /// A new task that keeps this metadata as long as it is there: it has its handle and no waker, and its owner queues it.
    pub fn marked(future: F, metadata: M) -> Self
        ensures { result ≡ record { task = abstract.spawned 0; future = Home future; metadata = metadata } }
    {
        LocalTask {
            state: moves::make(),
            next: None,
            future: FuturePlace::Home(future),
            output: None,
            awaiter: None,
            metadata,
        }
    }

    /// The metadata that the task was made with.
    pub fn metadata(&self) -> &M
        ensures { result.now ≡ self.now.metadata }
    {
        &self.metadata
    }

    /// Takes the future of a queued task out: to be polled, or to be dropped where the task is
    /// closed.
    pub fn start(&mut self) -> Start<F>
        requires queued { self.old.task.phase ≡ abstract.Phase.Queued }
        requires home { is_home self.old.future ≡ true }
        ensures task { self.new.task ≡ abstract.begin_run self.old.task }
        ensures place { self.new.future ≡ started self.old.task.closed }
        ensures metadata { self.new.metadata ≡ self.old.metadata }
        ensures future { self.old.future ≡ Home (future_in result) }
        ensures open { is_poll result ≡ not self.old.task.closed }
    {
        let begun = moves::take_up(self.state);
        self.state = begun.state;
        self.next = begun.owed.next;
        match begun.owed.next {
            None => Start::Poll(taken(&mut self.future, FuturePlace::Lent)),
            // It is settled once the future is dropped.
            Some(_) => Start::Drop(taken(&mut self.future, FuturePlace::Dropping)),
        }
    }

    /// Ends the poll that `start` asked for. Where the future has given its output, the owner drops
    /// it before this call.
    pub fn settle(&mut self, back: Back<F, T>) -> Settled<F, T, A>
        requires lent { self.old.future ≡ Lent }
        ensures task { self.new.task ≡ told (local.settle back self.old.task).task }
        ensures place { self.new.future ≡ (local.settle back self.old.task).future }
        ensures metadata { self.new.metadata ≡ self.old.metadata }
        ensures answer { result ≡ local.settle_answer back self.old.task }
    {
        match back {
            Back::Ready(output) => self.settle_ready(output),
            Back::Pending(future) => self.settle_pending(future),
        }
    }

    fn settle_ready(&mut self, output: T) -> Settled<F, T, A>
        requires lent { self.old.future ≡ Lent }
        ensures task { self.new.task ≡ told (abstract.end_ready output self.old.task).task }
        ensures place { self.new.future ≡ Gone }
        ensures metadata { self.new.metadata ≡ self.old.metadata }
        ensures answer { result ≡ local.settle_answer (Ready output) self.old.task }
    {
        let ended = moves::end_ready(self.state);
        let Called { state, awaiter } = give_up(ended, &mut self.awaiter);
        self.state = state;
        put(&mut self.future, FuturePlace::Gone);
        if ended.owed.drop_output {
            Settled::Finish {
                output: Some(output),
                awaiter,
            }
        } else {
            store(&mut self.output, output);
            Settled::Finish {
                output: None,
                awaiter,
            }
        }
    }

    fn settle_pending(&mut self, future: F) -> Settled<F, T, A>
        requires lent { self.old.future ≡ Lent }
        ensures task { self.new.task ≡ told (local.settle (Pending future) self.old.task).task }
        ensures place { self.new.future ≡ (local.settle (Pending future) self.old.task).future }
        ensures metadata { self.new.metadata ≡ self.old.metadata }
        ensures answer { result ≡ local.settle_answer (Pending future) self.old.task }
    {
        let ended = moves::end_pending(self.state);
        self.state = ended.state;
        self.next = ended.owed.next;
        match ended.owed.future {
            Some(_) => {
                put(&mut self.future, FuturePlace::Dropping);
                Settled::Drop(future)
            }
            None => {
                put(&mut self.future, FuturePlace::Home(future));
                match ended.owed.schedule {
                    Some(info) => Settled::Queue(info),
                    None => Settled::Rest,
                }
            }
        }
    }

    /// Lets a queued task's turn go, as the drop of a Runnable: the task is closed, and the owner
    /// drops the future and then calls `finish`.
    pub fn retract(&mut self) -> F
        requires queued { self.old.task.phase ≡ abstract.Phase.Queued }
        requires home { is_home self.old.future ≡ true }
        ensures task { self.new.task ≡ record self.old.task { closed = true } }
        ensures place { self.new.future ≡ Dropping }
        ensures metadata { self.new.metadata ≡ self.old.metadata }
        ensures future { self.old.future ≡ Home result }
    {
        let dropped = moves::drop_runnable(self.state);
        self.state = dropped.state;
        self.next = dropped.owed.next;
        taken(&mut self.future, FuturePlace::Dropping)
    }

    /// Ends what began with a future that the owner was to drop, which it has done.
    pub fn finish(&mut self) -> Finish<A>
        requires dropped { self.old.future ≡ Dropping }
        ensures task { self.new.task ≡ (local.finish self.old.task).task }
        ensures place { self.new.future ≡ Gone }
        ensures metadata { self.new.metadata ≡ self.old.metadata }
        ensures answer { result ≡ local.finish_answer self.old.task }
    {
        put(&mut self.future, FuturePlace::Gone);
        match self.next {
            Some(kind) => {
                let settled = moves::after(kind, self.state);
                let Called { state, awaiter } = give_up(settled, &mut self.awaiter);
                self.state = state;
                woken(awaiter)
            }
            // Nobody is left who could ask for the task.
            None => let_go(self.awaiter.take()),
        }
    }

    /// Wakes the task. Where the answer is there, the owner queues the task.
    pub fn wake(&mut self) -> Option<ScheduleInfo>
        ensures task { self.new ≡ with_task self.old (abstract.wake self.old.task) }
        ensures queue { result ≡ info_of self.old.task (abstract.wake self.old.task) }
    {
        let woken = moves::wake_by_reference(self.state);
        self.state = woken.state;
        woken.owed.schedule
    }

    /// One more waker. The answer is false, and nothing is changed, from 2^40 references on: the
    /// wakers, and one more while the task is queued, polled or closing.
    pub fn hold(&mut self) -> bool
        ensures few { IsTrue result ↔ (references_of self.old.task < 2 ^ 40) }
        ensures held { IsTrue result → self.new ≡ with_task self.old (abstract.copy self.old.task) }
        ensures refused { result ≡ false → self.new ≡ self.old }
    {
        let copied = moves::copy(self.state);
        match copied.owed.answer {
            Some(_) => false,
            None => {
                self.state = copied.state;
                true
            }
        }
    }

    /// One waker less. Where the answer is there, the owner queues the task.
    pub fn release(&mut self) -> Option<ScheduleInfo>
        requires held { 0 < self.old.task.wakers }
        ensures task { self.new ≡ with_task self.old (abstract.release self.old.task) }
        ensures queue { result ≡ info_of self.old.task (abstract.release self.old.task) }
    {
        let released = moves::release(self.state);
        self.state = released.state;
        released.owed.schedule
    }

    /// Closes the task, where it is open and unfinished.
    pub fn cancel(&mut self) -> Cancel<A>
        ensures task { self.new ≡ with_task self.old (abstract.cancel self.old.task).task }
        ensures queue { result.queue ≡ info_of self.old.task (abstract.cancel self.old.task).task }
        ensures awaiter { result.awaiter ≡ (abstract.cancel self.old.task).called }
    {
        let cancelled = moves::cancel(self.state);
        let Called { state, awaiter } = notify(cancelled, &mut self.awaiter);
        self.state = state;
        Cancel {
            queue: cancelled.owed.schedule,
            awaiter,
        }
    }

    /// Gives the handle up.
    pub fn detach(&mut self) -> Detach<T>
        ensures task { self.new ≡ with_task self.old (abstract.detach self.old.task).task }
        ensures queue { result.queue ≡ info_of self.old.task (abstract.detach self.old.task).task }
        ensures output { result.output ≡ (abstract.detach self.old.task).dropped }
    {
        let first = moves::detach(self.state);
        match first.owed.next {
            Some(_) => {
                let second = moves::detach(first.state);
                self.state = second.state;
                Detach {
                    queue: second.owed.schedule,
                    output: self.output.take(),
                }
            }
            None => {
                self.state = first.state;
                Detach {
                    queue: first.owed.schedule,
                    output: None,
                }
            }
        }
    }

    /// Polls the handle, with a copy of the waker that is to be woken when there is an answer.
    pub fn poll(&mut self, waker: A) -> Polled<T, A>
        requires handle { self.old.task.handle ≡ true }
        ensures task { self.new ≡ with_task self.old (abstract.poll waker self.old.task).task }
        ensures answer { result ≡ local.poll_answer waker self.old.task }
    {
        let look = moves::poll(self.state);
        match look.owed.answer {
            None => {
                self.state = register(look.state);
                Polled::Pending {
                    replaced: self.awaiter.replace(waker),
                }
            }
            // Nobody else awaits the task: the awaiter was woken when the future was dropped.
            Some(answer) => {
                self.state = notify_nobody(look);
                match answer {
                    Answer::Output => Polled::Output {
                        output: self.output.take().unwrap(),
                        spare: waker,
                    },
                    _ => Polled::Closed { spare: waker },
                }
            }
        }
    }

    /// Whether the future is dropped or is going to be.
    pub fn is_finished(&self) -> bool
        ensures { result ≡ abstract.is_finished self.now.task }
    {
        self.state.completed || self.state.closed
    }
}
