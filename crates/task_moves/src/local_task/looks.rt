//! What an owner who doesn't know how its task stands asks before a call.
use crate::local_task::LocalTask;
use crate::local_task::answers::FuturePlace;
use crate::moves::State;

impl<F, T, A, M> LocalTask<F, T, A, M> {
    ghost use Rattle.std.specs.Prelude.{◌≡◌, ◌<◌, ◌↔◌, IsTrue, true};
    ghost use Rattle.task_moves.specs.LocalTask as local;

    /// Whether the task is queued and its future is there: `start` and `retract` may be called.
    pub fn is_queued(&self) -> bool
        ensures { result ≡ local.is_ready_to_start self.now }
    {
        match &self.future {
            FuturePlace::Home(_) => self.state.scheduled,
            FuturePlace::Lent | FuturePlace::Dropping | FuturePlace::Gone => false,
        }
    }

    /// Whether the future is with the owner, who polls it: `settle` may be called.
    pub fn is_lent(&self) -> bool
        ensures { result ≡ local.is_lent self.now.future }
    {
        match &self.future {
            FuturePlace::Lent => true,
            FuturePlace::Home(_) | FuturePlace::Dropping | FuturePlace::Gone => false,
        }
    }

    /// Whether the future is with the owner, who drops it: `finish` may be called.
    pub fn is_dropping(&self) -> bool
        ensures { result ≡ local.is_dropping self.now.future }
    {
        match &self.future {
            FuturePlace::Dropping => true,
            FuturePlace::Home(_) | FuturePlace::Lent | FuturePlace::Gone => false,
        }
    }

    /// Whether the task has a waker: `release` may be called.
    pub fn has_waker(&self) -> bool
        ensures { IsTrue result ↔ (0 < self.now.task.wakers) }
    {
        let going = self.state.scheduled || self.state.running;
        self.state.references > going as u64
    }

    /// Whether the task has its handle: `poll` may be called.
    pub fn has_handle(&self) -> bool
        ensures { result ≡ self.now.task.handle }
    {
        self.state.handle
    }

    /// Whether a poll of the handle has to leave its waker: there is neither an output nor an end.
    pub fn must_wait(&self) -> bool
        ensures { result ≡ local.must_wait self.now.task }
    {
        let is_going = self.state.scheduled || self.state.running;
        !self.state.completed && (is_going || !self.state.closed)
    }

    /// Whether nobody is left who could reach the task: no handle, no waker, and nobody who has its
    /// future or is going to.
    pub fn is_unreachable(&self) -> bool
        ensures { result ≡ local.is_unreachable self.now.task }
    {
        self.state.references == 0 && !self.state.handle
    }

    /// Whether the task is over and holds nothing more: nobody could reach it, its future is dropped, its output is gone
    /// and nobody awaits it. `end` may be called.
    pub fn is_spent(&self) -> bool
        ensures { result ≡ local.is_spent self.now }
    {
        let is_gone = match &self.future {
            FuturePlace::Gone => true,
            FuturePlace::Home(_) | FuturePlace::Lent | FuturePlace::Dropping => false,
        };
        is_gone && self.is_unreachable() && self.output.is_none() && self.awaiter.is_none()
    }

    /// Ends a task that holds nothing more, also where futures, outputs or awaiters have no drop, and gives its metadata back.
    pub fn end(self) -> M
        requires { local.is_spent self ≡ true }
        ensures metadata { result ≡ self.metadata }
    {
        let LocalTask {
            state,
            next,
            future,
            output,
            awaiter,
            metadata,
        } = self;
        let _ = state;
        let _ = next;
        match future {
            FuturePlace::Home(_) => unreachable!(),
            _ => {}
        }
        match output {
            Some(_) => unreachable!(),
            None => {}
        }
        match awaiter {
            Some(_) => unreachable!(),
            None => {}
        }
        metadata
    }

    /// The marks and the count, for who shows them.
    pub fn state(&self) -> State
        ensures phase { local.phase_of result ≡ self.now.task.phase }
        ensures closed { result.closed ≡ self.now.task.closed }
        ensures handle { result.handle ≡ self.now.task.handle }
        ensures counted { result.references ≡ local.references_of self.now.task }
    {
        self.state
    }
}
