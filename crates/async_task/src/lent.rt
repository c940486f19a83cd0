//! The waker that a poll is lent.
ghost use Rattle.std.specs.Prelude.{◌≡◌, ◌↔◌, IsTrue, IfSome};

use crate::bounds::{Output, OutsideWaker};
use crate::cell::{Held, Realm, Scheduled};
use crate::schedule::Schedule;
use crate::waker::TaskWaker;
use std::marker::Model;
use std::sync::Wait;

/// The waker of a task that is polled, as it is lent to that poll. It has no reference of the task, since the run has the task for
/// as long as the poll goes. A future that keeps a waker asks it for one. A contract sees which task it is of.
#[derive(Drop)]
pub struct LentWaker<F, T: Output, S, M, W: OutsideWaker, R>
where
    F: Drop + 'static,
    S: Schedule<Scheduled<F, T, S, M, W, R>> + Drop + 'static,
    M: Copy + Drop + 'static,
    R: Wait + Copy + Drop,
{
    pub(crate) held: Held<F, T, S, M, W, R>,
}

impl<F, T: Output, S, M, W: OutsideWaker, R> Model for LentWaker<F, T, S, M, W, R>
where
    F: Drop + 'static,
    S: Schedule<Scheduled<F, T, S, M, W, R>> + Drop + 'static,
    M: Copy + Drop + 'static,
    R: Wait + Copy + Drop,
{
    ghost use Rattle.async_task.specs.Handles.{Handle};

    ghost Value = { Handle M };

    ghost view = { λ w. w.held };
}

impl<F, T: Output, S, M, W: OutsideWaker, R> LentWaker<F, T, S, M, W, R>
where
    F: Drop + 'static,
    S: Schedule<Scheduled<F, T, S, M, W, R>> + Drop + 'static,
    M: Copy + Drop + 'static,
    R: Wait + Copy + Drop,
{
    /// Makes the waker of the task that is about to be polled.
    pub(crate) fn of(held: Held<F, T, S, M, W, R>) -> Self
        ensures { result ≡ held }
    {
        LentWaker { held }
    }

    /// The way to the task. The waker goes.
    #[inline(always)]
    pub(crate) fn into_held(self) -> Held<F, T, S, M, W, R>
        ensures { result ≡ self }
    {
        let Self { held } = self;
        held
    }

    /// Whether the task lies in this realm, which then redeems a stored waker of it.
    pub fn lies_in(&self, realm: &Realm<F, T, S, M, W>) -> bool
        ensures { IsTrue result ↔ self.now.identity.realm ≡ realm.now.number }
    {
        self.held.identity().realm == realm.number()
    }

    /// Where the task lies. That realm redeems what was stored of its tasks.
    pub fn realm(&self) -> &'static Realm<F, T, S, M, W>
        ensures { result.now.number ≡ self.now.identity.realm }
    {
        self.held.realm()
    }

    /// Queues the task once more after its poll. It takes no memory.
    pub fn wake_by_ref(&self) {
        self.held.wake_and_queue();
    }

    /// A waker to keep, or None where the task has 2^40 references already. It takes no memory.
    pub fn to_waker(&self) -> Option<TaskWaker<F, T, S, M, W, R>>
        ensures { IfSome result (λ copy. copy ≡ self.now) }
    {
        self.held.one_more()
    }
}
