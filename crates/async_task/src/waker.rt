ghost use Rattle.std.specs.Prelude.{◌≡◌, ◌↔◌, IsTrue, IfSome, MatchOption, None};
ghost use Rattle.async_task.specs.Awaiters.{IsTaskS};

use crate::bounds::{Output, OutsideWaker};
use crate::cell::{Held, Identity, Realm, Scheduled, StoredWaker, WakerToken};
use crate::lent::LentWaker;
use crate::schedule::Schedule;
use crate::wake::Wake;
use std::marker::Model;
use std::sync::Wait;

/// A waker of a task, which has one of its references. A contract sees which task it is of.
pub struct TaskWaker<F, T: Output, S, M, W: OutsideWaker, R>
where
    F: Drop + 'static,
    S: Schedule<Scheduled<F, T, S, M, W, R>> + Drop + 'static,
    M: Copy + Drop + 'static,
    R: Wait + Copy + Drop,
{
    held: Held<F, T, S, M, W, R>,
    token: WakerToken<F, T, W>,
}

impl<F, T: Output, S, M, W: OutsideWaker, R> Model for TaskWaker<F, T, S, M, W, R>
where
    F: Drop + 'static,
    S: Schedule<Scheduled<F, T, S, M, W, R>> + Drop + 'static,
    M: Copy + Drop + 'static,
    R: Wait + Copy + Drop,
{
    ghost use Rattle.async_task.specs.Handles.{Handle};

    ghost Value = { Handle M };

    ghost view = { λ w. w.held };
}

/// The one type of waker that futures are polled with, and that handles keep.
#[derive(Drop)]
pub enum Awaiter<F, T: Output, S, M, W: OutsideWaker, R>
where
    F: Drop + 'static,
    S: Schedule<Scheduled<F, T, S, M, W, R>> + Drop + 'static,
    M: Copy + Drop + 'static,
    R: Wait + Copy + Drop,
{
    /// Of a task.
    Task(TaskWaker<F, T, S, M, W, R>),
    /// Of the task that is polled, lent to its poll. A copy of it is a `Task`.
    Lent(LentWaker<F, T, S, M, W, R>),
    /// From outside.
    Outside(W),
}

impl<F, T: Output, S, M, W: OutsideWaker, R> TaskWaker<F, T, S, M, W, R>
where
    F: Drop + 'static,
    S: Schedule<Scheduled<F, T, S, M, W, R>> + Drop + 'static,
    M: Copy + Drop + 'static,
    R: Wait + Copy + Drop,
{
    /// A waker that has this reference.
    pub(crate) fn of(held: Held<F, T, S, M, W, R>, token: WakerToken<F, T, W>) -> Self
        ensures { result ≡ held }
    {
        TaskWaker { held, token }
    }

    /// Whether the task lies in this realm: whether the waker, once it is stored, is redeemed there.
    pub fn lies_in(&self, realm: &Realm<F, T, S, M, W>) -> bool
        ensures { IsTrue result ↔ self.now.identity.realm ≡ realm.now.number }
    {
        self.held.identity().realm == realm.number()
    }

    /// Where the task lies. That realm redeems what was stored of its tasks, also for a caller that has only this waker.
    pub fn realm(&self) -> &'static Realm<F, T, S, M, W>
        ensures { result.now.number ≡ self.now.identity.realm }
    {
        self.held.realm()
    }

    /// The waker for a list.
    pub fn store(self) -> StoredWaker
        ensures { result.identity ≡ self.identity }
    {
        let Self { held, token } = self;
        held.stored(token)
    }
}

impl<F, T: Output, S, M, W: OutsideWaker, R> Wake for TaskWaker<F, T, S, M, W, R>
where
    F: Drop + 'static,
    S: Schedule<Scheduled<F, T, S, M, W, R>> + Drop + 'static,
    M: Copy + Drop + 'static,
    R: Wait + Copy + Drop,
{
    ghost use Rattle.std.specs.Prelude.{◌↔◌, IsTrue, IfSome};
    ghost use Rattle.async_task.specs.Handles.{IsOfOneTask};

    ghost is_same = { λ a b. IsOfOneTask a b };

    /// Queues the task, where it is open and idle. It takes no memory.
    fn wake(self) {
        let Self { held, token } = self;
        held.wake_and_queue();
        held.release(token);
    }

    fn wake_by_ref(&self) {
        self.held.wake_and_queue();
    }

    /// Makes one more waker, or None where the task has 2^40 references already.
    fn clone(&self) -> Option<Self>
        ensures same { IfSome result (λ copy. IsOfOneTask copy self.now) }
        ensures handle { IfSome result (λ copy. copy ≡ self.now) }
    {
        self.held.one_more()
    }

    /// Whether both are of one task.
    fn will_wake(&self, other: &Self) -> bool
        ensures { IsTrue result ↔ IsOfOneTask self.now other.now }
    {
        self.held.identity() == other.held.identity()
    }
}

impl<F, T: Output, S, M, W: OutsideWaker, R> Drop for TaskWaker<F, T, S, M, W, R>
where
    F: Drop + 'static,
    S: Schedule<Scheduled<F, T, S, M, W, R>> + Drop + 'static,
    M: Copy + Drop + 'static,
    R: Wait + Copy + Drop,
{
    fn drop(self) {
        let Self { held, token } = self;
        held.release(token);
    }
}

impl<F, T: Output, S, M, W: OutsideWaker, R> Awaiter<F, T, S, M, W, R>
where
    F: Drop + 'static,
    S: Schedule<Scheduled<F, T, S, M, W, R>> + Drop + 'static,
    M: Copy + Drop + 'static,
    R: Wait + Copy + Drop,
{
    ghost use Rattle.async_task.specs.Awaiters.{identity_of};

    /// Which task it is a waker of; None of one from outside.
    pub fn identity(&self) -> Option<Identity>
        ensures { result ≡ identity_of self.now }
    {
        match self {
            Awaiter::Task(waker) => Some(waker.held.identity()),
            Awaiter::Lent(waker) => Some(waker.held.identity()),
            Awaiter::Outside(_) => None,
        }
    }

    /// A waker of the same task that is kept; None of one from outside, or where one more reference is refused.
    pub(crate) fn hold(&self) -> Option<(usize, WakerToken<F, T, W>)> {
        let held = match self {
            Awaiter::Task(waker) => &waker.held,
            Awaiter::Lent(waker) => &waker.held,
            Awaiter::Outside(_) => return None,
        };
        match held.hold() {
            Ok(token) => Some((held.identity().place, token)),
            Err(_) => None,
        }
    }
}

impl<F, T: Output, S, M, W: OutsideWaker, R> Wake for Awaiter<F, T, S, M, W, R>
where
    F: Drop + 'static,
    S: Schedule<Scheduled<F, T, S, M, W, R>> + Drop + 'static,
    M: Copy + Drop + 'static,
    R: Wait + Copy + Drop,
{
    ghost use Rattle.std.specs.Prelude.{◌≡◌, false, IsTrue, IfSome};
    ghost use Rattle.async_task.specs.Awaiters.{WakeTheSame, Tells, is_lent};

    ghost is_same = { λ a b. WakeTheSame W.is_same a b };

    fn wake(self) {
        match self {
            Awaiter::Task(waker) => waker.wake(),
            Awaiter::Lent(waker) => waker.wake_by_ref(),
            Awaiter::Outside(waker) => waker.wake(),
        }
    }

    #[inline(always)]
    fn wake_by_ref(&self) {
        match self {
            Awaiter::Task(waker) => waker.wake_by_ref(),
            Awaiter::Lent(waker) => waker.wake_by_ref(),
            Awaiter::Outside(waker) => waker.wake_by_ref(),
        }
    }

    /// One that is kept: of a task it has a reference.
    fn clone(&self) -> Option<Self>
        ensures same { IfSome result (λ copy. WakeTheSame W.is_same copy self.now) }
        ensures kept { IfSome result (λ copy. is_lent copy ≡ false) }
    {
        match self {
            Awaiter::Task(waker) => of_task(waker.clone()),
            Awaiter::Lent(waker) => of_task(waker.to_waker()),
            Awaiter::Outside(waker) => match waker.clone() {
                Some(copy) => Some(Awaiter::Outside(copy)),
                None => None,
            },
        }
    }

    /// Whether both wake the same. Of two wakers of tasks that is known; of one of a task and one from outside it never is.
    fn will_wake(&self, other: &Self) -> bool
        ensures yes { IsTrue result → WakeTheSame W.is_same self.now other.now }
        ensures tells { Tells W.is_same self.now other.now result }
    {
        match (self, other) {
            (Awaiter::Outside(one), Awaiter::Outside(other)) => one.will_wake(other),
            (Awaiter::Task(one), Awaiter::Task(other)) => one.will_wake(other),
            (Awaiter::Task(one), Awaiter::Lent(other)) => one.held.is_of(&other.held),
            (Awaiter::Lent(one), Awaiter::Task(other)) => one.held.is_of(&other.held),
            (Awaiter::Lent(one), Awaiter::Lent(other)) => one.held.is_of(&other.held),
            _ => false,
        }
    }
}

/// The waker of a task, as an awaiter.
fn of_task<F, T: Output, S, M, W: OutsideWaker, R>(
    waker: Option<TaskWaker<F, T, S, M, W, R>>,
) -> Option<Awaiter<F, T, S, M, W, R>>
where
    F: Drop + 'static,
    S: Schedule<Scheduled<F, T, S, M, W, R>> + Drop + 'static,
    M: Copy + Drop + 'static,
    R: Wait + Copy + Drop,
    ensures { MatchOption waker (result ≡ None) (λ waker. IfSome result (IsTaskS waker)) }
{
    match waker {
        Some(waker) => Some(Awaiter::Task(waker)),
        None => None,
    }
}
