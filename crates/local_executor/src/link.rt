//! The link to the lock, and what follows a section once the lock is released.
ghost use Rattle.std.specs.Prelude.{◌≡◌, ◌==◌, None};

use crate::entry::Unlocked;
use crate::foreign::{Foreign, let_go};
use crate::locks::Locked;
use crate::names::{Shared, Tasks};
use crate::sections;
use async_task::Wake;
use executor_parts::EntryPlace;
use solo::{Dropped, Lent, Owed, SoloWaker, Task, Told};
use std::sync::{Arc, Wait};

/// The link of an executor, a handle or a waker to what they share.
#[derive(Drop)]
pub struct Link<W: Drop, R: Drop> {
    shared: Shared<W>,
    /// The executor's number: a waker whose number is another's isn't kept.
    id: u64,
    rt: R,
}

/// What is left after the wakers are called that a call on a task hands out.
struct Paid {
    /// A task that the queue has turned away.
    returned: Option<Task>,
    /// What has to be finished once the future is dropped.
    rest: Option<Lent>,
}

impl<W: Drop, R: Wait + Copy + Drop> Link<W, R> {
    pub fn new(shared: Shared<W>, id: u64, rt: R) -> Self
        ensures shared { result.shared ≡ shared }
        ensures id { result.id ≡ id }
        ensures rt { result.rt ≡ rt }
    {
        Link { shared, id, rt }
    }

    /// Makes one link more. A count of 2^63 of them is out of reach: this waits there.
    #[inline(always)]
    pub fn share(&self) -> Self
        ensures id { result.id ≡ self.now.id }
        ensures rt { result.rt ≡ self.now.rt }
    {
        for _ in self.rt.forever() {
            if let Ok(shared) = Arc::try_clone(&self.shared) {
                return Link {
                    shared,
                    id: self.id,
                    rt: self.rt,
                };
            }
        }
        unreachable!()
    }

    /// The runtime value.
    pub fn rt(&self) -> R
        ensures { result ≡ self.now.rt }
    {
        self.rt
    }

    /// Whether both links lead to one executor.
    pub fn is_to_the_same(&self, other: &Self) -> bool
        ensures { result ≡ (self.now.id == other.now.id) }
    {
        self.id == other.id
    }

    /// Takes the lock.
    #[inline(always)]
    pub fn lock<'a>(&'a self, unlocked: &'a mut Unlocked) -> Locked<'a, Tasks<W>> {
        self.shared.lock(&self.rt, unlocked)
    }

    /// Takes the lock, where it is free.
    pub fn try_lock<'a>(&'a self, unlocked: &'a mut Unlocked) -> Option<Locked<'a, Tasks<W>>> {
        self.shared.try_lock(unlocked)
    }

    /// Counts one more waker of a task. False from 2^40 references on.
    pub fn hold(&self, task: Task, unlocked: &mut Unlocked) -> bool {
        sections::hold(self.lock(unlocked).get(), task)
    }
}

impl<W: Wake + Drop, R: Wait + Copy + Drop> Link<W, R> {
    /// Wakes a task, and calls the waker of the sleeper that has to be notified.
    #[inline(always)]
    pub fn wake(&self, task: Task, unlocked: &mut Unlocked) {
        let told = sections::wake(self.lock(unlocked).get(), task);
        self.pay_told(told, unlocked);
    }

    /// Wakes a task by a waker of its own, which goes.
    pub fn wake_and_release(&self, task: Task, unlocked: &mut Unlocked) {
        let told = sections::wake_and_release(self.lock(unlocked).get(), task);
        self.pay_told(told, unlocked);
    }

    /// Counts one waker of a task less.
    pub fn release(&self, task: Task, unlocked: &mut Unlocked) {
        let told = sections::release(self.lock(unlocked).get(), task);
        self.pay_told(told, unlocked);
    }

    /// Calls a waker as it was kept.
    pub fn call(&self, waker: Option<SoloWaker<Foreign<W>>>, unlocked: &mut Unlocked) {
        let next = self.called(waker, unlocked);
        self.turn_away(next, unlocked);
    }

    /// Drops a waker as it was kept.
    pub fn let_go(&self, waker: Option<SoloWaker<Foreign<W>>>, unlocked: &mut Unlocked) {
        let next = self.dropped(waker, unlocked);
        self.turn_away(next, unlocked);
    }

    /// Does what a queueing leaves to be done.
    #[inline(always)]
    pub fn pay_told(&self, told: Told<Foreign<W>>, unlocked: &mut Unlocked) {
        let next = wake_told(told, unlocked);
        self.turn_away(next, unlocked);
    }

    /// Does what a dropped tick leaves to be done.
    pub fn pay_dropped(&self, dropped: Dropped<Foreign<W>>, unlocked: &mut Unlocked) {
        let Dropped { old, told } = dropped;
        self.pay_told(told, unlocked);
        let_go(old, unlocked);
    }

    /// Does what a call on a task leaves to be done, except for a future and an output. Answers what has to be finished once the
    /// future is dropped.
    #[inline(always)]
    pub fn pay(
        &self,
        owed: Owed<EntryPlace, (), Foreign<W>>,
        unlocked: &mut Unlocked,
    ) -> Option<Lent>
        ensures { result ≡ owed.rest }
    {
        let Paid { returned, rest } = self.paid(owed, unlocked);
        self.turn_away(returned, unlocked);
        rest
    }

    /// The same, where nothing has to be finished.
    #[inline(always)]
    pub fn pay_all(&self, owed: Owed<EntryPlace, (), Foreign<W>>, unlocked: &mut Unlocked)
        requires { owed.rest ≡ None }
    {
        match self.pay(owed, unlocked) {
            None => {}
            Some(_) => unreachable!(),
        }
    }

    /// Calls a waker, if there is one, and answers what the queue has turned away.
    #[inline(always)]
    fn called(
        &self,
        waker: Option<SoloWaker<Foreign<W>>>,
        unlocked: &mut Unlocked,
    ) -> Option<Task> {
        match waker {
            Some(waker) => self.call_one(waker, unlocked),
            None => None,
        }
    }

    #[inline(never)]
    fn call_one(&self, waker: SoloWaker<Foreign<W>>, unlocked: &mut Unlocked) -> Option<Task> {
        match waker {
            SoloWaker::Task(task) => {
                let told = sections::wake_and_release(self.lock(unlocked).get(), task);
                wake_told(told, unlocked)
            }
            SoloWaker::Outside(waker) => {
                waker.wake(unlocked);
                None
            }
        }
    }

    /// Drops a waker, if there is one, and answers what the queue has turned away.
    #[inline(always)]
    fn dropped(
        &self,
        waker: Option<SoloWaker<Foreign<W>>>,
        unlocked: &mut Unlocked,
    ) -> Option<Task> {
        match waker {
            Some(waker) => self.drop_one(waker, unlocked),
            None => None,
        }
    }

    #[inline(never)]
    fn drop_one(&self, waker: SoloWaker<Foreign<W>>, unlocked: &mut Unlocked) -> Option<Task> {
        match waker {
            SoloWaker::Task(task) => {
                let told = sections::release(self.lock(unlocked).get(), task);
                wake_told(told, unlocked)
            }
            SoloWaker::Outside(waker) => {
                waker.let_go(unlocked);
                None
            }
        }
    }

    /// Takes its turn from a task that the queue has turned away, if there is one.
    #[inline(always)]
    fn turn_away(&self, task: Option<Task>, unlocked: &mut Unlocked) {
        if let Some(task) = task {
            self.lose_turns(task, unlocked);
        }
    }

    /// A task loses its turn, and so do those that its end leads to. Its executor has dropped its future by then.
    #[inline(never)]
    fn lose_turns(&self, task: Task, unlocked: &mut Unlocked) {
        let mut next = Some(task);
        for _ in self.rt.forever() {
            let Some(task) = next else {
                return;
            };
            next = self.lose_turn(task, unlocked);
        }
        unreachable!()
    }

    fn lose_turn(&self, task: Task, unlocked: &mut Unlocked) -> Option<Task> {
        let owed = sections::retract(self.lock(unlocked).get(), task);
        let Paid { returned, rest } = self.paid(owed, unlocked);
        match rest {
            Some(lent) => {
                let owed = sections::finish(self.lock(unlocked).get(), lent);
                let Paid {
                    returned: after,
                    rest,
                } = self.paid(owed, unlocked);
                match rest {
                    None => {}
                    Some(_) => unreachable!(),
                }
                returned.or(after)
            }
            None => returned,
        }
    }

    /// First the sleeper is called, as in the original. Then the task's awaiter is called, or its waker dropped: it is never both,
    /// nor are two tasks turned away.
    #[inline(always)]
    fn paid(&self, owed: Owed<EntryPlace, (), Foreign<W>>, unlocked: &mut Unlocked) -> Paid
        ensures { result.rest ≡ owed.rest }
    {
        let Owed {
            future: _,
            rest,
            output: _,
            awaiter,
            sleeper,
            old,
            returned,
        } = owed;
        let told = wake_told(Told { sleeper, returned }, unlocked);
        let called = self.called(awaiter, unlocked);
        let dropped = self.dropped(old, unlocked);
        Paid {
            returned: told.or(called).or(dropped),
            rest,
        }
    }
}

/// Calls the sleeper, and answers what the queue has turned away.
#[inline(always)]
fn wake_told<W: Wake + Drop>(told: Told<Foreign<W>>, unlocked: &Unlocked) -> Option<Task> {
    let Told { sleeper, returned } = told;
    if let Some(sleeper) = sleeper {
        sleeper.wake(unlocked);
    }
    returned
}
