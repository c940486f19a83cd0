//! The executor of a script, as its desk, its handles and its wakers share it, and what follows its calls.
ghost use Rattle.std.specs.Prelude.{◌≡◌, ◌<◌, None};

use async_task::Wake;
use player_parts::{Bell, Gift};
use script::Name;
use solo::{Dropped, Kind, Lent, Owed, Solo, SoloWaker, Task, Told};
use std::alloc::Global;
use std::cell::{RefCell, RefMut};
use std::rc::Rc;
use std::sync::Wait;

/// The executor of a script. It knows a future by its name.
pub type Tasks = Solo<Name, Gift, Bell>;

/// The way of a desk, a handle or a waker to the executor.
#[derive(Drop)]
pub struct Link<R: Wait + Copy + Drop> {
    tasks: Rc<RefCell<Tasks>, Global>,
    rt: R,
}

/// What is left once all is called and dropped that a call on a task has handed out.
struct Paid {
    /// A task that the queue has turned away.
    returned: Option<Task>,
    /// What is finished once the future is dropped.
    rest: Option<Lent>,
}

impl<R: Wait + Copy + Drop> Link<R> {
    /// The way to a new executor, where there is memory for it.
    pub fn new(rt: R, alloc: Global, limit: usize, kind: Kind) -> Option<Link<R>>
        requires { 0 < limit }
    {
        let Ok(tasks) = Solo::new(alloc, limit, kind) else {
            return None;
        };
        match Rc::new(alloc, RefCell::new(tasks)) {
            Ok(tasks) => Some(Link { tasks, rt }),
            Err(_) => None,
        }
    }

    /// One more. A count of 2^63 of them is out of reach: this waits there.
    pub fn share(&self) -> Link<R> {
        for _ in self.rt.forever() {
            if let Ok(tasks) = Rc::clone(&self.tasks) {
                return Link { tasks, rt: self.rt };
            }
        }
        unreachable!()
    }

    /// The runtime value.
    pub fn rt(&self) -> R {
        self.rt
    }

    /// The executor. Its calls run nothing of a script's, so nobody else has it then: where one had this would wait.
    pub fn tasks(&self) -> RefMut<'_, Tasks> {
        for _ in self.rt.forever() {
            if let Ok(tasks) = self.tasks.try_borrow_mut() {
                return tasks;
            }
        }
        unreachable!()
    }

    /// Wakes a task, and calls the waker of the sleeper that has to be notified.
    pub fn wake(&self, task: Task) {
        let told = self.tasks().wake(task);
        self.pay_told(told);
    }

    /// Wakes a task by a waker of its own, which goes.
    pub fn wake_and_release(&self, task: Task) {
        let told = self.tasks().wake_and_release(task);
        self.pay_told(told);
    }

    /// One waker of a task less.
    pub fn release(&self, task: Task) {
        let told = self.tasks().release(task);
        self.pay_told(told);
    }

    /// Closes a task, where it isn't over.
    pub fn cancel(&self, task: Task) {
        let owed = self.tasks().cancel(task);
        self.pay_all(owed);
    }

    /// Gives the handle of a task up. An output that is there is dropped.
    pub fn detach(&self, task: Task) {
        let owed = self.tasks().detach(task);
        self.pay_all(owed);
    }

    /// Drops a waker as it was kept.
    pub fn let_go(&self, waker: Option<SoloWaker<Bell>>) {
        let next = self.dropped(waker);
        self.turn_away(next);
    }

    /// Calls the waker of the sleeper that has to be notified.
    pub fn call_sleeper(&self, sleeper: Option<Bell>) {
        if let Some(bell) = sleeper {
            bell.wake();
        }
    }

    /// What a queueing leaves.
    pub fn pay_told(&self, told: Told<Bell>) {
        let next = wake_told(told);
        self.turn_away(next);
    }

    /// What a tick or run leaves that goes.
    pub fn pay_dropped(&self, dropped: Dropped<Bell>) {
        let Dropped { old, told } = dropped;
        self.pay_told(told);
        drop(old);
    }

    /// What a call on a task leaves, beside a future. What is to be finished once the future is dropped is the answer.
    pub fn pay(&self, owed: Owed<Name, Gift, Bell>) -> Option<Lent>
        ensures { result ≡ owed.rest }
    {
        let Paid { returned, rest } = self.paid(owed);
        self.turn_away(returned);
        rest
    }

    /// The same, where nothing is to be finished.
    pub fn pay_all(&self, owed: Owed<Name, Gift, Bell>)
        requires { owed.rest ≡ None }
    {
        match self.pay(owed) {
            None => {}
            Some(_) => unreachable!(),
        }
    }

    /// First an output is dropped. Then who sleeps is called, and then who awaits the task, or its waker dropped: it is never both,
    /// nor are two tasks turned away.
    fn paid(&self, owed: Owed<Name, Gift, Bell>) -> Paid
        ensures { result.rest ≡ owed.rest }
    {
        let Owed {
            future: _,
            rest,
            output,
            awaiter,
            sleeper,
            old,
            returned,
        } = owed;
        drop(output);
        let told = wake_told(Told { sleeper, returned });
        let called = self.called(awaiter);
        let dropped = self.dropped(old);
        Paid {
            returned: told.or(called).or(dropped),
            rest,
        }
    }

    /// Calls a waker, if there is one, and answers what the queue has turned away.
    fn called(&self, waker: Option<SoloWaker<Bell>>) -> Option<Task> {
        match waker {
            Some(SoloWaker::Task(task)) => {
                let told = self.tasks().wake_and_release(task);
                wake_told(told)
            }
            Some(SoloWaker::Outside(bell)) => {
                bell.wake();
                None
            }
            None => None,
        }
    }

    /// Drops a waker, if there is one, and answers what the queue has turned away.
    fn dropped(&self, waker: Option<SoloWaker<Bell>>) -> Option<Task> {
        match waker {
            Some(SoloWaker::Task(task)) => {
                let told = self.tasks().release(task);
                wake_told(told)
            }
            Some(SoloWaker::Outside(bell)) => {
                drop(bell);
                None
            }
            None => None,
        }
    }

    /// A task that the queue has turned away, if one was, loses its turn, and so do those that its end leads to. Its executor has
    /// dropped its future by then.
    fn turn_away(&self, task: Option<Task>) {
        let mut next = task;
        for _ in self.rt.forever() {
            let Some(task) = next else {
                return;
            };
            next = self.lose_turn(task);
        }
        unreachable!()
    }

    fn lose_turn(&self, task: Task) -> Option<Task> {
        let owed = self.tasks().retract(task);
        let Paid { returned, rest } = self.paid(owed);
        match rest {
            Some(lent) => returned.or(self.finish_turned_away(lent)),
            None => returned,
        }
    }

    fn finish_turned_away(&self, lent: Lent) -> Option<Task> {
        let owed = self.tasks().finish(lent);
        let Paid { returned, rest } = self.paid(owed);
        match rest {
            None => {}
            Some(_) => unreachable!(),
        }
        returned
    }
}

/// Calls who sleeps, and answers what the queue has turned away.
fn wake_told(told: Told<Bell>) -> Option<Task> {
    let Told { sleeper, returned } = told;
    if let Some(sleeper) = sleeper {
        sleeper.wake();
    }
    returned
}
