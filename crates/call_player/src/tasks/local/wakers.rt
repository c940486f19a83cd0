//! The calls on kept wakers.
use crate::tasks::answer::Answer;
use crate::tasks::command::{Name, WakerCall};
use crate::tasks::local::Owner;

impl Owner {
    /// A call on the kept wakers of this task.
    pub fn waker_call(&mut self, call: WakerCall, name: Name) -> Answer {
        let is_possible = match call {
            WakerCall::Waker => self.list.iter().any(|queued| queued.0 == name.0),
            _ => self.is_kept(name),
        };
        if !is_possible {
            return Answer::NotPossible;
        }
        match call {
            WakerCall::Waker | WakerCall::Clone => self.hold_and_keep(name),
            WakerCall::WakeByRef => self.wake(name),
            WakerCall::Wake => {
                self.take_kept(name);
                self.wake(name);
                self.release(name);
            }
            WakerCall::Unkeep => {
                self.take_kept(name);
                self.release(name);
            }
        }
        Answer::Done
    }

    /// Whether a waker of this task is kept.
    pub fn is_kept(&self, name: Name) -> bool {
        match self.seats.get(name.0) {
            Some(seat) => seat.kept > 0,
            None => false,
        }
    }

    fn take_kept(&mut self, name: Name) {
        if let Some(seat) = self.seats.get_mut(name.0) {
            seat.kept = seat.kept.saturating_sub(1);
        }
    }

    /// One more waker of this task. The answer is whether it could be had.
    pub fn hold(&mut self, name: Name) -> bool {
        match self.task(name) {
            Some(task) => task.hold(),
            None => false,
        }
    }

    /// One more waker of this task is kept.
    fn hold_and_keep(&mut self, name: Name) {
        let is_held = self.hold(name);
        if let (true, Some(seat)) = (is_held, self.seats.get_mut(name.0)) {
            seat.kept = seat.kept.saturating_add(1);
        }
    }

    /// A copy of the waker of a future that is polled takes the place of the newest one that is kept.
    pub fn keep(&mut self, name: Name) {
        let has_one = self.is_kept(name);
        self.hold_and_keep(name);
        if has_one {
            self.take_kept(name);
            self.release(name);
        }
    }

    /// Whether the newest kept wakers of both wake the same.
    pub fn will(&self, first: Name, second: Name) -> Answer {
        if self.is_kept(first) && self.is_kept(second) {
            Answer::Is(first.0 == second.0)
        } else {
            Answer::NotPossible
        }
    }
}
