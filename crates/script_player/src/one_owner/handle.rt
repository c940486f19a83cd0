//! The handles of a script's futures.
use crate::one_owner::link::Link;
use crate::one_owner::waker::{ScriptWaker, copy_for};
use player_parts::{Answer, Await, Bell, Gift, Hold};
use solo::{Polled, SoloWaker, Task};
use std::sync::Wait;

/// What a handle does to its future.
#[derive(Clone, Copy)]
enum Aim {
    /// It waits for the output.
    Output,
    /// Its next poll cancels.
    Cancel,
    /// A poll has cancelled.
    End,
}

/// The handle of a future. Its drop cancels, where no poll has.
pub struct Handle<R: Wait + Copy + Drop> {
    link: Link<R>,
    task: Task,
    aim: Aim,
}

impl<R: Wait + Copy + Drop> Handle<R> {
    /// That of a task which was accepted.
    pub fn new(link: Link<R>, task: Task) -> Handle<R> {
        Handle {
            link,
            task,
            aim: Aim::Output,
        }
    }

    /// Where there is an answer already no waker is copied. What stands for one then counts as none, and comes back.
    fn poll_with(&mut self, waker: &ScriptWaker<R>) -> Answer {
        if let Aim::Cancel = self.aim {
            self.aim = Aim::End;
            self.link.cancel(self.task);
        }
        let must_wait = self.link.tasks().must_wait(self.task);
        if !must_wait {
            let polled = self
                .link
                .tasks()
                .poll(self.task, SoloWaker::Task(self.task));
            return self.answer_of(polled, false);
        }
        match copy_for(&self.link, waker) {
            Some(copy) => {
                let polled = self.link.tasks().poll(self.task, copy);
                self.answer_of(polled, true)
            }
            None => Answer::NoMemory,
        }
    }

    fn answer_of(&self, polled: Polled<Gift, SoloWaker<Bell>>, counts: bool) -> Answer {
        match polled {
            Polled::Output { output, spare } => {
                self.let_spare_go(spare, counts);
                Answer::Output(output.into_number())
            }
            Polled::Closed { spare } => {
                self.let_spare_go(spare, counts);
                Answer::Cancelled
            }
            Polled::Pending { replaced } => {
                self.link.let_go(replaced);
                Answer::Pending
            }
        }
    }

    fn let_spare_go(&self, spare: SoloWaker<Bell>, counts: bool) {
        if counts {
            self.link.let_go(Some(spare));
        }
    }
}

impl<R: Wait + Copy + Drop> Await<ScriptWaker<R>> for Handle<R> {
    fn poll(&mut self, waker: &ScriptWaker<R>) -> Answer {
        self.poll_with(waker)
    }
}

impl<R: Wait + Copy + Drop> Hold for Handle<R> {
    fn poll_by(&mut self, bell: Bell) -> Answer {
        self.poll_with(&ScriptWaker::Outside(bell))
    }

    fn cancel(self) -> Self {
        let mut handle = self;
        if let Aim::Output = handle.aim {
            handle.aim = Aim::Cancel;
        }
        handle
    }

    fn detach(self) {
        if let Aim::Output = self.aim {
            let Handle { link, task, aim: _ } = self;
            link.detach(task);
        } else {
            drop(self);
        }
    }
}

impl<R: Wait + Copy + Drop> Drop for Handle<R> {
    fn drop(self) {
        let Handle { link, task, aim } = self;
        match aim {
            Aim::Output | Aim::Cancel => link.cancel(task),
            Aim::End => {}
        }
        link.detach(task);
    }
}
