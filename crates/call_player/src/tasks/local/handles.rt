//! The calls on handles.
use crate::tasks::answer::Answer;
use crate::tasks::command::{HandleCall, Name, PairCall};
use crate::tasks::local::Owner;
use crate::tasks::local::seat::{Caller, Kind};
use async_task::local_task::{Cancel, Detach, Polled};
use std::alloc::AllocError;

impl Owner {
    /// A call of two names.
    pub fn pair_call(&mut self, call: PairCall, first: Name, second: Name) -> Answer {
        match call {
            PairCall::Will => self.will(first, second),
            PairCall::Poll => self.poll(first, Caller::Bell(second)),
            PairCall::PollBy => {
                if self.handle(first).is_some() && self.is_kept(second) && self.hold(second) {
                    self.poll(first, Caller::Task(second))
                } else {
                    Answer::NotPossible
                }
            }
        }
    }

    /// Of which type the handle of this name is.
    fn handle(&self, name: Name) -> Option<Kind> {
        match self.seats.get(name.0) {
            Some(seat) => seat.handle,
            None => None,
        }
    }

    fn set_handle(&mut self, name: Name, handle: Option<Kind>) {
        if let Some(seat) = self.seats.get_mut(name.0) {
            seat.handle = handle;
        }
    }

    /// Polls a handle. A Cancel cancels first, and goes once it is over.
    fn poll(&mut self, name: Name, waker: Caller) -> Answer {
        let Some(kind) = self.handle(name) else {
            return Answer::NotPossible;
        };
        if let Kind::Cancel = kind {
            self.cancel_task(name);
        }
        let Some(task) = self.task(name) else {
            return Answer::NotPossible;
        };
        if !task.has_handle() {
            return Answer::NotPossible;
        }
        let (answer, spare) = match task.poll(waker) {
            Polled::Pending { replaced } => {
                self.let_go(replaced);
                return Answer::Pending;
            }
            Polled::Output { output, spare } => (Answer::Ready(output), spare),
            Polled::Closed { spare } => (Answer::Cancelled, spare),
        };
        self.let_go(Some(spare));
        if let Kind::Cancel = kind {
            self.set_handle(name, None);
            self.detach_task(name);
        }
        answer
    }

    fn cancel_task(&mut self, name: Name) {
        if let Some(task) = self.task(name) {
            let Cancel { queue, awaiter } = task.cancel();
            self.queue(name, queue);
            self.call(awaiter);
        }
    }

    fn detach_task(&mut self, name: Name) {
        if let Some(task) = self.task(name) {
            let Detach { queue, output } = task.detach();
            self.lose(name, output);
            self.queue(name, queue);
        }
        self.note_who_is_left(name);
    }

    /// A call on the handle of this name.
    pub fn handle_call(&mut self, call: HandleCall, name: Name) -> Result<Answer, AllocError> {
        match (call, self.handle(name)) {
            (HandleCall::Counts, _) => self.counts(name),
            (_, None) => Ok(Answer::NotPossible),
            (HandleCall::Drop, Some(_)) => {
                self.set_handle(name, None);
                self.cancel_task(name);
                self.detach_task(name);
                Ok(Answer::Done)
            }
            (_, Some(Kind::Cancel)) => Ok(Answer::NotPossible),
            (HandleCall::Metadata | HandleCall::Fallible, Some(Kind::Fallible)) => {
                Ok(Answer::NotPossible)
            }
            (call, Some(_)) => self.task_call(call, name),
        }
    }

    /// A call on a handle of a type that has it.
    fn task_call(&mut self, call: HandleCall, name: Name) -> Result<Answer, AllocError> {
        match call {
            HandleCall::ToCancel => self.set_handle(name, Some(Kind::Cancel)),
            HandleCall::Fallible => self.set_handle(name, Some(Kind::Fallible)),
            HandleCall::Cancel => {
                self.set_handle(name, Some(Kind::Cancel));
                return Ok(self.poll(name, Caller::Bell(name)));
            }
            HandleCall::Detach => {
                self.set_handle(name, None);
                self.detach_task(name);
            }
            _ => return self.look(call, name),
        }
        Ok(Answer::Done)
    }

    /// What a look at the task of this name finds.
    fn look(&self, call: HandleCall, name: Name) -> Result<Answer, AllocError> {
        let Some(seat) = self.seats.get(name.0) else {
            return Ok(Answer::NotPossible);
        };
        match call {
            HandleCall::Metadata => Ok(Answer::Number(seat.metadata)),
            HandleCall::Finished => Ok(seat.is_finished()),
            _ => Ok(Answer::Text(seat.marks(self.alloc)?)),
        }
    }

    /// How often what happened to the task of this name.
    fn counts(&self, name: Name) -> Result<Answer, AllocError> {
        match self.seats.get(name.0) {
            Some(seat) if seat.task.is_some() => {
                Ok(Answer::Text(seat.counts.into_text(self.alloc)?))
            }
            _ => Ok(Answer::NotPossible),
        }
    }
}
