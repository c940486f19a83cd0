//! The calls on the list and on open runs.
use crate::tasks::answer::Answer;
use crate::tasks::command::{Act, ListCall, Name};
use crate::tasks::counts::Happening;
use crate::tasks::local::Owner;
use crate::tasks::local::seat::Work;
use async_task::local_task::{Finish, Settled, Start};
use async_task::{Back, ScheduleInfo};
use std::alloc::AllocError;

/// A run whose future is still to be polled.
#[derive(Drop)]
pub struct OpenRun {
    name: Name,
    work: Work,
}

/// What a run begins with.
enum Begun {
    /// No task is queued.
    Nothing,
    /// The task was closed, and its future is dropped.
    Closed,
    Open(OpenRun),
}

impl Owner {
    /// A call on the list or on the innermost open run.
    pub fn list_call(&mut self, call: ListCall) -> Result<Answer, AllocError> {
        match call {
            ListCall::Run => Ok(match self.begin() {
                Begun::Open(run) => self.end(run),
                Begun::Closed => Answer::Is(false),
                Begun::Nothing => Answer::NotPossible,
            }),
            ListCall::Start => match self.begin() {
                Begun::Open(run) => {
                    self.open.push(run)?;
                    Ok(Answer::Is(true))
                }
                Begun::Closed => Ok(Answer::Is(false)),
                Begun::Nothing => Ok(Answer::NotPossible),
            },
            ListCall::Settle => Ok(match self.open.pop() {
                Some(run) => self.end(run),
                None => Answer::NotPossible,
            }),
            ListCall::DropRunnable => Ok(self.retract()),
            ListCall::Reschedule => Ok(self.reschedule()),
            ListCall::Next => self.next(),
        }
    }

    /// Takes the first task of the list, and begins its run.
    fn begin(&mut self) -> Begun {
        let Some(name) = self.list.pop_front() else {
            return Begun::Nothing;
        };
        let Some(task) = self.task(name) else {
            return Begun::Nothing;
        };
        if !task.is_queued() {
            return Begun::Nothing;
        }
        match task.start() {
            Start::Poll(work) => Begun::Open(OpenRun { name, work }),
            Start::Drop(_work) => {
                self.drop_and_finish(name);
                Begun::Closed
            }
        }
    }

    /// The future of a closed task is dropped, and what follows that.
    fn drop_and_finish(&mut self, name: Name) {
        self.drop_future(name);
        if let Some(task) = self.task(name) {
            if task.is_dropping() {
                match task.finish() {
                    Finish::Wake(awaiter) => self.call(Some(awaiter)),
                    Finish::Drop(awaiter) => self.let_go(Some(awaiter)),
                    Finish::Nothing => {}
                }
            }
        }
        self.note_who_is_left(name);
    }

    /// Polls the future of a run, and ends it. The answer is whether the task was woken meanwhile.
    fn end(&mut self, run: OpenRun) -> Answer {
        let OpenRun { name, mut work } = run;
        let back = match self.poll_future(name, &mut work) {
            Some(output) => {
                self.drop_future(name);
                Back::Ready(output)
            }
            None => Back::Pending(work),
        };
        let Some(task) = self.task(name) else {
            return Answer::NotPossible;
        };
        if !task.is_lent() {
            return Answer::NotPossible;
        }
        match task.settle(back) {
            Settled::Finish { output, awaiter } => {
                self.lose(name, output);
                self.call(awaiter);
                self.note_who_is_left(name);
                Answer::Is(false)
            }
            Settled::Queue(info) => {
                self.queue(name, Some(info));
                Answer::Is(true)
            }
            Settled::Drop(_work) => {
                self.drop_and_finish(name);
                Answer::Is(false)
            }
            Settled::Rest => Answer::Is(false),
        }
    }

    /// A poll of a future: it does what its next item says. The answer is its output.
    fn poll_future(&mut self, name: Name, work: &mut Work) -> Option<u64> {
        self.count(name, Happening::Poll);
        self.show("poll ", name, "");
        let mut output = None;
        if let Some(item) = work.items.get(work.next) {
            for act in item.acts.iter() {
                match act {
                    Act::Wake => self.wake(name),
                    Act::Keep => self.keep(name),
                }
            }
            output = item.output;
        }
        let next = work.next.saturating_add(1);
        if next < work.items.len() {
            work.next = next;
        }
        let word = if output.is_some() {
            "ready "
        } else {
            "pending "
        };
        self.show(word, name, "");
        output
    }

    /// Lets the turn of the first task of the list go.
    fn retract(&mut self) -> Answer {
        let Some(name) = self.list.pop_front() else {
            return Answer::NotPossible;
        };
        let Some(task) = self.task(name) else {
            return Answer::NotPossible;
        };
        if !task.is_queued() {
            return Answer::NotPossible;
        }
        let _work = task.retract();
        self.drop_and_finish(name);
        Answer::Done
    }

    /// Puts the first task of the list to its end.
    fn reschedule(&mut self) -> Answer {
        let Some(name) = self.list.pop_front() else {
            return Answer::NotPossible;
        };
        let info = ScheduleInfo {
            woken_while_running: false,
        };
        self.queue(name, Some(info));
        Answer::Done
    }

    /// A look at the first task of the list.
    fn next(&mut self) -> Result<Answer, AllocError> {
        let Some(seat) = self.list.front().and_then(|name| self.seats.get(name.0)) else {
            return Ok(Answer::NotPossible);
        };
        let marks = seat.marks(self.alloc)?;
        let (name, metadata, marks) = (seat.name.as_str(), seat.metadata, marks.as_str());
        let text = format!(in self.alloc; "{name}, metadata: {metadata}, {marks}")?;
        Ok(Answer::Text(text))
    }
}
