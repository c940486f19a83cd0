//! The handle of a task, of whichever type.
use crate::tasks::answer::Answer;
use crate::tasks::stage::{Actor, Bell, Line, Output, ScriptAwaiter};
use async_task::{Cancel, FallibleTask, Future, NoMemory, Poll, Runtime, Task, TaskError};
use std::alloc::{AllocError, Global};

pub type ScriptTask<R> = Task<Actor<R>, Output<R>, Line<R>, u64, Bell<R>, R>;

pub type ScriptFallible<R> = FallibleTask<Actor<R>, Output<R>, Line<R>, u64, Bell<R>, R>;

pub type ScriptCancel<R> = Cancel<Actor<R>, Output<R>, Line<R>, u64, Bell<R>, R>;

/// The handle of a task.
#[derive(Drop)]
pub enum Handle<R: Runtime> {
    Task(ScriptTask<R>),
    Fallible(ScriptFallible<R>),
    Cancel(ScriptCancel<R>),
}

impl<R: Runtime> Handle<R> {
    /// A poll by this waker, and the handle behind it. A Cancel that is over is dropped.
    pub fn poll(self, waker: &ScriptAwaiter<R>) -> (Option<Handle<R>>, Result<Answer, AllocError>) {
        match self {
            Handle::Task(task) => {
                let mut task = task;
                let answer = of_task(task.poll(waker));
                (Some(Handle::Task(task)), answer)
            }
            Handle::Fallible(task) => {
                let mut task = task;
                let answer = of_option(task.poll(waker));
                (Some(Handle::Fallible(task)), answer)
            }
            Handle::Cancel(cancel) => {
                let mut cancel = cancel;
                let answer = of_option(cancel.poll(waker));
                match answer {
                    Ok(Answer::Pending) => (Some(Handle::Cancel(cancel)), answer),
                    _ => (None, answer),
                }
            }
        }
    }

    /// The handle that cancels the task, where this one doesn't yet.
    pub fn cancel(self) -> (Option<Handle<R>>, Answer) {
        match self {
            Handle::Task(task) => (Some(Handle::Cancel(task.cancel())), Answer::Done),
            Handle::Fallible(task) => (Some(Handle::Cancel(task.cancel())), Answer::Done),
            Handle::Cancel(cancel) => (Some(Handle::Cancel(cancel)), Answer::NotPossible),
        }
    }

    /// The handle that has None for an output where the task is closed.
    pub fn fallible(self) -> (Option<Handle<R>>, Answer) {
        match self {
            Handle::Task(task) => (Some(Handle::Fallible(task.fallible())), Answer::Done),
            Handle::Fallible(task) => (Some(Handle::Fallible(task)), Answer::NotPossible),
            Handle::Cancel(cancel) => (Some(Handle::Cancel(cancel)), Answer::NotPossible),
        }
    }

    /// Gives the handle up, where it doesn't cancel the task. The task goes on.
    pub fn detach(self) -> (Option<Handle<R>>, Answer) {
        match self {
            Handle::Task(task) => {
                drop(task.detach());
                (None, Answer::Done)
            }
            Handle::Fallible(task) => {
                drop(task.detach());
                (None, Answer::Done)
            }
            Handle::Cancel(cancel) => (Some(Handle::Cancel(cancel)), Answer::NotPossible),
        }
    }

    /// Drops the handle, by which the task is cancelled.
    pub fn give_up(self) -> (Option<Handle<R>>, Answer) {
        (None, Answer::Done)
    }

    /// Whether the task is finished.
    pub fn is_finished(&self) -> Answer {
        match self {
            Handle::Task(task) => Answer::Is(task.is_finished()),
            Handle::Fallible(task) => Answer::Is(task.is_finished()),
            Handle::Cancel(_) => Answer::NotPossible,
        }
    }

    /// The marks of the task.
    pub fn state(&self, alloc: Global) -> Result<Answer, AllocError> {
        let text = match self {
            Handle::Task(task) => format!(in alloc; "{task:?}")?,
            Handle::Fallible(task) => format!(in alloc; "{task:?}")?,
            Handle::Cancel(_) => return Ok(Answer::NotPossible),
        };
        let mut marks = String::new(alloc);
        marks.push_str(marks_of(text.as_str()))?;
        Ok(Answer::Text(marks))
    }

    /// The metadata of the task.
    pub fn metadata(&self) -> Answer {
        match self {
            Handle::Task(task) => Answer::Number(*task.metadata()),
            _ => Answer::NotPossible,
        }
    }
}

/// The marks in a text of `Debug`: what stands between the name of the type and the metadata.
pub fn marks_of(text: &str) -> &str {
    let Some((_, behind)) = text.split_once(" { ") else {
        return "";
    };
    match behind.split_once(", metadata") {
        Some((marks, _)) => marks,
        None => "",
    }
}

/// What a poll of a Task answers.
fn of_task<R: Runtime>(poll: Poll<Result<Output<R>, TaskError>>) -> Result<Answer, AllocError> {
    match poll {
        Poll::Pending => Ok(Answer::Pending),
        Poll::Ready(Ok(output)) => Ok(Answer::Ready(output.read())),
        Poll::Ready(Err(TaskError::TaskClosed)) => Ok(Answer::Cancelled),
        Poll::Ready(Err(TaskError::NoMemory)) => Err(AllocError),
    }
}

/// What a poll of a handle answers that has None where the task is closed.
fn of_option<R: Runtime>(
    poll: Poll<Result<Option<Output<R>>, NoMemory>>,
) -> Result<Answer, AllocError> {
    match poll {
        Poll::Pending => Ok(Answer::Pending),
        Poll::Ready(Ok(Some(output))) => Ok(Answer::Ready(output.read())),
        Poll::Ready(Ok(None)) => Ok(Answer::Cancelled),
        Poll::Ready(Err(NoMemory)) => Err(AllocError),
    }
}
