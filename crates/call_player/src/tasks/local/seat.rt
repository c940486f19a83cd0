//! A task of one owner, and what its owner knows of it.
use crate::tasks::answer::Answer;
use crate::tasks::command::{Item, Name};
use crate::tasks::counts::Counts;
use async_task::LocalTask;
use async_task::moves::State;
use std::alloc::{AllocError, Global};

/// A future that does what its items say.
#[derive(Drop)]
pub struct Work {
    pub items: Vec<Item>,
    /// Which item the next poll does.
    pub next: usize,
}

/// Who awaits a task.
#[derive(Clone, Copy)]
pub enum Caller {
    /// A waker from outside.
    Bell(Name),
    /// A waker of this task, which counts there.
    Task(Name),
}

/// Of which type the handle of a task is.
#[derive(Clone, Copy)]
pub enum Kind {
    Task,
    Fallible,
    Cancel,
}

pub type ScriptTask = LocalTask<Work, u64, Caller>;

/// A name, with its task where one was spawned.
#[derive(Drop)]
pub struct Seat {
    pub name: String,
    pub task: Option<ScriptTask>,
    pub handle: Option<Kind>,
    pub metadata: u64,
    /// How many of the task's wakers are kept. They all wake the same.
    pub kept: u64,
    pub counts: Counts,
    /// Whether nobody is left who could reach the task.
    pub is_left: bool,
}

impl Seat {
    /// A name that has no task yet.
    pub fn new(name: String) -> Seat {
        Seat {
            name,
            task: None,
            handle: None,
            metadata: 0,
            kept: 0,
            counts: Counts::new(),
            is_left: false,
        }
    }

    /// Whether nobody is left to reach the task, which was so not yet when this was asked before.
    pub fn is_left_now(&mut self) -> bool {
        match &self.task {
            Some(task) if !self.is_left => {
                self.is_left = task.is_unreachable();
                self.is_left
            }
            _ => false,
        }
    }

    pub fn is_finished(&self) -> Answer {
        match &self.task {
            Some(task) => Answer::Is(task.is_finished()),
            None => Answer::NotPossible,
        }
    }

    /// The marks of the task.
    pub fn marks(&self, alloc: Global) -> Result<String, AllocError> {
        let Some(task) = &self.task else {
            return Ok(String::new(alloc));
        };
        let State {
            scheduled,
            running,
            completed,
            closed,
            handle,
            awaiter,
            registering: _,
            notifying: _,
            references,
        } = task.state();
        Ok(format!(in alloc;
            "scheduled: {scheduled}, running: {running}, completed: {completed}, closed: {closed}, \
            awaiter: {awaiter}, task: {handle}, ref_count: {references}"
        )?)
    }
}
