//! The tasks that wait for their turn.
ghost use Rattle.std.specs.Prelude.{◌≡◌, ◌<◌, IfOk, Some, slice_get, length};
ghost use Rattle.queue_steps.specs.ClosableQueue.{new_queue, count_of_new, taken, shut};
ghost use Rattle.solo.specs.Line.{pushed, accepts};

use crate::names::Task;
use queue_steps::{Exclusive, NoMemory};
use std::alloc::Global;
use std::marker::Model;

/// A queue of tasks with a limit, whose places are taken when it is made: no later call takes memory.
#[derive(Drop)]
pub struct Line {
    queue: Exclusive<Task>,
}

impl Model for Line {
    ghost use Rattle.queue_steps.specs.ClosableQueue.{ClosableQueue};
    ghost use Rattle.solo.specs.declared.names.Task.{Task as Name};
    ghost use Rattle.std.specs.Prelude.{IsSome};

    ghost Value = { ClosableQueue Name };

    ghost view = { λ l. l.queue };

    ghost invariant = { λ l. IsSome l.queue.capacity };
}

impl Line {
    /// An empty queue for at most `limit` tasks.
    pub fn new(alloc: Global, limit: usize) -> Result<Line, NoMemory>
        requires { 0 < limit }
        ensures { IfOk result (λ l. l ≡ new_queue (Some limit) (count_of_new limit)) }
    {
        match Exclusive::bounded(alloc, limit) {
            Ok(queue) => Ok(Line { queue }),
            Err(error) => Err(error),
        }
    }

    /// A task comes last. False where it is turned away, as the queue is closed or full.
    #[inline(always)]
    pub fn push(&mut self, task: Task) -> bool
        ensures line { self.new ≡ pushed task self.old }
        ensures accepted { result ≡ accepts self.old }
    {
        match self.queue.push(task) {
            Ok(()) => true,
            Err(_) => false,
        }
    }

    /// The first task leaves.
    #[inline(always)]
    pub fn pop(&mut self) -> Option<Task>
        ensures first { result ≡ slice_get self.old.items 0 }
        ensures line { self.new ≡ taken self.old }
    {
        match self.queue.pop() {
            Ok(task) => Some(task),
            Err(_) => None,
        }
    }

    /// No task comes any more.
    pub fn close(&mut self)
        ensures { self.new ≡ shut self.old }
    {
        self.queue.close();
    }

    /// How many wait.
    pub fn len(&self) -> usize
        ensures { result ≡ length self.now.items }
    {
        self.queue.len()
    }
}
