//! The runs' own queues, from which other runs steal.
ghost use Rattle.std.specs.Prelude.{◌≡◌, ◌<◌, [], drop as list_drop, slice_get, IfOk, IfErr, IfSome, OnOk, length};
ghost use Rattle.solo.specs.OwnQueues as own;

use crate::names::Task;
use std::alloc::{AllocError, Global};
use std::collections::VecDeque;
use std::marker::Model;

/// How many tasks a run's own queue holds at most.
pub const OWN_PLACES: usize = 512;

/// The own queue of a run. Its places are taken when it is made.
#[derive(Drop)]
pub struct OwnQueue {
    tasks: VecDeque<Task>,
}

impl Model for OwnQueue {
    ghost use Rattle.std.specs.Prelude.{List, ◌≤◌};
    ghost use Rattle.std.specs.VecDeque.{deque_capacity};
    ghost use Rattle.solo.specs.declared.names.Task.{Task as Name};

    ghost Value = { List Name };

    ghost view = { λ q. q.tasks.items };

    ghost invariant = { λ q. 512 ≤ deque_capacity q.tasks };
}

impl OwnQueue {
    /// An empty queue.
    fn new(alloc: Global) -> Result<OwnQueue, AllocError>
        ensures { IfOk result (λ q. q ≡ []) }
    {
        match VecDeque::with_capacity(alloc, OWN_PLACES) {
            Ok(tasks) => Ok(OwnQueue { tasks }),
            Err(error) => Err(error),
        }
    }

    /// A task comes last, where there is a place.
    fn push(&mut self, task: Task)
        ensures { self.new ≡ own.pushed task self.old }
    {
        if self.tasks.len() < OWN_PLACES {
            self.tasks.push_back_reserved(task);
        }
    }

    /// The first task leaves.
    pub fn pop(&mut self) -> Option<Task>
        ensures first { result ≡ slice_get self.old 0 }
        ensures rest { self.new ≡ list_drop 1 self.old }
    {
        self.tasks.pop_front()
    }

    /// How many there are.
    fn len(&self) -> usize
        ensures { result ≡ length self.now }
    {
        self.tasks.len()
    }
}

/// An own queue, under the number of its run.
#[derive(Drop)]
pub struct Own {
    number: u64,
    queue: OwnQueue,
}

/// The own queues of all runs that live.
#[derive(Drop)]
pub struct OwnQueues {
    // First those that other runs look at, in the order in which their runs were first polled.
    queues: Vec<Own>,
    // How many those are.
    listed: usize,
    // How many runs were made.
    made: u64,
    alloc: Global,
}

impl Model for OwnQueues {
    ghost use Rattle.solo.specs.OwnQueues.{OwnQueuesValue};

    ghost Value = { OwnQueuesValue };

    ghost view = { λ o. record { queues = o.queues.items; listed = o.listed; made = o.made } };
}

impl OwnQueues {
    /// No queues, which takes no memory.
    pub fn new(alloc: Global) -> OwnQueues
        ensures { result ≡ own.none }
    {
        OwnQueues {
            queues: Vec::new(alloc),
            listed: 0,
            made: 0,
            alloc,
        }
    }

    /// A queue for a new run, which nobody looks at yet. Its number is the answer. Refused, nothing changes.
    pub fn open(&mut self) -> Result<u64, AllocError>
        ensures ok { OnOk result (self.new ≡ own.opened self.old) }
        ensures number { IfOk result (λ number. number ≡ self.old.made) }
        ensures err { IfErr result (λ _. self.new ≡ self.old) }
    {
        let number = self.made;
        match OwnQueue::new(self.alloc) {
            Ok(queue) => match self.queues.push(Own { number, queue }) {
                Ok(()) => {
                    self.made = number.saturating_add(1);
                    Ok(number)
                }
                Err(_) => Err(AllocError),
            },
            Err(error) => Err(error),
        }
    }

    /// A run's queue comes last among those that others look at, if it isn't one of them.
    pub fn list(&mut self, number: u64)
        ensures { self.new ≡ own.listed number self.old }
    {
        if let Some(at) = place_of(self.queues.as_slice(), number) {
            if at >= self.listed {
                self.queues.as_mut_slice().swap(self.listed, at);
                self.listed += 1;
            }
        }
    }

    /// A run's queue goes.
    pub fn close(&mut self, number: u64) -> Option<OwnQueue>
        ensures queues { self.new ≡ own.closed number self.old }
        ensures queue { result ≡ own.queue_of number self.old.queues }
    {
        match place_of(self.queues.as_slice(), number) {
            Some(at) => {
                if at < self.listed {
                    self.listed -= 1;
                }
                let Own { number: _, queue } = self.queues.remove(at);
                Some(queue)
            }
            None => None,
        }
    }

    /// A task comes last in a run's queue, where there is a place.
    pub fn push(&mut self, number: u64, task: Task)
        ensures { self.new ≡ own.changed (own.pushed task) number self.old }
    {
        if let Some(at) = place_of(self.queues.as_slice(), number) {
            self.queues[at].queue.push(task);
        }
    }

    /// The first task of a run's queue leaves it.
    pub fn pop(&mut self, number: u64) -> Option<Task>
        ensures first { result ≡ own.first_of number self.old }
        ensures queues { self.new ≡ own.changed (list_drop 1) number self.old }
    {
        match place_of(self.queues.as_slice(), number) {
            Some(at) => self.queues[at].queue.pop(),
            None => None,
        }
    }

    /// How many tasks a run's queue has.
    pub fn len(&self, number: u64) -> usize
        ensures { result ≡ own.count_of number self.now }
    {
        match place_of(self.queues.as_slice(), number) {
            Some(at) => self.queues[at].queue.len(),
            None => 0,
        }
    }

    /// How many places of a run's queue are free.
    pub fn free(&self, number: u64) -> usize
        ensures { result ≡ own.free_of number self.now }
    {
        match place_of(self.queues.as_slice(), number) {
            Some(at) => OWN_PLACES.saturating_sub(self.queues[at].queue.len()),
            None => 0,
        }
    }

    /// How many queues others look at.
    pub fn listed_count(&self) -> usize
        ensures { result ≡ self.now.listed }
    {
        self.listed
    }

    /// How many tasks the queue has that is at this place of those that others look at.
    pub fn length_at(&self, at: usize) -> Option<usize>
        ensures { result ≡ own.length_at at self.now }
    {
        if at >= self.listed {
            return None;
        }
        match self.queues.as_slice().get(at) {
            Some(own) => Some(own.queue.len()),
            None => None,
        }
    }

    /// The number of the run whose queue is at this place.
    pub fn number_at(&self, at: usize) -> u64
        ensures { result ≡ own.number_at at self.now.queues }
    {
        match self.queues.as_slice().get(at) {
            Some(own) => own.number,
            None => 0,
        }
    }
}

/// Where the first queue with this number is.
fn place_of(queues: &[Own], number: u64) -> Option<usize>
    ensures place { result ≡ own.place_of number queues.now }
    ensures within { IfSome result (λ at. at < length queues.now) }
{
    queues.iter().position(|own| own.number == number)
}
