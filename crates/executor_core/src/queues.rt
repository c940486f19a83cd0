//! The executor's two queues, by the marks of the futures in them.
ghost use Rattle.std.specs.Prelude.{◌≡◌, ◌+◌, ◌<◌, true, false, Some, [], length, slice_get};
ghost use Rattle.std.specs.Prelude.{IfNone, IfSome, OnOk};
ghost use Rattle.queue_steps.specs.ClosableQueue.{appended, shut, taken};
ghost use Rattle.executor_model.specs.Queues.{new_queues, queue_in, with_queue};

use executor_parts::Mark;
use std::alloc::{AllocError, Global};
use std::collections::VecDeque;
use std::marker::Model;

/// One queue: the Runnables, by their futures.
#[derive(Drop)]
struct Line {
    items: VecDeque<u64>,
    closed: bool,
}

/// The queues, of so many places each. Contracts see them as the model does, and whether each has room for one more.
#[derive(Drop)]
pub struct Queues {
    urgent: Line,
    plain: Line,
    limit: u64,
}

impl Model for Queues {
    ghost use Rattle.executor_core.specs.Queueing.{Queueing, has_room, line_of};

    ghost Value = { Queueing };

    ghost view = { λ q. record {
      queues = record { urgent = line_of q.urgent q.limit; plain = line_of q.plain q.limit };
      has_room = has_room q.urgent q.plain;
    } };
}

impl Queues {
    /// Both empty, of so many places, which takes no memory.
    pub fn new(alloc: Global, limit: u64) -> Queues
        ensures { result.queues ≡ new_queues (Some limit) }
    {
        Queues {
            urgent: Line {
                items: VecDeque::new(alloc),
                closed: false,
            },
            plain: Line {
                items: VecDeque::new(alloc),
                closed: false,
            },
            limit,
        }
    }

    /// Makes room for one more in each. They stay as they were.
    pub fn reserve(&mut self) -> Result<(), AllocError>
        ensures same { self.new.queues ≡ self.old.queues }
        ensures room { OnOk result (self.new.has_room ≡ true) }
    {
        self.urgent.items.reserve(1)?;
        self.plain.items.reserve(1)?;
        Ok(())
    }

    /// How many Runnables stand in the queue of this mark.
    pub fn len(&self, mark: Mark) -> u64
        ensures { result ≡ length (queue_in mark self.now.queues).items }
    {
        match mark {
            Mark::Urgent => self.urgent.items.len() as u64,
            Mark::Plain => self.plain.items.len() as u64,
        }
    }

    /// Whether that is closed.
    pub fn is_closed(&self, mark: Mark) -> bool
        ensures { result ≡ (queue_in mark self.now.queues).closed }
    {
        match mark {
            Mark::Urgent => self.urgent.closed,
            Mark::Plain => self.plain.closed,
        }
    }

    /// A Runnable is appended to that, which takes no memory.
    pub fn append(&mut self, mark: Mark, f: u64)
        requires { self.old.has_room ≡ true }
        ensures { self.new.queues ≡ with_queue mark (appended (queue_in mark self.old.queues) f) self.old.queues }
    {
        match mark {
            Mark::Urgent => self.urgent.items.push_back_reserved(f),
            Mark::Plain => self.plain.items.push_back_reserved(f),
        }
    }

    /// The first Runnable of that is taken, where there is one.
    pub fn take(&mut self, mark: Mark) -> Option<u64>
        ensures none { IfNone result (((queue_in mark self.old.queues).items ≡ []) × (self.new.queues ≡ self.old.queues)) }
        ensures some { IfSome result (λ f. slice_get (queue_in mark self.old.queues).items 0 ≡ Some f) }
        ensures rest { IfSome result (λ f.
            self.new.queues ≡ with_queue mark (taken (queue_in mark self.old.queues)) self.old.queues) }
    {
        match mark {
            Mark::Urgent => self.urgent.items.pop_front(),
            Mark::Plain => self.plain.items.pop_front(),
        }
    }

    /// That is closed.
    pub fn close(&mut self, mark: Mark)
        ensures { self.new.queues ≡ with_queue mark (shut (queue_in mark self.old.queues)) self.old.queues }
    {
        match mark {
            Mark::Urgent => self.urgent.closed = true,
            Mark::Plain => self.plain.closed = true,
        }
    }
}
