//! The executor's two queues and the runs' own queues, and what calls do with them.
ghost use Rattle.std.specs.Prelude.{◌≡◌, ◌<◌, ◌++◌, Some, IfErr, IfNone, IfOk, IfSome, is_ok};
ghost use Rattle.async_task.specs.declared.cell.Identity.{Identity};
ghost use Rattle.call_steps.specs.Closing.{closed};
ghost use Rattle.call_steps.specs.Fitting.{Fits};
ghost use Rattle.call_steps.specs.Seeing.{seen};
ghost use Rattle.call_steps.specs.Todo.{below, following, top};
ghost use Rattle.call_steps.specs.declared.names.Source.TheVariants as source;
ghost use Rattle.call_steps.specs.declared.saw.Saw.TheVariants as saw;
ghost use Rattle.call_steps.specs.declared.step.CallStep.TheVariants as step;
ghost use Rattle.call_steps.specs.declared.step.table.ClosingStep.TheVariants as closing_step;
ghost use Rattle.call_steps.specs.declared.step.table.QueueStep.TheVariants as queue_step;
ghost use Rattle.executor_parts.specs.declared.mark.Mark.{Mark};
ghost use Rattle.async_executor.specs.Deeds.{LooksAt, LooksOwn, took_by};
ghost use Rattle.async_executor.specs.Steps.{of_stored};

use super::Steps;
use crate::marked::Marked;
use crate::names::ExStoredRunnable;
use crate::task_name::TaskName;
use crate::turns::Turns;
use async_task::{NoMemory, Returning};
use call_steps::{Saw, Searcher, Source};
use concurrent_queue::ConcurrentQueue;
use executor_parts::Mark;
use std::alloc::Global;
use std::marker::Model;
use std::snapshot::Snapshot;
use std::sync::Wait;

pub mod steal;

/// A queue of Runnables. Only the deeds put in and take out what it holds.
pub struct Queue {
    items: ConcurrentQueue<Returning<ExStoredRunnable>>,
}

impl Model for Queue {
    ghost use Rattle.concurrent_queue.specs.SharedQueue.{SharedQueue};

    ghost Value = { SharedQueue };

    ghost view = { λ q. q.items };
}

/// Written out: it is proved once, for all in this crate that let one go.
impl Drop for Queue {
    fn drop(self) {
        let Queue { items: _items } = self;
    }
}

/// The executor's queues. Each has a place for each future that the executor accepts.
pub struct Queues {
    pub urgent: Queue,
    pub plain: Queue,
}

/// A queue that a call looks at: the executor's queue of a mark, or a run's own. Contracts see which. It is one word.
#[derive(Drop)]
pub struct At<'a> {
    queue: &'a Queue,
    source: Snapshot<Source<()>>,
}

impl<'a> Model for At<'a> {
    ghost use Rattle.call_steps.specs.declared.names.Source.{Source};

    ghost Value = { Source (Unit {0}) };

    ghost view = { λ a. a.source.value };
}

/// What a look at both queues has found. It has no drop, since it holds the Runnable.
#[must_use]
pub struct FromQueues {
    pub runnable: ExStoredRunnable,
    /// The mark of the queue that it stood in.
    pub mark: Mark,
}

/// Written out: it is proved once, for all in this crate that let one go.
impl Drop for Queues {
    fn drop(self) {
        let Queues {
            urgent: _urgent,
            plain: _plain,
        } = self;
    }
}

impl Queue {
    /// A queue with this many places.
    pub fn bounded(alloc: Global, places: usize) -> Result<Queue, NoMemory>
        requires { 0 < places }
        ensures { IfOk result (λ queue. queue.capacity ≡ Some places) }
    {
        match ConcurrentQueue::bounded(alloc, places) {
            Ok(items) => Ok(Queue { items }),
            Err(_) => Err(NoMemory),
        }
    }

    /// How many stand in it, as a text shows them.
    #[inline(always)]
    pub fn len<R: Wait>(&self, rt: &R) -> usize {
        self.items.len(rt)
    }
}

impl Queues {
    /// Two queues with this many places each.
    pub fn new(alloc: Global, limit: usize) -> Result<Queues, NoMemory>
        requires { 0 < limit }
        ensures urgent { IfOk result (λ queues. queues.urgent.capacity ≡ Some limit) }
        ensures plain { IfOk result (λ queues. queues.plain.capacity ≡ Some limit) }
    {
        let Ok(urgent) = Queue::bounded(alloc, limit) else {
            return Err(NoMemory);
        };
        let Ok(plain) = Queue::bounded(alloc, limit) else {
            return Err(NoMemory);
        };
        Ok(Queues { urgent, plain })
    }

    /// The queue of this mark.
    #[inline(always)]
    fn of(&self, mark: Mark) -> &Queue {
        match mark {
            Mark::Urgent => &self.urgent,
            Mark::Plain => &self.plain,
        }
    }
}

impl<'a> At<'a> {
    /// The executor's queue of this mark.
    #[inline(always)]
    pub fn common(queues: &'a Queues, mark: Mark) -> At<'a>
        ensures { result ≡ source.Common mark }
    {
        At {
            queue: queues.of(mark),
            source: Snapshot::of(&Source::Common(mark)),
        }
    }

    /// A run's own queue.
    #[inline(always)]
    pub fn own(queue: &'a Queue) -> At<'a>
        ensures { result ≡ source.Own tt }
    {
        At {
            queue,
            source: Snapshot::of(&Source::Own(())),
        }
    }
}

impl Steps {
    /// Takes a turn, which names a queue to look at.
    #[inline(always)]
    pub fn take_turn(&mut self, turns: &Turns) -> Mark
        requires { (m : Mark) → Fits (top self.old) (saw.Turn m) }
        ensures { self.new ≡ following (saw.Turn result) self.old }
    {
        let mark = turns.take();
        self.follow(Saw::Turn(mark));
        mark
    }

    /// Takes the first Runnable of this queue, where there is one.
    #[inline(always)]
    pub fn take<R: Wait>(
        &mut self,
        at: &At<'_>,
        by: Option<Searcher>,
        rt: &R,
    ) -> Option<ExStoredRunnable>
        requires looks { LooksAt at.now (top self.old) }
        requires found { (f : Identity) → Fits (top self.old) (took_by by (Some f)) }
        requires nothing { Fits (top self.old) saw.Nothing }
        ensures { self.new ≡ following (took_by by (of_stored result)) self.old }
    {
        let queue = at.queue;
        let Ok(first) = queue.items.pop(rt) else {
            self.follow(Saw::Nothing);
            return None;
        };
        let runnable = first.into_inner();
        self.see_found(&runnable, by);
        Some(runnable)
    }

    /// The same. An empty queue is left after loads alone, with no pop.
    #[inline(always)]
    pub fn take_unless_empty<R: Wait>(
        &mut self,
        at: &At<'_>,
        by: Option<Searcher>,
        rt: &R,
    ) -> Option<ExStoredRunnable>
        requires looks { LooksAt at.now (top self.old) }
        requires found { (f : Identity) → Fits (top self.old) (took_by by (Some f)) }
        requires nothing { Fits (top self.old) saw.Nothing }
        ensures { self.new ≡ following (took_by by (of_stored result)) self.old }
    {
        let queue = at.queue;
        if queue.items.is_empty(rt) {
            self.follow(Saw::Nothing);
            return None;
        }
        let Ok(first) = queue.items.pop(rt) else {
            self.follow(Saw::Nothing);
            return None;
        };
        let runnable = first.into_inner();
        self.see_found(&runnable, by);
        Some(runnable)
    }

    /// In a walk, takes the first Runnable of the own queue, where there is one. That nothing was there is recorded where the walk
    /// goes on.
    #[inline(always)]
    pub fn take_in_walk<R: Wait>(
        &mut self,
        own: &Queue,
        by: Searcher,
        rt: &R,
    ) -> Option<ExStoredRunnable>
        requires looks { LooksOwn (top self.old) }
        requires found { (f : Identity) → Fits (top self.old) (saw.FoundBy f by) }
        ensures found { IfSome result (λ r. self.new ≡ following (saw.FoundBy r.identity by) self.old) }
        ensures none { IfNone result (self.new ≡ self.old) }
    {
        let Ok(first) = own.items.pop(rt) else {
            return None;
        };
        let runnable = first.into_inner();
        self.follow(Saw::FoundBy(TaskName::of_runnable(&runnable), by));
        Some(runnable)
    }

    #[inline(always)]
    fn see_found(&mut self, runnable: &ExStoredRunnable, by: Option<Searcher>)
        requires { Fits (top self.old) (took_by by (Some runnable.now.identity)) }
        ensures { self.new ≡ following (took_by by (Some runnable.now.identity)) self.old }
    {
        let name = TaskName::of_runnable(runnable);
        match by {
            None => self.follow(Saw::Found(name)),
            Some(at) => self.follow(Saw::FoundBy(name, at)),
        }
    }

    /// Puts a Runnable into the executor's queue of its mark. Where the queue is closed the Runnable comes back.
    #[inline(always)]
    pub fn append<R: Wait>(
        &mut self,
        queues: &Queues,
        runnable: Marked,
        rt: &R,
    ) -> Result<(), ExStoredRunnable>
        requires { top self.old ≡ Some (step.Queue (queue_step.Append runnable.stored.identity)) }
        ensures steps { self.new ≡ following (seen (is_ok result)) self.old }
        ensures back { IfErr result (λ back. back ≡ runnable.stored) }
    {
        let Marked { mark, stored } = runnable;
        match queues.of(mark).items.push(rt, Returning::new(stored)) {
            Ok(()) => {
                self.follow(Saw::Something);
                Ok(())
            }
            Err(refused) => {
                self.follow(Saw::Nothing);
                Err(refused.into_inner().into_inner())
            }
        }
    }

    /// Closes the executor's queue of this mark.
    pub fn close_queue<R: Wait>(&mut self, queues: &Queues, mark: Mark, rt: &R)
        requires { top self.old ≡ Some (step.Closing (closing_step.Close mark)) }
        ensures { self.new ≡ closed mark ++ below self.old }
    {
        queues.of(mark).items.close(rt);
        self.follow(Saw::Nothing);
    }
}
