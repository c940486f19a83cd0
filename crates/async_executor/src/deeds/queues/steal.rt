//! How a run steals from a queue, as its call has to do next.
ghost use Rattle.std.specs.Prelude.{◌≡◌, ◌<◌, ◌-◌, true, false};
ghost use Rattle.call_steps.specs.Stealing.{share, steal_on, stolen_as};
ghost use Rattle.async_executor.specs.Runs.{poll_with, puts, reads_length, reads_own_length, robbed, steal_with};
ghost use Rattle.async_executor.specs.Steps.{of_stored};

use super::{At, Queue};
use crate::deeds::Steps;
use crate::names::ExStoredRunnable;
use crate::state::OWN_PLACES;
use crate::task_name::TaskName;
use async_task::Returning;
use call_steps::{Saw, Searcher, Then, Waker};
use std::sync::Wait;

/// What a steal is, as contracts see it: the waker that the run was polled with, and what it goes on with; and how far the run had
/// counted as it began to search.
#[derive(Drop)]
pub struct Theft<'a> {
    pub name: &'a Waker<TaskName>,
    pub then: &'a Then<TaskName>,
    pub at: Searcher,
}

/// Moves about half of what stands in a queue into a run's own queue.
///
/// 1. Reads the length of the source. Where that is 0, it does nothing more.
/// 2. Reads the length of the own queue, and so how many places are free there.
/// 3. Moves (the length of the source + 1) / 2 items, at most as many as were free; a take that finds nothing ends it.
///
/// A Runnable that comes back from the own queue ends it too, and is the answer: it is closed once no lock is held. As a run alone
/// appends to its own queue, the free places that it saw stay free.
pub fn steal<R: Wait>(
    rt: &R,
    from: &At<'_>,
    own: &Queue,
    theft: &Theft<'_>,
    steps: &mut Steps,
) -> Option<ExStoredRunnable>
    requires { steps.old ≡ reads_length theft.now.name.now from.now theft.now.then.now }
    ensures { steps.new ≡ robbed theft.now.name.now theft.now.then.now theft.now.at (of_stored result) }
{
    let source = from.queue;
    let length = source.items.len(rt);
    if !theft.see_length(from, length, steps) {
        return None;
    }
    let free = OWN_PLACES.saturating_sub(own.items.len(rt));
    let moves = theft.see_free(from, length, free, steps);
    for moved in 0..moves {
        let Ok(runnable) = source.items.pop(rt) else {
            theft.see_end(from, moves - moved, steps);
            return None;
        };
        let stored = runnable.into_inner();
        theft.see_taken(from, &stored, moves - moved, steps);
        match own.items.push(rt, Returning::new(stored)) {
            Ok(()) => steps.follow(Saw::Fits(theft.at)),
            Err(refused) => {
                steps.follow(Saw::Refused(theft.at));
                return Some(refused.into_inner().into_inner());
            }
        }
    }
    None
}

impl Theft<'_> {
    /// This many stand in the source. Answers whether there is something to steal.
    #[inline(always)]
    fn see_length(&self, from: &At<'_>, length: usize, steps: &mut Steps) -> bool
        requires { steps.old ≡ reads_length self.now.name.now from.now self.now.then.now }
        ensures some { result ≡ true → steps.new ≡ reads_own_length self.now.name.now from.now self.now.then.now length }
        ensures none { result ≡ false → steps.new ≡ stolen_as self.now.then.now self.now.at (poll_with self.now.name.now) }
    {
        let _ = from;
        steps.follow(Saw::Number(length as u64, self.at));
        length != 0
    }

    /// This many places are free in the own queue. Answers how many are to be moved.
    #[inline(always)]
    fn see_free(&self, from: &At<'_>, length: usize, free: usize, steps: &mut Steps) -> usize
        requires { steps.old ≡ reads_own_length self.now.name.now from.now self.now.then.now length }
        ensures { steps.new ≡ steal_on result self.now.at (steal_with self.now.name.now from.now self.now.then.now) }
    {
        let _ = from;
        steps.follow(Saw::Number(free as u64, self.at));
        share_of(length, free)
    }

    /// This Runnable was taken from the source, where this many were still to be taken.
    #[inline(always)]
    fn see_taken(&self, from: &At<'_>, runnable: &ExStoredRunnable, more: usize, steps: &mut Steps)
        requires some { 0 < more }
        requires takes { steps.old ≡ steal_on more self.now.at (steal_with self.now.name.now from.now self.now.then.now) }
        ensures { steps.new ≡ puts self.now.name.now from.now self.now.then.now (more - 1) runnable.now.identity }
    {
        let (_, _) = (from, more);
        steps.follow(Saw::Found(TaskName::of_runnable(runnable)));
    }

    /// Nothing was there any more, where this many were still to be taken.
    #[inline(always)]
    fn see_end(&self, from: &At<'_>, more: usize, steps: &mut Steps)
        requires some { 0 < more }
        requires takes { steps.old ≡ steal_on more self.now.at (steal_with self.now.name.now from.now self.now.then.now) }
        ensures { steps.new ≡ stolen_as self.now.then.now self.now.at (poll_with self.now.name.now) }
    {
        let (_, _) = (from, more);
        steps.follow(Saw::StealEnds(self.at));
    }
}

/// About half of this many, at most as many as places are free.
#[inline(always)]
fn share_of(length: usize, free: usize) -> usize
    ensures { result ≡ share length free }
{
    let half = length.div_ceil(2);
    if half < free {
        return half;
    }
    free
}
