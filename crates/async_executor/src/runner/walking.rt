//! How a run walks round the queues of the others, as its call has to do next.
ghost use Rattle.std.specs.Prelude.{◌≡◌, None, Some, length};
ghost use Rattle.call_steps.specs.declared.names.Then.TheVariants as then;
ghost use Rattle.async_executor.specs.Runs.{looked_walking, robbed, walks};
ghost use Rattle.async_executor.specs.Searched.{searched, walked};
ghost use Rattle.async_executor.specs.Seeds.{words_after};
ghost use Rattle.async_executor.specs.Steps.{of_stored};

use super::{Runner, Search, Searched};
use crate::deeds::Steps;
use crate::deeds::queues::steal::{Theft, steal};
use crate::deeds::queues::{At, Queue};
use crate::entry::Unlocked;
use crate::names::ExStoredRunnable;
use crate::own_queues::Numbered;
use crate::state::State;
use crate::walks::Walk;
use call_steps::Then;
use std::alloc::Global;
use std::sync::{Arc, Wait};

impl Runner {
    /// Steals from the queues of other runs, one after the other, until the own queue has something, or gives something back.
    pub fn walk<W: Drop, R: Wait>(
        &mut self,
        rt: &R,
        state: &State<W>,
        search: &Search<'_>,
        steps: &mut Steps,
        unlocked: &mut Unlocked,
    ) -> Searched
        requires { steps.old ≡ walks search.now.name.now None }
        ensures { steps.new ≡ searched search.now.at search.now.name.now result }
    {
        let reading = state.own_queues.read(rt, unlocked);
        let walked = self.walk_round(rt, reading.get().all(), search, steps);
        steps.unlock_read(reading, &walked, search);
        walked
    }

    /// The section of the list's lock in which a run walks round its queues. Of an empty list it reads no word.
    fn walk_round<R: Wait>(
        &mut self,
        rt: &R,
        queues: &[Numbered<Arc<Queue, Global>>],
        search: &Search<'_>,
        steps: &mut Steps,
    ) -> Searched
        requires { steps.old ≡ walks search.now.name.now None }
        ensures steps { steps.new ≡ walked search.now.at search.now.name.now result }
        ensures words { self.new.words ≡ words_after (length queues.now) self.old.words }
    {
        if queues.is_empty() {
            search.end_walk(&None, steps);
            return Searched::Nothing;
        }
        let walk = Walk::begin(&mut self.words, queues.len());
        let mut behind = None;
        for nth in 0..queues.len() {
            let listed = &queues[walk.place(nth)];
            if listed.number == self.number {
                continue;
            }
            let left = (queues.len() - nth - 1) as u64;
            let queue = &listed.queue;
            if let Some(refused) = self.steal_in_walk(rt, queue, left, &behind, search, steps) {
                return Searched::Refused(refused);
            }
            behind = Some(left);
            if let Some(found) = self.look_own_in_walk(rt, left, search, steps) {
                return Searched::Found(found);
            }
        }
        search.end_walk(&behind, steps);
        Searched::Nothing
    }

    /// In a walk, steals from this queue, with this many still to go to.
    fn steal_in_walk<R: Wait>(
        &self,
        rt: &R,
        queue: &Queue,
        left: u64,
        behind: &Option<u64>,
        search: &Search<'_>,
        steps: &mut Steps,
    ) -> Option<ExStoredRunnable>
        requires { steps.old ≡ walks search.now.name.now behind.now }
        ensures { steps.new ≡ robbed search.now.name.now (then.Walk left) search.now.at (of_stored result) }
    {
        search.go_to(left, behind, steps);
        let theft = Theft {
            name: search.name,
            then: &Then::Walk(left),
            at: search.at,
        };
        steal(rt, &At::own(queue), &self.own, &theft, steps)
    }

    /// In a walk, looks into the own queue, with this many still to go to.
    #[inline(always)]
    fn look_own_in_walk<R: Wait>(
        &self,
        rt: &R,
        left: u64,
        search: &Search<'_>,
        steps: &mut Steps,
    ) -> Option<ExStoredRunnable>
        requires { steps.old ≡ walks search.now.name.now (Some left) }
        ensures { steps.new ≡ looked_walking search.now.at search.now.name.now left (of_stored result) }
    {
        let _ = left;
        steps.take_in_walk(&self.own, search.at, rt)
    }
}
