//! The own queue of a run, and how a run searches.
ghost use Rattle.std.specs.Prelude.{◌≡◌, ◌∷◌, [], true, false, None, Some, IfOk};
ghost use Rattle.std.specs.Arc.{arc_value};
ghost use Rattle.call_steps.specs.Begins.{poll_run};
ghost use Rattle.call_steps.specs.Stealing.{is_walk, stolen_as};
ghost use Rattle.call_steps.specs.declared.names.Source.TheVariants as source;
ghost use Rattle.call_steps.specs.declared.names.Then.TheVariants as then;
ghost use Rattle.call_steps.specs.declared.names.TickOrRun.TheVariants as tick_or_run;
ghost use Rattle.call_steps.specs.declared.reply.Reply.TheVariants as reply;
ghost use Rattle.call_steps.specs.declared.step.CallStep.TheVariants as step;
ghost use Rattle.call_steps.specs.declared.step.tick.TickStep.TheVariants as tick_step;
ghost use Rattle.call_steps.specs.declared.step.user.UserStep.TheVariants as user_step;
ghost use Rattle.executor_parts.specs.declared.mark.Mark.TheVariants as mark;
ghost use Rattle.async_executor.specs.Seeds.{seeded};
ghost use Rattle.async_executor.specs.Making.{IsUnlisted};
ghost use Rattle.async_executor.specs.OwnQueues.{listed};
ghost use Rattle.async_executor.specs.Runs.{poll_with, reads_length, robbed, runs};
ghost use Rattle.async_executor.specs.Runs.{searched_by_run, stage_by};
ghost use Rattle.async_executor.specs.Searched.{searched};
ghost use Rattle.async_executor.specs.Steps.{of_stored};
ghost use Rattle.async_executor.specs.Ticks.{sleeping};

use crate::counts::OwesSteal;
use crate::deeds::Steps;
use crate::deeds::queues::steal::{Theft, steal};
use crate::deeds::queues::{At, FromQueues, Queue};
use crate::due::{close_and_pay, share};
use crate::entry::Unlocked;
use crate::names::{ExRealm, ExStoredRunnable};
use crate::own_queues::{OwnQueues, RunRoom};
use crate::state::{OWN_PLACES, State};
use crate::task_name::TaskName;
use async_task::{NoMemory, Output, OutsideWaker, Runtime};
use call_steps::{Searcher, Then, Waker};
use executor_parts::Mark;
use rand_core::SeedableRng;
use rand_xoshiro::Xoshiro256PlusPlus;
use std::alloc::Global;
use std::sync::{Arc, Wait};

mod ending;
mod walking;

/// The parameters of a run's search, as contracts see them: the name of the waker that the run was polled with, and how far it had
/// counted as it began to search.
#[derive(Drop)]
pub struct Search<'a> {
    pub name: &'a Waker<TaskName>,
    pub at: Searcher,
}

/// The outcome of a search.
pub enum Searched {
    Found(ExStoredRunnable),
    Nothing,
    /// The own queue was full and gave this Runnable back, which ended the walk.
    Refused(ExStoredRunnable),
}

/// A run's own part among the queues.
pub struct Runner {
    own: Arc<Queue, Global>,
    // Its room in the executor's list, until it has left the list.
    room: Option<RunRoom>,
    // The number under which the own queue stands there.
    number: u64,
    // Whether it was put there, at the first poll.
    is_listed: bool,
    // Whether the own queue was found empty once it stood in no list.
    is_drained: bool,
    // Says at which queue each walk starts.
    words: Xoshiro256PlusPlus,
}

impl Runner {
    /// Makes an own queue, whose places are taken here, and sets where walks start.
    pub fn new<W, R: Wait>(
        rt: &R,
        alloc: Global,
        state: &State<W>,
        seed: u64,
        unlocked: &mut Unlocked,
    ) -> Result<Runner, NoMemory>
        ensures words { IfOk result (λ runner. runner.words ≡ seeded seed) }
        ensures unlisted { IfOk result (λ runner. IsUnlisted runner) }
        ensures own { IfOk result (λ runner. (arc_value runner.own).capacity ≡ Some 512) }
    {
        let Ok(own) = Queue::bounded(alloc, OWN_PLACES) else {
            return Err(NoMemory);
        };
        let Ok(own) = Arc::new(alloc, own) else {
            return Err(NoMemory);
        };
        let room = state.own_queues.write(rt, unlocked).get().take_room();
        match room {
            Ok(room) => Ok(Runner {
                own,
                number: room.number(),
                room: Some(room),
                is_listed: false,
                is_drained: false,
                words: Xoshiro256PlusPlus::seed_from_u64(seed),
            }),
            Err(_) => Err(NoMemory),
        }
    }

    /// Ends the own queue, which is empty and in no list.
    pub fn finish(self)
        requires drained { self.is_drained ≡ true }
        requires left { self.room ≡ None }
    {
        let Runner {
            own,
            room,
            number: _,
            is_listed: _,
            is_drained: _,
            words: _,
        } = self;
        drop(own);
        match room {
            None => {}
            Some(_room) => unreachable!(),
        }
    }

    /// Puts the own queue into the executor's list, where it isn't there yet. Answers whether there was memory for it.
    pub fn begin<W: Drop, R: Wait + Copy + Drop>(
        &mut self,
        rt: R,
        state: &State<W>,
        name: &Waker<TaskName>,
        steps: &mut Steps,
        unlocked: &mut Unlocked,
    ) -> bool
        requires { steps.old ≡ poll_run (stage_by false self.old.is_listed) (poll_with name.now) }
        ensures listed { result ≡ true → self.new ≡ record self.old { is_listed = true } }
        ensures polls { result ≡ true → steps.new ≡ step.User (user_step.PollOwn (poll_with name.now)) ∷ [] }
        ensures refused { result ≡ false → steps.new ≡ step.End reply.NoMemory ∷ [] }
        ensures same { result ≡ false → self.new ≡ self.old }
    {
        if self.is_listed {
            return true;
        }
        if steps.register(self, state, name, rt, unlocked) {
            self.is_listed = true;
            return true;
        }
        false
    }

    /// Puts the own queue into the list, which may refuse it.
    pub fn list<W: Drop, R: Wait + Copy + Drop>(
        &self,
        rt: R,
        state: &State<W>,
        unlocked: &mut Unlocked,
    ) -> bool {
        match &self.room {
            Some(room) => {
                let queue = share(rt, &self.own);
                list_in(state.own_queues.write(&rt, unlocked).get(), room, queue)
            }
            // It has left the list, and isn't polled again.
            None => false,
        }
    }

    /// The steal at each 64th task, before this task, which it has counted, is run. It steals from the executor's urgent queue,
    /// and then from the plain one.
    pub fn pay<T: Output, W: OutsideWaker, R: Runtime>(
        &mut self,
        rt: R,
        state: &State<W>,
        realm: &'static ExRealm<T, W, R>,
        owed: OwesSteal,
        search: &Search<'_>,
        found: &ExStoredRunnable,
        steps: &mut Steps,
        unlocked: &mut Unlocked,
    )
        requires { steps.old ≡ reads_length search.now.name.now (source.Common mark.Urgent) (then.StealPlain found.now.identity) }
        ensures { steps.new ≡ runs search.now.at search.now.name.now found.now.identity }
    {
        owed.pay();
        let (urgent, plain) = (Mark::Urgent, Mark::Plain);
        let then = Then::StealPlain(TaskName::of_runnable(found));
        self.steal_from(urgent, rt, state, realm, search, &then, steps, unlocked);
        let then = Then::Run(TaskName::of_runnable(found));
        self.steal_from(plain, rt, state, realm, search, &then, steps, unlocked);
    }

    /// Steals from the executor's queue of this mark, and goes on with this.
    fn steal_from<T: Output, W: OutsideWaker, R: Runtime>(
        &self,
        mark: Mark,
        rt: R,
        state: &State<W>,
        realm: &'static ExRealm<T, W, R>,
        search: &Search<'_>,
        then: &Then<TaskName>,
        steps: &mut Steps,
        unlocked: &mut Unlocked,
    )
        requires apart { is_walk then.now ≡ false }
        requires steals { steps.old ≡ reads_length search.now.name.now (source.Common mark) then.now }
        ensures { steps.new ≡ stolen_as then.now search.now.at (poll_with search.now.name.now) }
    {
        let theft = Theft {
            name: search.name,
            then,
            at: search.at,
        };
        let from = At::common(&state.queues, mark);
        let refused = steal(&rt, &from, &self.own, &theft, steps);
        drop_refused(rt, realm, refused, &theft, steps, unlocked);
    }

    /// The next Runnable of the run, or None where none was found. A Runnable that its own queue gave back in a walk is closed,
    /// and it searches anew.
    pub fn search<T: Output, W: OutsideWaker, R: Runtime>(
        &mut self,
        rt: R,
        state: &State<W>,
        realm: &'static ExRealm<T, W, R>,
        search: &Search<'_>,
        steps: &mut Steps,
        unlocked: &mut Unlocked,
    ) -> Option<ExStoredRunnable>
        requires { steps.old ≡ step.Tick (tick_step.Search (sleeping (tick_or_run.Run tt) search.now.name.now)) ∷ [] }
        ensures { steps.new ≡ searched_by_run search.now.at search.now.name.now (of_stored result) }
    {
        for _ in rt.forever() {
            match self.search_once(rt, state, realm, search, steps, unlocked) {
                Searched::Found(runnable) => return Some(runnable),
                Searched::Nothing => return None,
                Searched::Refused(runnable) => {
                    close_and_pay(rt, realm, steps, runnable, unlocked);
                }
            }
        }
        unreachable!()
    }

    /// Searches once.
    ///
    /// 1. The first of its own queue.
    /// 2. The first of the global queue that its turn names, or else of the other one. Then it steals from the queue where that
    /// stood.
    /// 3. Under the read lock of the list, round the other runs' queues from the starting place: it steals from each, and
    ///    takes the first of its own queue.
    fn search_once<T: Output, W: OutsideWaker, R: Runtime>(
        &mut self,
        rt: R,
        state: &State<W>,
        realm: &'static ExRealm<T, W, R>,
        search: &Search<'_>,
        steps: &mut Steps,
        unlocked: &mut Unlocked,
    ) -> Searched
        requires { steps.old ≡ step.Tick (tick_step.Search (sleeping (tick_or_run.Run tt) search.now.name.now)) ∷ [] }
        ensures { steps.new ≡ searched search.now.at search.now.name.now result }
    {
        if let Some(runnable) = steps.take(&At::own(&self.own), Some(search.at), &rt) {
            return Searched::Found(runnable);
        }
        if let Some(FromQueues { runnable, mark }) = state.look_common(&rt, search.name, steps) {
            let then = Then::Found(TaskName::of_runnable(&runnable));
            self.steal_from(mark, rt, state, realm, search, &then, steps, unlocked);
            return Searched::Found(runnable);
        }
        self.walk(&rt, state, search, steps, unlocked)
    }
}

/// The section of the list's lock in which a run's own queue comes into it. Answers whether there was memory for it. A refusal
/// leaves the list as it was.
fn list_in<Q: Drop>(queues: &mut OwnQueues<Q>, room: &RunRoom, queue: Q) -> bool
    ensures listed { result ≡ true → queues.new.queues.items ≡ listed room.now.number queue queues.old.queues.items }
    ensures refused { result ≡ false → queues.new.queues.items ≡ queues.old.queues.items }
{
    queues.insert(room, queue).is_ok()
}

/// Closes a Runnable that came back from a full queue, where one did. No lock is held, as this was no walk.
#[tactic(auto, using(crate::proofs::Refusing::drops_it))]
fn drop_refused<T: Output, W: OutsideWaker, R: Runtime>(
    rt: R,
    realm: &'static ExRealm<T, W, R>,
    refused: Option<ExStoredRunnable>,
    theft: &Theft<'_>,
    steps: &mut Steps,
    unlocked: &mut Unlocked,
)
    requires apart { is_walk theft.now.then.now ≡ false }
    requires steals { steps.old ≡ robbed theft.now.name.now theft.now.then.now theft.now.at (of_stored refused) }
    ensures { steps.new ≡ stolen_as theft.now.then.now theft.now.at (poll_with theft.now.name.now) }
{
    let _ = theft;
    if let Some(stored) = refused {
        close_and_pay(rt, realm, steps, stored, unlocked);
    }
}
