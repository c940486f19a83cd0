//! The machine, whose parties take one step at a time.
ghost use Rattle.std.specs.Prelude.{◌≡◌, ◌⊎◌, ℕ, ◌+◌, ◌<◌, ◌≤◌, Some, None, Ok, Err, vec_len, vec_capacity};
ghost use Rattle.std.specs.Prelude.{OnOk, IfOk, IfErr, IfSome, true};
ghost use Rattle.std.specs.VecDeque.{deque_len, deque_capacity};
ghost use Rattle.std.specs.Prelude.{MatchOption, slice_get, take, List, length, map};
ghost use Rattle.executor_model.specs.Steps as steps;
ghost use Rattle.executor_model.specs.Executions.{run_all};
ghost use Rattle.executor_model.specs.World.{awaiter_of};
ghost use Rattle.executor_core.specs.Views.{world_of, state_of, HasRoom, HasSpace};
ghost use Rattle.executor_core.specs.AllLaws.{AllLaws};
ghost use Rattle.executor_core.specs.Reached.{IsReached};
ghost use Rattle.executor_core.specs.Refused.{IsRefused, waits_for_lock};

use crate::laws::all_laws;
use crate::part::take_part;
use crate::possible::{go_waits, has_handle, part_refusal};
use crate::queues::Queues;
use crate::runs::TicksAndRuns;
use crate::store::Store;
use crate::table::Entries;
use executor_model::{Awaiter, Event, Kind, Op, Step, StepError};
use std::alloc::{AllocError, Global};
use std::collections::VecDeque;
use std::marker::Model;

/// An executor of one step at a time. Its value is the state of the model: the tasks, the queue, the
/// table, the wakers, the trace, and what each party has still to do.
#[derive(Drop)]
pub struct Machine {
    store: Store,
    parties: Vec<Vec<Op>>,
}

impl Model for Machine {
    ghost use Rattle.std.specs.Prelude.{map};
    ghost use Rattle.executor_model.specs.Steps as steps;
    ghost use Rattle.executor_core.specs.Reached.{IsReached};
    ghost use Rattle.executor_core.specs.Views.{world_of};

    ghost Value = { steps.Machine };

    ghost view = { λ m. record { world = world_of m.store; parties = map (λ v. v.items) m.parties.items } };

    ghost invariant = { λ m. IsReached
        (record { world = world_of m.store; parties = map (λ v. v.items) m.parties.items }) };
}

/// Room for so many more, and one.
fn reserves(list: &mut VecDeque<u64>, more: usize) -> bool
    ensures items { list.new.items ≡ list.old.items }
    ensures room { result ≡ true → deque_len list.new + (more + 1) ≤ deque_capacity list.new }
{
    match more.checked_add(1) {
        Some(all) => list.reserve(all).is_ok(),
        None => false,
    }
}

/// Room for one more future: its task, its awaiter, its mark and its Runnable. What the store stands for stays.
fn reserves_future(store: &mut Store) -> bool
    ensures same { world_of store.new ≡ world_of store.old }
    ensures tasks { result ≡ true → vec_len store.new.tasks + 1 ≤ vec_capacity store.new.tasks }
    ensures awaiters { result ≡ true → vec_len store.new.awaiters + 1 ≤ vec_capacity store.new.awaiters }
    ensures marks { result ≡ true → vec_len store.new.marks + 1 ≤ vec_capacity store.new.marks }
    ensures queues { result ≡ true → store.new.queues.has_room ≡ true }
{
    store.tasks.reserve(1).is_ok()
        && store.awaiters.reserve(1).is_ok()
        && store.marks.reserve(1).is_ok()
        && store.queues.reserve().is_ok()
}

/// Room for one more in each list, and for all wakers of the table in that of those to be woken. What the store stands for
/// stays.
fn make_room(store: &mut Store) -> Result<(), StepError>
    ensures same { world_of store.new ≡ world_of store.old }
    ensures ok { OnOk result (HasRoom store.new) }
    ensures err { IfErr result (λ e. e ≡ StepError.NoMemory) }
{
    let room = reserves_future(store)
        && store.entries.reserve().is_ok()
        && reserves(&mut store.waking, store.entries.len())
        && store.wakers.reserve(1).is_ok()
        && store.ticks_and_runs.reserve().is_ok()
        && store.ticks_and_runs.runs.counts_on()
        && store.trace.reserve(5).is_ok();
    if room {
        Ok(())
    } else {
        Err(StepError::NoMemory)
    }
}

fn party_of(step: Step) -> u32
    ensures { result ≡ steps.party_of step }
{
    match step {
        Step::Begin { party, .. } => party,
        Step::Go { party, .. } => party,
        Step::Answer { party, .. } => party,
    }
}

/// One step.
fn step_at(store: &mut Store, parties: &mut Vec<Vec<Op>>, step: Step) -> Result<(), StepError>
    requires { IsReached (state_of store.old parties.old.items) }
    ensures reached { IsReached (state_of store.new parties.new.items) }
    ensures ok { OnOk result
        (steps.step (state_of store.old parties.old.items) step ≡ Ok (state_of store.new parties.new.items)) }
    ensures err { IfErr result (λ e. (state_of store.new parties.new.items ≡ state_of store.old parties.old.items)
        × IsRefused (state_of store.old parties.old.items) step e) }
{
    let p = party_of(step) as usize;
    if p >= parties.len() {
        return Err(StepError::NoSuch);
    }
    match part_refusal(store, parties.as_slice(), parties[p].as_slice(), step) {
        Some(error) => return Err(error),
        None => {}
    }
    make_room(store)?;
    let todo = &mut parties[p];
    if todo.reserve(8).is_err() {
        return Err(StepError::NoMemory);
    }
    take_part(store, todo, step);
    Ok(())
}

fn empty(alloc: Global, limit: u64, kind: Kind) -> Store
    ensures { world_of result ≡ (steps.start limit kind 0).world }
{
    Store {
        is_static: is_static(kind),
        tasks: Vec::new(alloc),
        awaiters: Vec::new(alloc),
        marks: Vec::new(alloc),
        queues: Queues::new(alloc, limit),
        urgent_turns: 7,
        entries: Entries::new(alloc, limit),
        waking: VecDeque::new(alloc),
        wakers: Vec::new(alloc),
        ticks_and_runs: TicksAndRuns::new(alloc),
        gone: false,
        trace: Vec::new(alloc),
    }
}

fn is_static(kind: Kind) -> bool
    ensures { result ≡ steps.is_static_kind kind }
{
    match kind {
        Kind::Owned => false,
        Kind::Static => true,
    }
}

impl Machine {
    /// A new machine of this kind for this many parties, of which at most `limit` accepted futures are
    /// undropped at a time.
    pub fn new(alloc: Global, limit: u64, kind: Kind, parties: u32) -> Result<Machine, AllocError>
        ensures { IfOk result (λ m. m ≡ steps.start limit kind parties) }
    {
        let mut stacks = Vec::new(alloc);
        for _i in 0..parties {
            stacks.push(Vec::new(alloc))?;
        }
        Ok(Machine {
            store: empty(alloc, limit, kind),
            parties: stacks,
        })
    }

    /// One step. A step that isn't possible is refused by the first test that fails, and changes
    /// nothing; the want of memory for the machine itself comes last.
    pub fn step(&mut self, step: Step) -> Result<(), StepError>
        ensures ok { OnOk result (steps.step self.old step ≡ Ok self.new) }
        ensures err { IfErr result (λ e. (self.new ≡ self.old) × IsRefused self.old step e) }
        ensures reached { IsReached self.new }
    {
        match step_at(&mut self.store, &mut self.parties, step) {
            Ok(()) => Ok(()),
            Err(error) => Err(error),
        }
    }

    /// Steps until one is refused. Says the place of that one, and why, if one was. Then all laws of every list of
    /// steps hold of this machine.
    pub fn run(&mut self, list: &[Step]) -> Option<(usize, StepError)>
        ensures made { MatchOption result (run_all list.now self.old ≡ Ok self.new)
            (λ r. run_all (take r.0 list.now) self.old ≡ Ok self.new) }
        ensures refused { IfSome result
            (λ r. (t : Step) × (slice_get list.now r.0 ≡ Some t) × IsRefused self.new t r.1) }
        ensures laws { AllLaws self.new }
    {
        let refused = self.run_on(list);
        all_laws();
        refused
    }

    /// The steps of a run.
    fn run_on(&mut self, list: &[Step]) -> Option<(usize, StepError)>
        ensures made { MatchOption result (run_all list.now self.old ≡ Ok self.new)
            (λ r. run_all (take r.0 list.now) self.old ≡ Ok self.new) }
        ensures refused { IfSome result
            (λ r. (t : Step) × (slice_get list.now r.0 ≡ Some t) × IsRefused self.new t r.1) }
        ensures reached { IsReached self.new }
    {
        self.is_reached();
        for (i, step) in list.iter().enumerate() {
            match self.step(*step) {
                Ok(()) => {}
                Err(error) => return Some((i, error)),
            }
        }
        None
    }

    /// Its state is one to which steps of a new machine lead, so each law of every list of steps holds of
    /// it. Does nothing.
    pub fn is_reached(&self)
        ensures { IsReached self.now }
    {
        let _ = &self.store;
    }

    /// The next thing that a party has to do, or the user code in which it stands; none between two
    /// calls.
    pub fn top(&self, party: u32) -> Option<Op>
        ensures { result ≡ steps.top (steps.stack self.now party) }
    {
        match self.parties.get(party as usize) {
            Some(todo) => todo.last().copied(),
            None => None,
        }
    }

    /// The next thing that a party has to do is to take the lock of the list of queues, which others have: a step is
    /// refused, as it would wait.
    pub fn waits(&self, party: u32) -> bool
        ensures { result ≡ waits_for_lock self.now.world (steps.top (steps.stack self.now party)) }
    {
        go_waits(&self.store, self.top(party))
    }

    /// How many wakers were handed out.
    pub fn wakers(&self) -> usize
        ensures { result ≡ length self.now.world.wakers }
    {
        self.store.wakers.len()
    }

    /// The handle of this future is there, and no call uses it.
    pub fn has_handle(&self, future: u64) -> bool
        ensures { result ≡ steps.has_handle self.now.world self.now.parties future }
    {
        has_handle(&self.store, self.parties.as_slice(), future)
    }

    /// The awaiter that the task of this future keeps.
    pub fn awaiter(&self, future: u64) -> Option<Awaiter>
        ensures { result ≡ awaiter_of self.now.world future }
    {
        match self.store.awaiters.get(future as usize) {
            Some(awaiter) => *awaiter,
            None => None,
        }
    }

    /// What has happened, in order.
    pub fn trace(&self) -> &[Event]
        ensures { result.now ≡ self.now.world.trace }
    {
        self.store.trace.as_slice()
    }
}
