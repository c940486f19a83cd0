//! A machine, and what a script knows of it.

ghost use Rattle.std.specs.Prelude.{◌≡◌, ℕ, ◌-◌, ◌^◌, ◌<◌, false, [], ◌∷◌, ◌++◌, map, length, drop, slice_index_or};
ghost use Rattle.std.specs.Prelude.{Ok, OnOk, IfErr, IfOk};
ghost use Rattle.std.specs.Option.{option_copied};
ghost use Rattle.executor_core.specs.Refused.{IsRefused};
ghost use Rattle.executor_model.specs.declared.event.Event.{Event};
ghost use Rattle.executor_model.specs.Steps as steps;
ghost use Rattle.script.specs.Names.{number_of};
ghost use Rattle.simulator.specs.declared.moment.Moment.TheVariants.{Happened};
ghost use Rattle.simulator.specs.Play as play;
ghost use Rattle.simulator.specs.Play.{is_possible};

use crate::moment::{Moment, Outcome};
use crate::play::Played;
use crate::play::future::Future;
use crate::play::party::{Doing, Party};
use crate::play::runs::Run;
use executor_core::{Kind, Machine};
use executor_model::{Event, Op, Reply, Step, StepError, UserOp};
use script::{Command, Item, Name, Names, Plain, Request, Word};
use std::alloc::{AllocError, Global};
use std::marker::Model;

/// A machine that is stepped as a script says.
#[derive(Drop)]
pub struct Player<'a> {
    pub commands: &'a [Command],
    pub machine: Machine,
    /// The names of the futures, in the order of acceptance.
    pub names: Names,
    /// In that order.
    pub futures: Vec<Future>,
    /// The names of the ticks, in the order in which these were made.
    pub ticks: Names,
    /// The names of the runs, in the order in which these were made.
    pub run_names: Names,
    /// In that order.
    pub runs: Vec<Run>,
    pub parties: Vec<Party>,
    /// The party that no command names would wait for another, and no more commands are played.
    pub stopped: bool,
    /// The steps that were tried.
    pub tried: Vec<Step>,
    pub moments: Vec<Moment>,
}

impl<'a> Model for Player<'a> {
    ghost Value = { play.Player };

    ghost view = { λ x. record {
      commands = x.commands.now;
      machine = x.machine;
      names = x.names;
      futures = x.futures.items;
      ticks = x.ticks;
      run_names = x.run_names;
      runs = x.runs.items;
      parties = x.parties.items;
      stopped = x.stopped;
      tried = x.tried.items;
      moments = x.moments.items;
    } };
}

/// Shows these events.
fn push_events(moments: &mut Vec<Moment>, events: &[Event]) -> Result<(), AllocError>
    ensures { OnOk result (moments.new.items ≡ moments.old.items ++ map Happened events.now) }
{
    for event in events {
        moments.push(Moment::Happened(*event))?;
    }
    Ok(())
}

/// The machine runs this step alone.
fn run_one(machine: &mut Machine, step: Step) -> Result<(), StepError>
    ensures ok { OnOk result (steps.step machine.old step ≡ Ok machine.new) }
    ensures err { IfErr result (λ e. (machine.new ≡ machine.old) × IsRefused machine.old step e) }
{
    match machine.run(&[step]) {
        None => Ok(()),
        Some((_, error)) => Err(error),
    }
}

/// The kind of the executor that the first line names.
fn kind_of(is_static: bool) -> Kind
    ensures { result ≡ play.kind_of is_static }
{
    if is_static { Kind::Static } else { Kind::Owned }
}

/// A party for each that a script may name, and the one that it doesn't name.
fn ten_parties(alloc: Global) -> Result<Vec<Party>, AllocError>
    ensures { IfOk result (λ parties. parties.items ≡ (play.start [] 0 false).parties) }
{
    let idle = Party::idle();
    Vec::from_slice(
        alloc,
        &[idle, idle, idle, idle, idle, idle, idle, idle, idle, idle],
    )
}

impl<'a> Player<'a> {
    pub fn new(
        alloc: Global,
        commands: &'a [Command],
        limit: u64,
        is_static: bool,
    ) -> Result<Player<'a>, AllocError>
        ensures { IfOk result (λ player. player ≡ play.start commands.now limit is_static) }
    {
        Ok(Player {
            commands,
            machine: Machine::new(alloc, limit, kind_of(is_static), 10)?,
            names: Names::new(alloc),
            futures: Vec::new(alloc),
            ticks: Names::new(alloc),
            run_names: Names::new(alloc),
            runs: Vec::new(alloc),
            parties: ten_parties(alloc)?,
            stopped: false,
            tried: Vec::new(alloc),
            moments: Vec::new(alloc),
        })
    }

    pub fn into_played(self) -> Played
        ensures moments { result.moments.items ≡ self.entry.moments }
        ensures names { result.names ≡ self.entry.names }
        ensures ticks { result.ticks ≡ self.entry.ticks }
        ensures runs { result.runs ≡ self.entry.run_names }
    {
        Played {
            moments: self.moments,
            names: self.names,
            ticks: self.ticks,
            runs: self.run_names,
        }
    }

    /// The future of this number.
    pub fn future(&self, f: u64) -> Future
        ensures { result ≡ play.future self.now f }
    {
        match self.futures.get(f as usize) {
            Some(future) => *future,
            None => Future::new(0),
        }
    }

    #[tactic(auto, using(std::proofs::lemmas::List::set_past))]
    pub fn set_future(&mut self, f: u64, future: Future)
        ensures { self.new ≡ play.set_future f future self.old }
    {
        if (f as usize) < self.futures.len() {
            self.futures[f as usize] = future;
        }
    }

    /// The run of this number.
    pub fn run(&self, r: u64) -> Run
        ensures { result ≡ play.run self.now r }
    {
        match self.runs.get(r as usize) {
            Some(run) => *run,
            None => Run::new(None),
        }
    }

    #[tactic(auto, using(std::proofs::lemmas::List::set_past))]
    pub fn set_run(&mut self, r: u64, run: Run)
        ensures { self.new ≡ play.set_run r run self.old }
    {
        if (r as usize) < self.runs.len() {
            self.runs[r as usize] = run;
        }
    }

    pub fn party(&self, p: u32) -> Party
        ensures { result ≡ play.party self.now p }
    {
        match self.parties.get(p as usize) {
            Some(party) => *party,
            None => Party::idle(),
        }
    }

    #[tactic(auto, using(std::proofs::lemmas::List::set_past))]
    pub fn set_party(&mut self, p: u32, party: Party)
        ensures { self.new ≡ play.set_party p party self.old }
    {
        if (p as usize) < self.parties.len() {
            self.parties[p as usize] = party;
        }
    }

    /// The number of the future of this name.
    pub fn number_of(&self, name: Name) -> Option<u64>
        ensures { result ≡ number_of self.now.names name }
    {
        match self.names.number_of(name) {
            Some(f) => Some(f as u64),
            None => None,
        }
    }

    /// The number of the tick of this name.
    pub fn tick_named(&self, name: Name) -> Option<u64>
        ensures { result ≡ number_of self.now.ticks name }
    {
        match self.ticks.number_of(name) {
            Some(t) => Some(t as u64),
            None => None,
        }
    }

    /// The number of the run of this name.
    pub fn run_named(&self, name: Name) -> Option<u64>
        ensures { result ≡ number_of self.now.run_names name }
    {
        match self.run_names.number_of(name) {
            Some(r) => Some(r as u64),
            None => None,
        }
    }

    /// The next thing that a party has to do.
    pub fn top(&self, p: u32) -> Option<Op>
        ensures { result ≡ play.top self.now p }
    {
        self.machine.top(p)
    }

    /// The machine tries this step, and what happens is shown. Says whether the step was possible.
    #[tactic(auto, unfolding(crate::specs::Play::tried, crate::specs::Play::is_possible))]
    pub fn try_step(&mut self, step: Step) -> Result<bool, AllocError>
        ensures new { OnOk result (self.new ≡ play.tried step self.old) }
        ensures possible { IfOk result (λ possible. possible ≡ is_possible step self.old) }
        ensures grows { OnOk result (length self.old.tried < length self.new.tried) }
    {
        let before = self.machine.trace().len();
        self.tried.push(step)?;
        match run_one(&mut self.machine, step) {
            Ok(()) => {
                self.show(before)?;
                Ok(true)
            }
            Err(StepError::NoMemory) => Err(AllocError),
            Err(_) => Ok(false),
        }
    }

    /// Shows what has happened behind the first events of this number.
    #[tactic(auto, unfolding(crate::specs::Play::shown))]
    fn show(&mut self, before: usize) -> Result<(), AllocError>
        ensures new { OnOk result (self.new ≡ play.shown (play.later before self.old.machine.world.trace) self.old) }
        ensures steps { OnOk result (self.new.tried ≡ self.old.tried) }
    {
        let trace = self.machine.trace();
        let events = later(trace, before);
        let last = events.last().copied();
        push_events(&mut self.moments, events)?;
        self.note(last)
    }

    #[tactic(auto, unfolding(crate::specs::Play::noted))]
    fn note(&mut self, event: Option<Event>) -> Result<(), AllocError>
        ensures new { OnOk result (self.new ≡ play.noted event self.old) }
        ensures steps { OnOk result (self.new.tried ≡ self.old.tried) }
    {
        match event {
            Some(Event::Accepted { party, .. }) => {
                let doing = self.party(party).doing;
                self.accept(doing)
            }
            Some(Event::CallEnded { party, reply }) => {
                let here = self.party(party);
                self.set_party(party, Party { reply, ..here });
                self.learn(party, reply);
                Ok(())
            }
            _ => Ok(()),
        }
    }

    /// The party's call was answered so.
    fn learn(&mut self, p: u32, reply: Reply)
        ensures new { self.new ≡ play.replied reply p self.old }
        ensures steps { self.new.tried ≡ self.old.tried }
    {
        match reply {
            Reply::Made => self.keep(p),
            Reply::NoMemory => self.keep_none(p),
            _ => {}
        }
    }

    /// A waker was made, where the party stands in a poll: it is kept in place of the one before.
    #[tactic(auto, unfolding(crate::specs::Play::kept_at))]
    fn keep(&mut self, p: u32)
        ensures new { self.new ≡ play.kept_at (play.top self.old p) self.old }
        ensures steps { self.new.tried ≡ self.old.tried }
    {
        if let Some(Op::User(UserOp::Poll(f))) = self.top(p) {
            let waker = (self.machine.wakers() as u64).saturating_sub(1);
            let future = self.future(f).keep(Some(waker));
            self.set_future(f, future);
        }
    }

    /// A call was refused, where the party stands in a poll: if it was the copy of a waker that
    /// was to be kept, none is kept.
    #[tactic(auto, unfolding(crate::specs::Play::refused_at))]
    fn keep_none(&mut self, p: u32)
        ensures new { self.new ≡ play.refused_at (play.top self.old p) self.old }
        ensures steps { self.new.tried ≡ self.old.tried }
    {
        if let Some(Op::User(UserOp::Poll(f))) = self.top(p) {
            if let Item::Keep = self.item_of(f) {
                let future = self.future(f).keep(None);
                self.set_future(f, future);
            }
        }
    }

    /// The request of the command at this place.
    pub fn request_at(&self, at: usize) -> Option<&'a Request>
        ensures { option_copied result ≡ play.request_at self.now at }
    {
        match self.commands.get(at) {
            Some(Command::Whole(request)) => Some(request),
            Some(Command::Begin { request, .. }) => Some(request),
            _ => None,
        }
    }

    pub fn plain_at(&self, at: usize) -> Option<&'a Plain>
        ensures { option_copied result ≡ play.plain_at self.now at }
    {
        match self.request_at(at) {
            Some(request) => Some(&request.plain),
            None => None,
        }
    }

    /// What the future does that was spawned by the command at this place.
    pub fn items_at(&self, at: usize) -> &'a [Item]
        ensures { result.now ≡ play.items_at self.now at }
    {
        match self.plain_at(at) {
            Some(Plain::Spawn { items, .. }) => items.as_slice(),
            _ => &[],
        }
    }

    /// What the future does at its next poll, or in the poll that has begun.
    pub fn item_of(&self, f: u64) -> Item
        ensures { result ≡ play.item_of self.now f }
    {
        let future = self.future(f);
        item_at(self.items_at(future.command), future.next)
    }

    /// The future that the party spawns was accepted.
    #[tactic(auto, unfolding(crate::specs::Play::accepted))]
    fn accept(&mut self, doing: Option<Doing>) -> Result<(), AllocError>
        ensures new { OnOk result (self.new ≡ play.accepted doing self.old) }
        ensures steps { OnOk result (self.new.tried ≡ self.old.tried) }
    {
        match doing {
            None => Ok(()),
            Some(doing) => match self.plain_at(doing.command) {
                Some(Plain::Spawn { name, .. }) => self.push_future(*name, doing.command),
                _ => Ok(()),
            },
        }
    }

    fn push_future(&mut self, name: Name, command: usize) -> Result<(), AllocError>
        ensures new { OnOk result (self.new ≡ play.accepted_as (number_of self.old.names name) name command self.old) }
        ensures steps { OnOk result (self.new.tried ≡ self.old.tried) }
    {
        if self.names.number_of(name).is_none() {
            self.names.push(name)?;
            self.futures.push(Future::new(command))?;
        }
        Ok(())
    }

    /// The next tick has this name.
    #[tactic(auto, unfolding(crate::specs::Play::ticked_as))]
    pub fn push_tick(&mut self, name: Name) -> Result<(), AllocError>
        ensures new { OnOk result (self.new ≡ play.ticked_as (number_of self.old.ticks name) name self.old) }
        ensures steps { OnOk result (self.new.tried ≡ self.old.tried) }
    {
        if self.ticks.number_of(name).is_none() {
            self.ticks.push(name)?;
        }
        Ok(())
    }

    /// The next run has this name, and its own future holds this handle.
    #[tactic(auto, unfolding(crate::specs::Play::ran_as))]
    pub fn push_run(&mut self, name: Name, twice: Option<Name>) -> Result<(), AllocError>
        ensures new { OnOk result (self.new ≡ play.ran_as (number_of self.old.run_names name) name twice self.old) }
        ensures steps { OnOk result (self.new.tried ≡ self.old.tried) }
    {
        if self.run_names.number_of(name).is_none() {
            self.run_names.push(name)?;
            self.runs.push(Run::new(twice))?;
        }
        Ok(())
    }

    /// The party that no command names would wait, and the script ends.
    pub fn stop(&mut self) -> Result<(), AllocError>
        ensures { OnOk result (self.new ≡ play.stop self.old) }
    {
        self.stopped = true;
        self.moments.push(Moment::Stopped)?;
        Ok(())
    }

    /// A command is answered so.
    pub fn end(&mut self, word: Word, outcome: Outcome) -> Result<(), AllocError>
        ensures { OnOk result (self.new ≡ play.ended word outcome self.old) }
    {
        self.moments.push(Moment::Ended { word, outcome })?;
        Ok(())
    }
}

/// The item at this place.
pub fn item_at(items: &[Item], place: usize) -> Item
    ensures { result ≡ slice_index_or items.now place Item.Pend }
{
    match items.get(place) {
        Some(item) => *item,
        None => Item::Pend,
    }
}

/// What stands behind so many of a list.
pub fn later<T>(list: &[T], before: usize) -> &[T]
    ensures { result.now ≡ drop before list.now }
{
    if before <= list.len() {
        &list[before..]
    } else {
        &[]
    }
}
