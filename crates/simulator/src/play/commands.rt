//! The commands of a script.

ghost use Rattle.std.specs.Prelude.{◌≡◌, ◌&&◌, OnOk};
ghost use Rattle.std.specs.List.{list_all, list_any};
ghost use Rattle.script.specs.Names.{number_of};
ghost use Rattle.simulator.specs.Handles as handles;
ghost use Rattle.simulator.specs.Play as play;
ghost use Rattle.simulator.specs.Turn as turns;
ghost use Rattle.simulator.specs.Commands as commands;

use crate::moment::Outcome;
use crate::play::asking::up_to;
use crate::play::future::Future;
use crate::play::party::{Doing, Party};
use crate::play::player::Player;
use crate::print::{waker_of_run, waker_of_tick};
use executor_model::{By, Call, Step, Waker};
use script::{Command, Item, Name, Plain, Refusal, Word};
use std::alloc::AllocError;

/// The poll of this tick, by the outside waker of its name.
fn poll_of_tick(t: u64) -> Call
    ensures { result ≡ commands.poll_of_tick t }
{
    Call::PollTick(t, By::Outside(waker_of_tick(t)))
}

/// The poll of this run, by the outside waker of its name.
fn poll_of_run(r: u64) -> Call
    ensures { result ≡ commands.poll_of_run r }
{
    Call::PollRun(r, By::Outside(waker_of_run(r)))
}

impl<'a> Player<'a> {
    /// Plays the command at this place, where the script hasn't ended.
    pub fn play_unless_stopped(&mut self, at: usize, command: &'a Command) -> Result<(), AllocError>
        ensures { OnOk result (commands.PlaysUnless self.old.stopped at command.now self.old self.new) }
    {
        if self.stopped {
            return Ok(());
        }
        self.play(at, command)
    }

    /// Plays the command at this place.
    fn play(&mut self, at: usize, command: &'a Command) -> Result<(), AllocError>
        ensures { OnOk result (commands.Plays at command.now self.old self.new) }
    {
        match command {
            Command::Whole(request) => {
                self.begin(0, at, &request.plain, request.plain.word())?;
                self.play_whole()
            }
            Command::Begin { party, request } => {
                self.begin(*party, at, &request.plain, Word::Begin)
            }
            Command::Go(party) => self.play_go(*party),
            Command::Finish(party) => self.play_finish(*party),
        }
    }

    /// The party that no command names takes turns. Where it would wait before its command has ended, the script ends.
    fn play_whole(&mut self) -> Result<(), AllocError>
        ensures { OnOk result (commands.PlaysWhole self.old self.new) }
    {
        self.finish(0)?;
        if self.is_busy(0) {
            return self.stop();
        }
        Ok(())
    }

    /// The party takes one turn, where it has begun a command and need not wait.
    fn play_go(&mut self, p: u32) -> Result<(), AllocError>
        ensures { OnOk result (self.new ≡ commands.go (commands.is_busy p self.old) (commands.would_wait p self.old) p self.old) }
    {
        if !self.is_busy(p) {
            return self.end(Word::Go, Outcome::NotPossible);
        }
        if self.machine.waits(p) {
            return self.end(Word::Go, Outcome::Waits);
        }
        self.turn(p)
    }

    /// The party takes turns. Where it would wait before its command has ended, that stays in progress.
    fn play_finish(&mut self, p: u32) -> Result<(), AllocError>
        ensures { OnOk result (commands.PlaysFinish (commands.is_busy p self.old) p self.old self.new) }
    {
        if !self.is_busy(p) {
            return self.end(Word::Finish, Outcome::NotPossible);
        }
        self.finish(p)?;
        if self.is_busy(p) {
            return self.end(Word::Finish, Outcome::Waits);
        }
        Ok(())
    }

    fn is_busy(&self, p: u32) -> bool
        ensures { result ≡ commands.is_busy p self.now }
    {
        self.party(p).doing.is_some()
    }

    /// The party can take a turn: its command has not ended, and it need not wait for another party.
    fn goes_on(&self, p: u32) -> bool
        ensures { result ≡ commands.goes_on p self.now }
    {
        self.is_busy(p) && !self.machine.waits(p)
    }

    /// The party takes turns as long as it can: until its command has ended, or the next would wait.
    fn finish(&mut self, p: u32) -> Result<(), AllocError>
        ensures { OnOk result (commands.Finishes p self.old self.new) }
    {
        while self.goes_on(p) {
            self.turn(p)?;
        }
        Ok(())
    }

    /// The party begins the command at this place; this word is answered where that isn't possible.
    #[tactic(auto, unfolding(crate::specs::Commands::begin))]
    fn begin(&mut self, p: u32, at: usize, plain: &Plain, word: Word) -> Result<(), AllocError>
        ensures { OnOk result (self.new ≡ commands.begin p at plain.now word self.old) }
    {
        if self.is_busy(p) {
            return self.end(word, Outcome::NotPossible);
        }
        match self.call_of(plain) {
            Some(call) => self.begin_call(p, at, plain, word, call),
            None => self.end(word, Outcome::NotPossible),
        }
    }

    #[tactic(auto, unfolding(crate::specs::Commands::begin_call))]
    fn begin_call(
        &mut self,
        p: u32,
        at: usize,
        plain: &Plain,
        word: Word,
        call: Call,
    ) -> Result<(), AllocError>
        ensures { OnOk result (self.new ≡ commands.begin_call p at plain.now word call self.old) }
    {
        if !self.try_step(Step::Begin { party: p, call })? {
            return self.end(word, Outcome::NotPossible);
        }
        self.set_doing(p, Some(self.begun_at(at)));
        self.start(plain);
        Ok(())
    }

    /// The command at this place has begun.
    fn begun_at(&self, at: usize) -> Doing
        ensures { result ≡ commands.begun_at self.now at }
    {
        let refusal = match self.request_at(at) {
            Some(request) => request.refusal,
            None => Refusal::Nothing,
        };
        Doing {
            command: at,
            polls: false,
            to_go: up_to(refusal),
        }
    }

    /// A command has begun.
    #[tactic(auto, unfolding(crate::specs::Commands::started))]
    fn start(&mut self, plain: &Plain)
        ensures { self.new ≡ commands.started plain.now self.old }
    {
        match plain {
            Plain::Spawn { items, .. } => self.hold(items.as_slice(), true),
            Plain::Run { twice, .. } => self.hold_named(*twice, true),
            Plain::Unkeep(name) => {
                if let Some(f) = self.number_of(*name) {
                    let future = self.future(f);
                    self.set_future(
                        f,
                        Future {
                            kept: None,
                            ..future
                        },
                    );
                }
            }
            Plain::Poll(name) => {
                if let Some(f) = self.number_of(*name) {
                    self.give(f, Waker::Outside(f));
                }
            }
            _ => {}
        }
    }

    /// The call with which the command begins, where the script has what it speaks of.
    #[tactic(auto, unfolding(crate::specs::Commands::call_of))]
    fn call_of(&self, plain: &Plain) -> Option<Call>
        ensures { result ≡ commands.call_of self.now plain.now }
    {
        match plain {
            Plain::Spawn { mark, name, items } => {
                if self.can_spawn(*name, items.as_slice()) {
                    Some(Call::Spawn(*mark))
                } else {
                    None
                }
            }
            Plain::Try => Some(Call::TryTick),
            Plain::Empty => Some(Call::IsEmpty),
            Plain::Wake(name) => self.kept_of(*name).map(Call::WakeByRef),
            Plain::Unkeep(name) => self.kept_of(*name).map(Call::DropWaker),
            Plain::Poll(name) => self.call_of_poll(*name),
            Plain::Cancel(name) => self.handle_of(*name).map(Call::Cancel),
            Plain::Detach(name) => self.handle_of(*name).map(Call::Detach),
            Plain::Drop(name) => self.handle_of(*name).map(Call::DropHandle),
            Plain::Tick(name) => self.call_of_tick(*name),
            Plain::PollTick(name) => self.tick_named(*name).map(poll_of_tick),
            Plain::DropTick(name) => self.tick_named(*name).map(Call::DropTick),
            Plain::Run { name, twice } => self.call_of_run(*name, *twice),
            Plain::PollRun(name) => self.run_named(*name).map(poll_of_run),
            Plain::DropRun(name) => self.run_named(*name).map(Call::DropRun),
            Plain::Leak => Some(Call::Leak),
            Plain::End => Some(Call::DropExecutor),
        }
    }

    fn call_of_tick(&self, name: Name) -> Option<Call>
        ensures { result ≡ commands.call_of_tick (commands.is_free self.now name) }
    {
        if self.is_free(name) {
            Some(Call::NewTick)
        } else {
            None
        }
    }

    fn call_of_run(&self, name: Name, twice: Option<Name>) -> Option<Call>
        ensures { result ≡ commands.call_of_run (commands.is_free self.now name && commands.is_holdable self.now twice) }
    {
        if self.is_free(name) && self.is_holdable(twice) {
            Some(Call::NewRun)
        } else {
            None
        }
    }

    /// The handle that a run is to hold, if any, is there, and nobody holds or uses it.
    fn is_holdable(&self, twice: Option<Name>) -> bool
        ensures { result ≡ commands.is_holdable self.now twice }
    {
        match twice {
            Some(name) => self.is_available(Item::Twice(name)),
            None => true,
        }
    }

    fn call_of_poll(&self, name: Name) -> Option<Call>
        ensures { result ≡ commands.on (handles.handle_of self.now name) (λ f. Call.PollHandle f (By.Outside f)) }
    {
        let f = self.handle_of(name)?;
        Some(Call::PollHandle(f, By::Outside(f)))
    }

    /// The waker that is kept of the future of this name.
    fn kept_of(&self, name: Name) -> Option<u64>
        ensures { result ≡ commands.kept_of self.now (number_of self.now.names name) }
    {
        self.future(self.number_of(name)?).kept
    }

    /// No future, tick or run has this name, and none is about to have it.
    fn is_free(&self, name: Name) -> bool
        ensures { result ≡ commands.is_free self.now name }
    {
        self.number_of(name).is_none()
            && self.tick_named(name).is_none()
            && self.run_named(name).is_none()
            && !self.is_coming(name)
    }

    /// A party has begun to spawn a future of this name, or to make a tick or run of it.
    fn is_coming(&self, name: Name) -> bool
        ensures { result ≡ list_any (λ x. commands.is_making self.now name x) self.now.parties }
    {
        self.parties
            .iter()
            .any(|party| self.is_making(name, *party))
    }

    fn is_making(&self, name: Name, party: Party) -> bool
        ensures { result ≡ commands.is_making self.now name party }
    {
        match party.doing {
            Some(doing) => match self.plain_at(doing.command) {
                Some(
                    Plain::Spawn { name: other, .. }
                    | Plain::Tick(other)
                    | Plain::Run { name: other, .. },
                ) => *other == name,
                _ => false,
            },
            None => false,
        }
    }

    fn are_available(&self, items: &[Item]) -> bool
        ensures { result ≡ list_all (λ i. handles.is_available self.now i) items.now }
    {
        items.iter().all(|item| self.is_available(*item))
    }

    /// The name is free, and the handles that these items name may be held.
    fn can_spawn(&self, name: Name, items: &[Item]) -> bool
        ensures { result ≡ commands.can_spawn self.now name items.now }
    {
        self.is_free(name) && self.are_available(items)
    }
}
