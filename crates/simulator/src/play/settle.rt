//! How a party's command ends.

ghost use Rattle.std.specs.Prelude.{◌≡◌, OnOk};
ghost use Rattle.simulator.specs.Play as play;
ghost use Rattle.simulator.specs.Turn as turns;

use crate::moment::Outcome;
use crate::play::party::{Doing, Party};
use crate::play::player::Player;
use executor_model::Reply;
use script::{Item, Name, Plain, Word};
use std::alloc::AllocError;

impl<'a> Player<'a> {
    /// The party's command ends where its call has, unless it polls a handle then.
    #[tactic(auto, unfolding(crate::specs::Turn::settle))]
    pub fn settle(&mut self, p: u32) -> Result<(), AllocError>
        ensures new { OnOk result (self.new ≡ turns.settle p self.old) }
        ensures steps { OnOk result (self.new.tried ≡ self.old.tried) }
    {
        match self.top(p) {
            Some(_) => Ok(()),
            None => match self.party(p).doing {
                Some(doing) => self.settle_command(p, doing),
                None => Ok(()),
            },
        }
    }

    #[tactic(auto, unfolding(crate::specs::Turn::settled_as))]
    fn settle_command(&mut self, p: u32, doing: Doing) -> Result<(), AllocError>
        ensures new { OnOk result (self.new ≡ turns.settled_as (play.plain_at self.old doing.command) p doing self.old) }
        ensures steps { OnOk result (self.new.tried ≡ self.old.tried) }
    {
        match self.plain_at(doing.command) {
            Some(Plain::Cancel(_)) => self.poll_next(p, doing),
            Some(Plain::Spawn { items, .. }) => {
                let reply = self.party(p).reply;
                self.give_back(reply, items.as_slice());
                self.close(p, doing)
            }
            Some(Plain::Tick(name)) => {
                let reply = self.party(p).reply;
                self.name_tick(reply, *name)?;
                self.close(p, doing)
            }
            Some(Plain::Run { name, twice }) => {
                let reply = self.party(p).reply;
                self.name_run(reply, *name, *twice)?;
                self.close(p, doing)
            }
            _ => self.close(p, doing),
        }
    }

    fn poll_next(&mut self, p: u32, doing: Doing) -> Result<(), AllocError>
        ensures new { OnOk result (self.new ≡ turns.polls_next doing.polls p doing self.old) }
        ensures steps { OnOk result (self.new.tried ≡ self.old.tried) }
    {
        if doing.polls {
            return self.close(p, doing);
        }
        self.set_doing(
            p,
            Some(Doing {
                polls: true,
                ..doing
            }),
        );
        Ok(())
    }

    /// A refused spawn gives the handles back.
    fn give_back(&mut self, reply: Reply, items: &[Item])
        ensures new { self.new ≡ turns.given_back (turns.is_made reply) items.now self.old }
        ensures steps { self.new.tried ≡ self.old.tried }
    {
        match reply {
            Reply::Made => {}
            _ => self.hold(items, false),
        }
    }

    /// A tick that was made has its name.
    fn name_tick(&mut self, reply: Reply, name: Name) -> Result<(), AllocError>
        ensures new { OnOk result (self.new ≡ turns.ticked (turns.is_made reply) name self.old) }
        ensures steps { OnOk result (self.new.tried ≡ self.old.tried) }
    {
        match reply {
            Reply::Made => self.push_tick(name),
            _ => Ok(()),
        }
    }

    /// A run that was made has its name; a refused one gives the handle back.
    fn name_run(&mut self, reply: Reply, name: Name, twice: Option<Name>) -> Result<(), AllocError>
        ensures new { OnOk result (self.new ≡ turns.ran (turns.is_made reply) name twice self.old) }
        ensures steps { OnOk result (self.new.tried ≡ self.old.tried) }
    {
        match reply {
            Reply::Made => self.push_run(name, twice),
            _ => {
                self.hold_named(twice, false);
                Ok(())
            }
        }
    }

    pub fn set_doing(&mut self, p: u32, doing: Option<Doing>)
        ensures { self.new ≡ turns.does p doing self.old }
    {
        let party = self.party(p);
        self.set_party(p, Party { doing, ..party });
    }

    /// The party is idle again, and its command is answered so.
    #[tactic(auto, unfolding(crate::specs::Turn::closed))]
    fn close(&mut self, p: u32, doing: Doing) -> Result<(), AllocError>
        ensures new { OnOk result (self.new ≡ turns.closed p doing self.old) }
        ensures steps { OnOk result (self.new.tried ≡ self.old.tried) }
    {
        let word = self.word_at(doing.command);
        let outcome = outcome(self.party(p).reply, self.output_of(doing));
        self.set_doing(p, None);
        self.end(word, outcome)
    }

    fn word_at(&self, at: usize) -> Word
        ensures { result ≡ turns.word_at (play.plain_at self.now at) }
    {
        match self.plain_at(at) {
            Some(plain) => plain.word(),
            None => Word::Go,
        }
    }

    /// What the command's ready future or run gives, where it speaks of one.
    fn output_of(&self, doing: Doing) -> Option<u64>
        ensures { result ≡ turns.output_of self.now (play.plain_at self.now doing.command) }
    {
        match self.plain_at(doing.command) {
            Some(Plain::PollRun(name)) => self.output_of_run(self.run_named(*name)),
            _ => self.output_of_future(self.subject(doing)),
        }
    }

    fn output_of_run(&self, r: Option<u64>) -> Option<u64>
        ensures { result ≡ turns.output_of_run self.now r }
    {
        Some(self.run(r?).output)
    }

    fn output_of_future(&self, f: Option<u64>) -> Option<u64>
        ensures { result ≡ turns.output_of_future self.now f }
    {
        Some(self.future(f?).output)
    }
}

/// How a command ends that was answered so, and gives this, if anything.
fn outcome(reply: Reply, output: Option<u64>) -> Outcome
    ensures { result ≡ turns.outcome_of reply output }
{
    match reply {
        Reply::Ready => match output {
            Some(output) => Outcome::Output(output),
            None => Outcome::Answered(reply),
        },
        _ => Outcome::Answered(reply),
    }
}
