//! What lanes, calls and answers are called.

use crate::picture::Lane;
use executor_model::{Call, Reply};
use script::Word;
use simulator::play::Played;
use simulator::{Outcome, push_outcome};
use std::alloc::{AllocError, Global};

/// Names futures, ticks and runs as the script that was played does. Each call takes memory.
#[derive(Clone, Copy)]
pub struct Namer<'a> {
    pub alloc: Global,
    pub played: &'a Played,
}

impl<'a> Namer<'a> {
    pub fn lane(self, lane: Lane) -> Result<String, AllocError> {
        match lane {
            Lane::Party(party) => format!(in self.alloc; "party {party}"),
            Lane::Future(_) => self.named(b"future", Some(lane)),
            Lane::Awaiter(future) => self.named(b"awaiter of", Some(Lane::Future(future))),
            Lane::Tick(_) => self.named(b"tick", Some(lane)),
            Lane::Run(_) => self.named(b"run", Some(lane)),
        }
    }

    /// A call, as a command or an item would say it, which makes or wakes this future if it makes or wakes one.
    pub fn call(self, call: Call, met: Option<Lane>) -> Result<String, AllocError> {
        let (word, on) = match call {
            Call::Spawn(mark) => (Word::of_spawn(mark), met),
            Call::TryTick => (Word::Try, None),
            Call::IsEmpty => (Word::Empty, None),
            Call::Wake(_) | Call::WakeByRef(_) | Call::WakeSelf => (Word::Wake, met),
            Call::Copy(_) | Call::Keep => return self.named(b"keep", None),
            Call::DropWaker(_) => (Word::Unkeep, None),
            Call::PollHandle(future, _) => (Word::Poll, Some(Lane::Future(future))),
            Call::Cancel(future) => (Word::Cancel, Some(Lane::Future(future))),
            Call::Detach(future) => (Word::Detach, Some(Lane::Future(future))),
            Call::DropHandle(future) => (Word::Drop, Some(Lane::Future(future))),
            Call::NewTick => (Word::Tick, None),
            Call::PollTick(tick, _) => (Word::PollTick, Some(Lane::Tick(tick))),
            Call::DropTick(tick) => (Word::DropTick, Some(Lane::Tick(tick))),
            Call::NewRun => (Word::Run, None),
            Call::PollRun(run, _) => (Word::PollRun, Some(Lane::Run(run))),
            Call::DropRun(run) => (Word::DropRun, Some(Lane::Run(run))),
            Call::Leak => (Word::Leak, None),
            Call::DropExecutor => (Word::End, None),
        };
        self.named(word.text(), on)
    }

    /// What a call is answered, with the output that it gives.
    pub fn answer(self, reply: Reply, output: Option<u64>) -> Result<String, AllocError> {
        let mut bytes = Vec::new(self.alloc);
        match output {
            Some(value) => push_outcome(&mut bytes, Outcome::Output(value))?,
            None => push_outcome(&mut bytes, Outcome::Answered(reply))?,
        }
        self.named(bytes.as_slice(), None)
    }

    /// These words, and behind them the name of whom they are about.
    fn named(self, words: &[u8], about: Option<Lane>) -> Result<String, AllocError> {
        let name = match about {
            Some(Lane::Future(future)) => self.played.names.get(future as usize),
            Some(Lane::Tick(tick)) => self.played.ticks.get(tick as usize),
            Some(Lane::Run(run)) => self.played.runs.get(run as usize),
            _ => None,
        };
        let mut text = String::new(self.alloc);
        push_bytes(&mut text, words)?;
        if let Some(name) = name {
            text.push(' ')?;
            push_bytes(&mut text, name.letters())?;
        }
        Ok(text)
    }
}

/// Appends ASCII.
fn push_bytes(text: &mut String, bytes: &[u8]) -> Result<(), AllocError> {
    for byte in bytes {
        text.push(char::from(*byte))?;
    }
    Ok(())
}
