//! Plays scripts on tasks that one owner has by `&mut`.
mod handles;
mod paying;
mod runs;
mod seat;
mod wakers;

use crate::tasks::answer::Answer;
use crate::tasks::command::{Command, Item, Name};
use crate::tasks::error::PlayError;
use crate::tasks::parser::{Script, parse};
use async_task::LocalTask;
use runs::OpenRun;
use seat::{Kind, ScriptTask, Seat, Work};
use std::alloc::{AllocError, Global};
use std::collections::VecDeque;

/// What a script shows of tasks that one owner has. The errors are `BadLine` with the first bad line, in which case nothing was
/// played, and `NoMemory`.
pub fn play_local(alloc: Global, script: &[u8]) -> Result<Vec<u8>, PlayError> {
    let Script { names, commands } = parse(alloc, script)?;
    let mut owner = Owner::new(alloc, names)?;
    for command in commands {
        owner.play(command)?;
    }
    let Owner { text, is_short, .. } = owner;
    if is_short {
        return Err(PlayError::NoMemory);
    }
    Ok(text.into_bytes())
}

/// Who has the tasks of a script. He does what their calls ask him to: queues, polls, wakes and drops.
#[derive(Drop)]
struct Owner {
    alloc: Global,
    /// The lines shown so far.
    text: String,
    /// Which tasks are queued, the first to be run first.
    list: VecDeque<Name>,
    /// The runs that are open, the innermost last.
    open: Vec<OpenRun>,
    /// The names by number.
    seats: Vec<Seat>,
    /// Whether memory was refused for a line or for a place in the list.
    is_short: bool,
}

impl Owner {
    fn new(alloc: Global, names: Vec<String>) -> Result<Owner, AllocError> {
        let mut seats = Vec::new(alloc);
        for name in names {
            seats.push(Seat::new(name))?;
        }
        Ok(Owner {
            alloc,
            text: String::new(alloc),
            list: VecDeque::new(alloc),
            open: Vec::new(alloc),
            seats,
            is_short: false,
        })
    }

    /// Plays a command, and shows what it answers.
    fn play(&mut self, command: Command) -> Result<(), AllocError> {
        let word = command.word();
        let answer = match command {
            Command::Spawn(name, metadata, items) => self.spawn(name, metadata, items),
            Command::List(call) => self.list_call(call),
            Command::Waker(call, name) => Ok(self.waker_call(call, name)),
            Command::Handle(call, name) => self.handle_call(call, name),
            Command::Pair(call, first, second) => Ok(self.pair_call(call, first, second)),
        };
        let text = answer?.into_text(self.alloc)?;
        self.text.push_str(word)?;
        self.text.push_str(": ")?;
        self.text.push_str(text.as_str())?;
        self.text.push_str("\n")
    }

    /// The task of this name. Each of its calls is made only where the task says that it may be.
    fn task(&mut self, name: Name) -> Option<&mut ScriptTask> {
        match self.seats.get_mut(name.0) {
            Some(seat) => seat.task.as_mut(),
            None => None,
        }
    }

    /// Makes a task, which goes to the end of the list.
    fn spawn(&mut self, name: Name, metadata: u64, items: Vec<Item>) -> Result<Answer, AllocError> {
        let Some(seat) = self.seats.get_mut(name.0) else {
            return Ok(Answer::NotPossible);
        };
        if seat.task.is_some() {
            return Ok(Answer::NotPossible);
        }
        seat.task = Some(LocalTask::new(Work { items, next: 0 }));
        seat.handle = Some(Kind::Task);
        seat.metadata = metadata;
        self.list.push_back(name)?;
        Ok(Answer::Ok)
    }

    /// Shows a line of a word, a name and what follows it.
    fn show(&mut self, word: &str, name: Name, rest: &str) {
        if self.add(word, name, rest).is_err() {
            self.is_short = true;
        }
    }

    fn add(&mut self, word: &str, name: Name, rest: &str) -> Result<(), AllocError> {
        self.text.push_str(word)?;
        if let Some(seat) = self.seats.get(name.0) {
            self.text.push_str(seat.name.as_str())?;
        }
        self.text.push_str(rest)?;
        self.text.push_str("\n")
    }
}
