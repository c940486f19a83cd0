//! What a player shows of a script.

ghost use Rattle.std.specs.Prelude.{IfOk};
ghost use Rattle.cases.specs.Owed.{IsShown};

use player_parts::PlayError;
use std::alloc::{AllocError, Global};
use std::io::{self, Write};

/// What a player shows of a script.
#[derive(Drop)]
pub enum Shown {
    /// The text that its calls print.
    Text(Vec<u8>),
    /// The script isn't played, since the line of this number, from 1 on, is bad.
    BadLine(u64),
}

impl Shown {
    /// Prints the text, or the bad line.
    pub fn print<R: Print>(&self, rt: &R) -> io::Result<()> {
        match self {
            Shown::Text(text) => print_text(rt, text.as_slice()),
            Shown::BadLine(line) => println!(rt; "line {line}: bad line"),
        }
    }
}

/// Prints the bytes of a text, as they are.
pub fn print_text<R: Print>(rt: &R, text: &[u8]) -> io::Result<()> {
    io::writer(rt).write_all(text)
}

/// What the step machine shows of a script. The error is a want of memory.
pub fn machine(alloc: Global, script: &[u8]) -> Result<Shown, AllocError>
    ensures { IfOk result (IsShown script.now) }
{
    match simulator::answer(alloc, script) {
        Ok(text) => Ok(Shown::Text(text)),
        Err(script::ParseError::BadLine(number)) => Ok(Shown::BadLine(number)),
        Err(script::ParseError::NoMemory) => Err(AllocError),
    }
}

/// What a player of queues shows of a script. The error is a want of memory.
pub fn shown_by_queue(
    shown: Result<Vec<u8>, call_player::ParseError>,
) -> Result<Shown, AllocError> {
    match shown {
        Ok(text) => Ok(Shown::Text(text)),
        Err(call_player::ParseError::BadLine(number)) => Ok(Shown::BadLine(number)),
        Err(call_player::ParseError::NoMemory) => Err(AllocError),
    }
}

/// What a player of executors shows of a script. A line that it has no call for counts as bad. The error is a want of memory.
pub fn shown_by_executor(shown: Result<Vec<u8>, PlayError>) -> Result<Shown, AllocError> {
    match shown {
        Ok(text) => Ok(Shown::Text(text)),
        Err(PlayError::BadLine(number) | PlayError::NotWhole(number)) => Ok(Shown::BadLine(number)),
        Err(PlayError::NoMemory) => Err(AllocError),
    }
}

/// What a player of tasks shows of a script. The error is a want of memory.
pub fn shown_by_tasks(shown: Result<Vec<u8>, call_player::PlayError>) -> Result<Shown, AllocError> {
    match shown {
        Ok(text) => Ok(Shown::Text(text)),
        Err(call_player::PlayError::BadLine(number)) => Ok(Shown::BadLine(number)),
        Err(call_player::PlayError::NoMemory) => Err(AllocError),
    }
}
