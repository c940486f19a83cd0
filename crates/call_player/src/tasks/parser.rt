//! A text read as a script.
use crate::tasks::command::{
    Act, Call, Command, HandleCall, Item, ListCall, Name, PairCall, WakerCall,
};
use std::alloc::{AllocError, Global};
use std::str;
use text_lines::{Lines, ParseError, Words, read_number};

/// The most items that a future has.
const MOST_ITEMS: usize = 8;

/// The calls of a script, and its names in the order in which it first uses them.
#[derive(Drop)]
pub struct Script {
    pub names: Vec<String>,
    pub commands: Vec<Command>,
}

/// The script of this text, or its first bad line. A line that begins with `#` is left out.
pub fn parse(alloc: Global, text: &[u8]) -> Result<Script, ParseError> {
    let mut script = Script {
        names: Vec::new(alloc),
        commands: Vec::new(alloc),
    };
    let mut number = 0_u64;
    for line in Lines::of(text) {
        number = number.saturating_add(1);
        if line.first() == Some(&b'#') {
            continue;
        }
        match script.command(alloc, line)? {
            Some(command) => script.commands.push(command)?,
            None => return Err(ParseError::BadLine(number)),
        }
    }
    Ok(script)
}

impl Script {
    /// What a line says, or None where it is bad.
    fn command(&mut self, alloc: Global, line: &[u8]) -> Result<Option<Command>, AllocError> {
        let mut words = Words::of(line);
        let Some(word) = words.next() else {
            return Ok(None);
        };
        if word == b"spawn".as_slice() {
            return self.spawn(alloc, words);
        }
        if let Some(call) = call_of(&ListCall::ALL, word) {
            return Ok(words.is_empty().then_some(Command::List(call)));
        }
        let Some(first) = self.name(alloc, words.next())? else {
            return Ok(None);
        };
        if let Some(call) = call_of(&WakerCall::ALL, word) {
            return Ok(words.is_empty().then_some(Command::Waker(call, first)));
        }
        if let Some(call) = call_of(&HandleCall::ALL, word) {
            return Ok(words.is_empty().then_some(Command::Handle(call, first)));
        }
        self.pair(alloc, word, first, words)
    }

    /// What a line of two names says. A poll may leave out the second.
    fn pair(
        &mut self,
        alloc: Global,
        word: &[u8],
        first: Name,
        words: Words<'_>,
    ) -> Result<Option<Command>, AllocError> {
        let mut words = words;
        let Some(call) = call_of(&PairCall::ALL, word) else {
            return Ok(None);
        };
        if let (PairCall::Poll, true) = (call, words.is_empty()) {
            return Ok(Some(Command::Pair(call, first, first)));
        }
        let second = self.name(alloc, words.next())?;
        Ok(match (second, words.is_empty()) {
            (Some(second), true) => Some(Command::Pair(call, first, second)),
            _ => None,
        })
    }

    /// What a line says that makes a task.
    fn spawn(&mut self, alloc: Global, words: Words<'_>) -> Result<Option<Command>, AllocError> {
        let mut words = words;
        let Some(name) = self.name(alloc, words.next())? else {
            return Ok(None);
        };
        let mut metadata = None;
        let mut items = Vec::new(alloc);
        for word in words {
            if let (None, true, Some(number)) = (
                metadata,
                items.is_empty(),
                value_of(word, b"metadata="),
            ) {
                metadata = Some(number);
                continue;
            }
            match item_of(alloc, word)? {
                Some(item) if items.len() < MOST_ITEMS => items.push(item)?,
                _ => return Ok(None),
            }
        }
        if items.is_empty() {
            return Ok(None);
        }
        Ok(Some(Command::Spawn(name, metadata.unwrap_or(0), items)))
    }

    /// The number of this name, where the word is one: letters, digits and `_`.
    fn name(&mut self, alloc: Global, word: Option<&[u8]>) -> Result<Option<Name>, AllocError> {
        let Some(word) = word else {
            return Ok(None);
        };
        if word.is_empty()
            || !word
                .iter()
                .all(|byte| byte.is_ascii_alphanumeric() || *byte == b'_')
        {
            return Ok(None);
        }
        if let Some(number) = self.names.iter().position(|name| name.as_bytes() == word) {
            return Ok(Some(Name(number)));
        }
        let Ok(text) = str::from_utf8(word) else {
            return Ok(None);
        };
        let mut name = String::new(alloc);
        name.push_str(text)?;
        let number = self.names.len();
        self.names.push(name)?;
        Ok(Some(Name(number)))
    }
}

/// The one of these calls that has this word.
fn call_of<C: Call>(all: &[C], word: &[u8]) -> Option<C> {
    for call in all {
        if call.word().as_bytes() == word {
            return Some(*call);
        }
    }
    None
}

/// The number behind this front, where the word is both.
fn value_of(word: &[u8], front: &[u8]) -> Option<u64> {
    read_number(word.strip_prefix(front)?)
}

/// What a future does at a poll, where the word says it.
fn item_of(alloc: Global, word: &[u8]) -> Result<Option<Item>, AllocError> {
    let mut item = Item {
        acts: Vec::new(alloc),
        output: None,
    };
    if word == b"pend".as_slice() {
        return Ok(Some(item));
    }
    for part in word.split(|byte| *byte == b'+') {
        if item.output.is_some() {
            return Ok(None);
        }
        if part == b"self".as_slice() {
            item.acts.push(Act::Wake)?;
        } else if part == b"keep".as_slice() {
            item.acts.push(Act::Keep)?;
        } else if let Some(output) = value_of(part, b"ready=") {
            item.output = Some(output);
        } else {
            return Ok(None);
        }
    }
    Ok(Some(item))
}
