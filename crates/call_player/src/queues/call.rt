//! A script of calls on a queue, read from its text.

use std::alloc::Global;
use std::num::NonZeroUsize;
use text_lines::{Lines, ParseError, Words, read_number};

/// The queue that a script is played on.
#[derive(Clone, Copy)]
pub enum Kind {
    /// `single`, a slot for one item, or `ring <cap>`, so many places, 2 to 33.
    Bounded(NonZeroUsize),
    /// `chain`: no limit.
    Chain,
}

/// One line behind the first: a call.
#[derive(Clone, Copy)]
pub enum Call {
    Push(u64),
    Force(u64),
    Pop,
    /// So many calls of `next` on a new walk.
    Iter(u64),
    Close,
    IsEmpty,
    IsFull,
    IsClosed,
    Len,
    Capacity,
}

/// The queue and the calls of a script. Lines that begin with `#` are passed over. `BadLine` names the first bad line,
/// from 1 on, which is the one behind the last where no line names a queue; `NoMemory` says that memory was refused before.
pub fn parse(alloc: Global, script: &[u8]) -> Result<(Kind, Vec<Call>), ParseError> {
    let mut calls = Vec::new(alloc);
    let mut kind = None;
    let mut number = 0u64;
    for line in Lines::of(script) {
        number = number.wrapping_add(1);
        if line.first() == Some(&b'#') {
            continue;
        }
        if kind.is_none() {
            kind = read_kind(line);
            if kind.is_none() {
                return Err(ParseError::BadLine(number));
            }
        } else {
            let Some(call) = read_call(line) else {
                return Err(ParseError::BadLine(number));
            };
            calls.push(call)?;
        }
    }
    match kind {
        Some(kind) => Ok((kind, calls)),
        None => Err(ParseError::BadLine(number.wrapping_add(1))),
    }
}

fn read_kind(line: &[u8]) -> Option<Kind> {
    let mut words = Words::of(line);
    let word = words.next()?;
    if word == b"ring".as_slice() {
        let places = only_number(words)?;
        if places < 2 || places > 33 {
            return None;
        }
        return NonZeroUsize::new(places as usize).map(Kind::Bounded);
    }
    if !words.is_empty() {
        return None;
    }
    if word == b"single".as_slice() {
        NonZeroUsize::new(1).map(Kind::Bounded)
    } else if word == b"chain".as_slice() {
        Some(Kind::Chain)
    } else {
        None
    }
}

fn read_call(line: &[u8]) -> Option<Call> {
    let mut words = Words::of(line);
    let word = words.next()?;
    if words.is_empty() {
        return plain_call(word);
    }
    let number = only_number(words)?;
    if word == b"push".as_slice() {
        Some(Call::Push(number))
    } else if word == b"force".as_slice() {
        Some(Call::Force(number))
    } else if word == b"iter".as_slice() {
        Some(Call::Iter(number))
    } else {
        None
    }
}

// The words of calls that are given nothing.
const PLAIN: &[(&[u8], Call)] = &[
    (b"pop", Call::Pop),
    (b"close", Call::Close),
    (b"empty", Call::IsEmpty),
    (b"full", Call::IsFull),
    (b"closed", Call::IsClosed),
    (b"len", Call::Len),
    (b"capacity", Call::Capacity),
];

fn plain_call(word: &[u8]) -> Option<Call> {
    for (name, call) in PLAIN {
        if *name == word {
            return Some(*call);
        }
    }
    None
}

fn only_number(mut words: Words<'_>) -> Option<u64> {
    let number = read_number(words.next()?)?;
    words.is_empty().then_some(number)
}
