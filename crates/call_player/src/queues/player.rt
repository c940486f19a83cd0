//! A script's calls, one after the other, and the text of their answers.

use crate::queues::call::Call;
use crate::queues::item::{Drops, Item};
use crate::queues::queue::Queue;
use concurrent_queue::{ForcePushError, PopError, PushError};
use std::alloc::{AllocError, Global};
use std::sync::atomic::Ordering::SeqCst;

/// Makes the calls on a queue, and writes a line for each.
pub fn play_calls<'a, R, Q: Queue<'a, R>>(
    rt: &R,
    alloc: Global,
    queue: &mut Q,
    calls: &[Call],
    drops: &'a Drops,
    text: &mut String,
) -> Result<(), AllocError> {
    for call in calls {
        match *call {
            Call::Push(number) => push(rt, queue, number, drops, text)?,
            Call::Force(number) => force(rt, queue, number, drops, text)?,
            Call::Pop => pop(rt, queue, text)?,
            Call::Iter(steps) => walk(rt, alloc, queue, steps, text)?,
            Call::Close => say(text, "close", queue.close(rt))?,
            Call::IsEmpty => say(text, "empty", queue.is_empty(rt))?,
            Call::IsFull => say(text, "full", queue.is_full(rt))?,
            Call::IsClosed => say(text, "closed", queue.is_closed(rt))?,
            Call::Len => say_number(text, "len", queue.len(rt) as u64)?,
            Call::Capacity => match queue.capacity() {
                Some(capacity) => say_number(text, "capacity", capacity as u64)?,
                None => write!(text, "capacity: none\n")?,
            },
        }
    }
    Ok(())
}

/// Writes a line for each item that a queue dropped, in order.
pub fn tell_drops(drops: &Drops, text: &mut String) -> Result<(), AllocError> {
    let count = drops.count();
    for (place, number) in drops.numbers().iter().enumerate() {
        if (place as u64) < count {
            let number = number.load(SeqCst);
            write!(text, "drop {number}\n")?;
        }
    }
    Ok(())
}

fn say(text: &mut String, word: &str, answer: bool) -> Result<(), AllocError> {
    write!(text, "{word}: {answer}\n")
}

fn say_number(text: &mut String, word: &str, answer: u64) -> Result<(), AllocError> {
    write!(text, "{word}: {answer}\n")
}

/// A refusal, with the number that came back where that isn't the one that was handed in.
fn say_refused(
    text: &mut String,
    word: &str,
    why: &str,
    handed_in: u64,
    back: u64,
) -> Result<(), AllocError> {
    if handed_in == back {
        write!(text, "{word}: {why}\n")
    } else {
        write!(text, "{word}: {why} {back}\n")
    }
}

fn push<'a, R, Q: Queue<'a, R>>(
    rt: &R,
    queue: &mut Q,
    number: u64,
    drops: &'a Drops,
    text: &mut String,
) -> Result<(), AllocError> {
    match queue.push(rt, Item::new(number, drops)) {
        Ok(()) => write!(text, "push: ok\n"),
        Err(PushError::Full(item)) => say_refused(text, "push", "full", number, item.give()),
        Err(PushError::Closed(item)) => say_refused(text, "push", "closed", number, item.give()),
        Err(PushError::NoMemory(item)) => {
            item.give();
            Err(AllocError)
        }
    }
}

fn force<'a, R, Q: Queue<'a, R>>(
    rt: &R,
    queue: &mut Q,
    number: u64,
    drops: &'a Drops,
    text: &mut String,
) -> Result<(), AllocError> {
    match queue.force_push(rt, Item::new(number, drops)) {
        Ok(None) => write!(text, "force: ok\n"),
        Ok(Some(displaced)) => {
            let displaced = displaced.give();
            write!(text, "force: ok {displaced}\n")
        }
        Err(ForcePushError::Closed(item)) => say_refused(
            text,
            "force",
            "closed",
            number,
            item.give(),
        ),
        Err(ForcePushError::NoMemory(item)) => {
            item.give();
            Err(AllocError)
        }
    }
}

fn pop<'a, R, Q: Queue<'a, R>>(rt: &R, queue: &mut Q, text: &mut String) -> Result<(), AllocError> {
    match queue.pop(rt) {
        Ok(item) => say_number(text, "pop", item.give()),
        Err(PopError::Empty) => write!(text, "pop: empty\n"),
        Err(PopError::Closed) => write!(text, "pop: closed\n"),
    }
}

fn walk<'a, R, Q: Queue<'a, R>>(
    rt: &R,
    alloc: Global,
    queue: &mut Q,
    steps: u64,
    text: &mut String,
) -> Result<(), AllocError> {
    let mut found = Vec::new(alloc);
    queue.walk(rt, steps, &mut found)?;
    text.push_str("iter:")?;
    for number in found.iter() {
        match number {
            Some(number) => write!(text, " {number}")?,
            None => text.push_str(" none")?,
        }
    }
    text.push_str("\n")
}
