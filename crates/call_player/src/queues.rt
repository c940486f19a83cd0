//! Plays scripts of calls on a queue that threads share, or on one of one owner, and gives the text of the answers.

mod call;
mod item;
mod player;
mod queue;

use call::{Call, Kind, parse};
use concurrent_queue::ConcurrentQueue;
use item::{Drops, Item};
use player::{play_calls, tell_drops};
use queue::Queue;
use queue_steps::{Exclusive, NoMemory};
use std::alloc::{AllocError, Global};
use std::sync::Wait;
pub use text_lines::ParseError;

/// Plays a script on a `ConcurrentQueue`, and gives a line for each call, and one for each item that the queue dropped. The
/// errors are `BadLine` with the first bad line, in which case nothing was played, and `NoMemory`. It takes memory.
pub fn play_shared<R>(rt: R, alloc: Global, script: &[u8]) -> Result<Vec<u8>, ParseError>
where
    R: Wait + Drop,
{
    let (kind, calls) = parse(alloc, script)?;
    let drops = Drops::with_room(alloc, calls.len())?;
    Ok(play_calls_shared(&rt, alloc, kind, calls.as_slice(), &drops)?)
}

/// The same on an `Exclusive`.
pub fn play_exclusive(alloc: Global, script: &[u8]) -> Result<Vec<u8>, ParseError> {
    let (kind, calls) = parse(alloc, script)?;
    let drops = Drops::with_room(alloc, calls.len())?;
    Ok(play_calls_exclusive(alloc, kind, calls.as_slice(), &drops)?)
}

fn play_calls_shared<'a, R: Wait>(
    rt: &R,
    alloc: Global,
    kind: Kind,
    calls: &[Call],
    drops: &'a Drops,
) -> Result<Vec<u8>, AllocError> {
    let queue: ConcurrentQueue<Item<'a>> = shared(alloc, kind)?;
    play_on(rt, alloc, queue, calls, drops)
}

fn play_calls_exclusive<'a>(
    alloc: Global,
    kind: Kind,
    calls: &[Call],
    drops: &'a Drops,
) -> Result<Vec<u8>, AllocError> {
    let queue: Exclusive<Item<'a>> = exclusive(alloc, kind)?;
    play_on(&(), alloc, queue, calls, drops)
}

/// Makes the calls, drops the queue, and gives the text of both.
fn play_on<'a, R, Q: Queue<'a, R> + Drop>(
    rt: &R,
    alloc: Global,
    queue: Q,
    calls: &[Call],
    drops: &'a Drops,
) -> Result<Vec<u8>, AllocError> {
    let mut text = String::new(alloc);
    let mut queue = queue;
    play_calls(rt, alloc, &mut queue, calls, drops, &mut text)?;
    drop(queue);
    tell_drops(drops, &mut text)?;
    Ok(text.into_bytes())
}

fn shared<'a>(alloc: Global, kind: Kind) -> Result<ConcurrentQueue<Item<'a>>, AllocError> {
    match kind {
        Kind::Bounded(places) => match ConcurrentQueue::bounded(alloc, places.get()) {
            Ok(queue) => Ok(queue),
            Err(NoMemory) => Err(AllocError),
        },
        Kind::Chain => Ok(ConcurrentQueue::unbounded(alloc)),
    }
}

fn exclusive<'a>(alloc: Global, kind: Kind) -> Result<Exclusive<Item<'a>>, AllocError> {
    match kind {
        Kind::Bounded(places) => match Exclusive::bounded(alloc, places.get()) {
            Ok(queue) => Ok(queue),
            Err(NoMemory) => Err(AllocError),
        },
        Kind::Chain => Ok(Exclusive::unbounded(alloc)),
    }
}
