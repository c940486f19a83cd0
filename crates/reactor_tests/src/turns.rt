//! How a reactor waits, and what it does where that fails.
use crate::bell::Bell;
use crate::script::Script;
use crate::stage::{Answer, look};
use crate::words::{holds, same};
use async_task::Poll;
use reactor::{Heard, Reactor, Way};
use std::alloc::AllocGlobal;
use std::io::ErrorKind;
use std::process::Abort;
use std::sync::Wait;
use std::time::Duration;

/// Hears of a source, on which a task waits, in a wait that ends with this error. The task is called. The turn answers this.
fn turns<R: Wait + Copy + Drop + AllocGlobal + Abort>(
    rt: R,
    error: Option<ErrorKind>,
    answer: Result<bool, ErrorKind>,
    row: usize,
) {
    let reactor = Reactor::new(rt, rt.alloc()).expect(&rt, "memory");
    let source = reactor.source().expect(&rt, "open");
    let bell = Bell::new(&rt, false);
    if let Poll::Ready(Ok(guard)) = source.poll_ready(Way::Write, &bell) {
        let _blocked = guard.try_io(|| Err::<(), _>(ErrorKind::WouldBlock.into()));
    }
    same(&rt, look(&source, &bell, Way::Write), Answer::Waits, row);
    let mut said = Vec::new(rt.alloc());
    let heard = Heard {
        key: source.key(),
        is_readable: false,
        is_writable: true,
        is_read_closed: false,
        is_write_closed: false,
    };
    said.push(heard).expect(&rt, "memory");
    let mut script = Script::new(said);
    script.error = error;
    let longest = Some(Duration::from_millis(3));
    let turned = reactor
        .turn(&mut script, longest)
        .map_err(|error| error.kind());
    same(&rt, turned, answer, row);
    same(&rt, bell.calls(), 1, row);
    same(&rt, script.longest, longest, row);
    reactor.close();
    same(&rt, reactor.turn(&mut script, None).ok(), Some(false), row);
    same(&rt, script.waits, 1, row);
}

#[test]
fn a_turn_tells_all_that_was_heard(rt: HostRuntime) {
    turns(rt, None, Ok(true), 0);
    turns(rt, Some(ErrorKind::Interrupted), Ok(true), 1);
    turns(rt, Some(ErrorKind::Other), Err(ErrorKind::Other), 2);
}

/// A driver asks before each wait how long that may take. The reactor is closed as it asks for the fourth time: each wait was
/// bounded by what was answered, and none comes after the close.
fn drives<R: Wait + Copy + Drop + AllocGlobal + Abort>(rt: R) {
    let reactor = Reactor::<Bell, R>::new(rt, rt.alloc()).expect(&rt, "memory");
    let mut script = Script::new(Vec::new(rt.alloc()));
    let mut asked = 0u64;
    let driven = reactor.drive(&mut script, || {
        asked = asked.saturating_add(1);
        if asked == 4 {
            reactor.close();
        }
        Some(Duration::from_millis(asked))
    });
    holds(&rt, driven.is_ok(), 0);
    same(&rt, script.longest, Some(Duration::from_millis(3)), 0);
    same(&rt, script.waits, 3, 0);
}

#[test]
fn a_driver_asks_how_long(rt: HostRuntime) {
    drives(rt);
}
