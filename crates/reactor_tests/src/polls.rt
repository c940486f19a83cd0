//! What a poll answers that reads or writes, and whether its task is called, row by row.
use crate::bell::Bell;
use crate::script::Script;
use crate::words::same;
use async_task::Poll;
use reactor::{Heard, Reactor, Source, Way};
use std::alloc::AllocGlobal;
use std::io::{self, ErrorKind};
use std::process::Abort;
use std::sync::Wait;

/// How many bytes a read asks for.
const MOST: usize = 4;

/// What a read gives.
type Given = Result<usize, ErrorKind>;

const BLOCKED: Given = Err(ErrorKind::WouldBlock);

const FAILED: Given = Err(ErrorKind::Other);

const CLOSED: Given = Err(ErrorKind::BrokenPipe);

#[derive(Clone, Copy)]
enum Step {
    /// A poll whose read gives this.
    Poll(Given),
    /// The same, but the poller hears of the way during the read.
    PollHearing(Given),
    /// The poller hears of the way.
    Hear,
    /// The reactor is closed.
    Close,
}

/// What is done, and what a poll answers: None is pending. How many reads were tried by then, and how often the task was called.
type Line = (Step, Option<Given>, u64, u64);

/// What both polls answer.
const BOTH: [Line; 12] = [
    (Step::Poll(Ok(MOST)), Some(Ok(MOST)), 1, 0),
    (Step::Poll(Ok(0)), Some(Ok(0)), 2, 0),
    (Step::Poll(FAILED), Some(FAILED), 3, 0),
    (Step::Poll(BLOCKED), None, 4, 0),
    (Step::Poll(Ok(MOST)), None, 4, 0),
    (Step::Hear, None, 4, 1),
    (Step::PollHearing(BLOCKED), None, 5, 2),
    (Step::Poll(Ok(MOST)), Some(Ok(MOST)), 6, 2),
    (Step::Poll(BLOCKED), None, 7, 2),
    (Step::Close, None, 7, 3),
    (Step::Poll(Ok(MOST)), Some(CLOSED), 7, 3),
    (Step::Poll(BLOCKED), Some(CLOSED), 7, 3),
];

/// After a read that gave fewer bytes a transfer waits, unless the poller heard meanwhile.
const SHORT_TRANSFER: [Line; 5] = [
    (Step::PollHearing(Ok(1)), Some(Ok(1)), 1, 0),
    (Step::Poll(Ok(1)), Some(Ok(1)), 2, 0),
    (Step::Poll(Ok(MOST)), None, 2, 0),
    (Step::Hear, None, 2, 1),
    (Step::Poll(Ok(MOST)), Some(Ok(MOST)), 3, 1),
];

/// The other poll reads on.
const SHORT: [Line; 2] = [
    (Step::Poll(Ok(1)), Some(Ok(1)), 1, 0),
    (Step::Poll(Ok(MOST)), Some(Ok(MOST)), 2, 0),
];

/// A reactor with one source, and the waker of the task that polls it.
#[derive(Drop)]
struct Stage<R: Wait + Copy + Drop> {
    rt: R,
    reactor: Reactor<Bell, R>,
    source: Source<Bell, R>,
    bell: Bell,
    transfers: bool,
}

impl<R: Wait + Copy + Drop + AllocGlobal + Abort> Stage<R> {
    fn hear(&self) {
        let mut said = Vec::new(self.rt.alloc());
        let heard = Heard {
            key: self.source.key(),
            is_readable: true,
            is_writable: false,
            is_read_closed: false,
            is_write_closed: false,
        };
        said.push(heard).expect(&self.rt, "memory");
        let _turned = self.reactor.turn(&mut Script::new(said), None);
    }

    /// A poll whose read gives this, and counts itself. During it the poller may hear.
    fn poll(&self, gives: Given, hears: bool, tried: &mut u64) -> Option<Given> {
        let read = || -> io::Result<usize> {
            *tried = tried.saturating_add(1);
            if hears {
                self.hear();
            }
            match gives {
                Ok(count) => Ok(count),
                Err(kind) => Err(kind.into()),
            }
        };
        let polled = if self.transfers {
            self.source.poll_transfer(Way::Read, &self.bell, MOST, read)
        } else {
            self.source.poll_io(Way::Read, &self.bell, read)
        };
        match polled {
            Poll::Ready(done) => Some(done.map_err(|error| error.kind())),
            Poll::Pending => None,
        }
    }

    fn play(&self, step: Step, tried: &mut u64) -> Option<Given> {
        match step {
            Step::Poll(gives) => self.poll(gives, false, tried),
            Step::PollHearing(gives) => self.poll(gives, true, tried),
            Step::Hear => {
                self.hear();
                None
            }
            Step::Close => {
                self.reactor.close();
                None
            }
        }
    }
}

/// Plays a row on a stage of its own.
fn plays<R: Wait + Copy + Drop + AllocGlobal + Abort>(rt: R, transfers: bool, lines: &[Line]) {
    let reactor = Reactor::new(rt, rt.alloc()).expect(&rt, "memory");
    let source = reactor.source().expect(&rt, "open");
    let stage = Stage {
        rt,
        reactor,
        source,
        bell: Bell::new(&rt, false),
        transfers,
    };
    let mut tried = 0u64;
    for (row, (step, answer, reads, calls)) in lines.iter().enumerate() {
        same(&rt, stage.play(*step, &mut tried), *answer, row);
        same(&rt, tried, *reads, row);
        same(&rt, stage.bell.calls(), *calls, row);
    }
}

#[test]
fn a_poll_reads_or_waits(rt: HostRuntime) {
    plays(rt, false, &BOTH);
    plays(rt, false, &SHORT);
}

#[test]
fn a_poll_that_transfers_reads_or_waits(rt: HostRuntime) {
    plays(rt, true, &BOTH);
    plays(rt, true, &SHORT_TRANSFER);
}
