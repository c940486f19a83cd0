//! What a poll answers where something happens between its two looks: while it copies its waker, another thread does it.
use crate::script::Script;
use async_task::{Poll, Wake};
use reactor::{Heard, Reactor, Source, Way};
use std::alloc::AllocGlobal;
use std::io::{self, ErrorKind};
use std::process::Abort;
use std::sync::atomic::AtomicU64;
use std::sync::atomic::Ordering::SeqCst;
use std::sync::{Arc, Wait};
use std::thread;

/// How often a thread looks for the other before it gives up.
const LOOKS: u64 = 10_000_000;

/// A waker whose copy is asked for at moment 1 and given at moment 2.
#[derive(Drop)]
struct Meeting {
    moment: Arc<AtomicU64>,
}

/// Waits until this moment, and answers whether it came.
fn comes(at: &AtomicU64, moment: u64) -> bool {
    for _ in 0..LOOKS {
        if at.load(SeqCst) >= moment {
            return true;
        }
        thread::yield_now();
    }
    false
}

impl Wake for Meeting {
    ghost is_same = { λ a b. Unit {0} };

    fn wake(self) {
        self.wake_by_ref();
    }

    fn wake_by_ref(&self) {}

    fn clone(&self) -> Option<Self> {
        self.moment.fetch_add(1, SeqCst);
        if !comes(&self.moment, 2) {
            return None;
        }
        match Arc::try_clone(&self.moment) {
            Ok(moment) => Some(Meeting { moment }),
            Err(_) => None,
        }
    }

    fn will_wake(&self, _other: &Self) -> bool {
        false
    }
}

/// What a poll answers.
#[derive(Clone, Copy, Debug, PartialEq, Eq)]
enum Answer {
    Ready,
    Closed,
    Pending,
}

fn poll<R: Wait + Copy + Drop>(source: &Source<Meeting, R>, waker: &Meeting) -> Answer {
    match source.poll_ready(Way::Read, waker) {
        Poll::Ready(Ok(guard)) => {
            guard.retain_ready();
            Answer::Ready
        }
        Poll::Ready(Err(_closed)) => Answer::Closed,
        Poll::Pending => Answer::Pending,
    }
}

/// From now on the way waits for an event.
fn block<R: Wait + Copy + Drop>(source: &Source<Meeting, R>, waker: &Meeting) {
    if let Poll::Ready(Ok(guard)) = source.poll_ready(Way::Read, waker) {
        let read = || -> io::Result<u64> { Err(ErrorKind::WouldBlock.into()) };
        let _blocked = guard.try_io(read);
    }
}

/// Waits until the copy is asked for, and answers whether it was.
fn waits(moment: &AtomicU64) -> bool {
    comes(moment, 1)
}

/// Lets the copy be given.
fn lets(moment: &AtomicU64) {
    moment.fetch_add(1, SeqCst);
}

/// The poller hears that it can be read from.
fn hear<R: Wait + Copy + Drop + AllocGlobal + Abort>(
    rt: &R,
    reactor: &Reactor<Meeting, R>,
    key: usize,
) {
    let mut said = Vec::new(rt.alloc());
    let heard = Heard {
        key,
        is_readable: true,
        is_writable: false,
        is_read_closed: false,
        is_write_closed: false,
    };
    said.push(heard).expect(rt, "memory");
    let _turned = reactor.turn(&mut Script::new(said), None);
}

#[test]
fn a_close_between_the_looks_is_answered(rt: HostRuntime) -> io::Result<()> {
    let alloc = rt.alloc();
    let reactor = Reactor::<Meeting, _>::new(rt, alloc)?;
    let source = reactor.source()?;
    let moment = Arc::new(alloc, AtomicU64::new(0))?;
    let waker = Meeting {
        moment: Arc::try_clone(&moment)?,
    };
    block(&source, &waker);
    let closes = || {
        let met = waits(&moment);
        reactor.close();
        lets(&moment);
        met
    };
    let (answer, met) = thread::join(&rt, || poll(&source, &waker), closes);
    assert!(rt; met);
    assert!(rt; answer == Answer::Closed);
    Ok(())
}

#[test]
fn an_event_between_the_looks_is_answered(rt: HostRuntime) -> io::Result<()> {
    let alloc = rt.alloc();
    let reactor = Reactor::<Meeting, _>::new(rt, alloc)?;
    let source = reactor.source()?;
    let moment = Arc::new(alloc, AtomicU64::new(0))?;
    let waker = Meeting {
        moment: Arc::try_clone(&moment)?,
    };
    block(&source, &waker);
    let hears = || {
        let met = waits(&moment);
        hear(&rt, &reactor, source.key());
        lets(&moment);
        met
    };
    let (answer, met) = thread::join(&rt, || poll(&source, &waker), hears);
    assert!(rt; met);
    assert!(rt; answer == Answer::Ready);
    assert!(rt; poll(&source, &waker) == Answer::Ready);
    Ok(())
}
