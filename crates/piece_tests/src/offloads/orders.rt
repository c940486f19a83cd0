//! Each order of the calls of two who hand work in to one place and of one who serves and closes, on one thread, beside a model. One of
//! the two gives up at each point. Then only who was woken goes on, and each that stayed is answered.
use crate::bell::Bell;
use crate::offloads::{Double, counted};
use crate::turns::{ORDERS, Parties, Table, Who, plays};
use async_task::{Future, Poll};
use offload::{Offload, Run, RunError, Served};
use std::alloc::Global;
use std::io;
use std::sync::atomic::AtomicU64;
use std::sync::atomic::Ordering::SeqCst;
use std::sync::{Arc, Wait};

/// A call of one party: of who hands work in, or of who serves.
#[derive(Clone, Copy)]
enum Act {
    Poll,
    GiveUp,
    Once,
    Close,
}

/// How far one is who hands work in.
#[derive(Clone, Copy, PartialEq, Eq)]
enum At {
    /// It has handed nothing in yet, or waits for a place.
    Outside,
    /// Its work was accepted.
    Accepted,
    /// It was answered, or gave up.
    Ended,
}

/// How a poll ended.
#[derive(Clone, Copy, PartialEq, Eq)]
enum End {
    Waits,
    Output(u64),
    /// The work of this number came back.
    Back(u64),
    Other,
}

fn end_of(polled: Poll<Result<u64, RunError<Double>>>) -> End {
    match polled {
        Poll::Pending => End::Waits,
        Poll::Ready(Ok(output)) => End::Output(output),
        Poll::Ready(Err(RunError::Closed(job))) => End::Back(job.number),
        _ => End::Other,
    }
}

/// One who hands work in, and what the model says of it.
#[derive(Drop)]
struct Asker<R: Wait + Copy + Drop> {
    bell: Bell,
    run: Option<Run<Double, Bell, R>>,
    done: Arc<AtomicU64>,
    /// How often its bell had been called at its last poll.
    heard: u64,
    at: At,
    was_accepted: bool,
}

/// One place for work, whether work is there, and two who hand work in.
#[derive(Drop)]
struct Office<R: Wait + Copy + Drop> {
    one: Asker<R>,
    two: Asker<R>,
    offload: Offload<Double, Bell, R>,
    is_taken: bool,
    is_closed: bool,
}

const NUMBER: u64 = 21;

const DOUBLED: u64 = 42;

impl<R: Wait + Copy + Drop> Asker<R> {
    fn new(alloc: Global, offload: &Offload<Double, Bell, R>) -> io::Result<Asker<R>> {
        let bell = Bell::new(alloc, false)?;
        let done = Arc::new(alloc, AtomicU64::new(0))?;
        let run = offload.run(counted(NUMBER, &done)?)?;
        Ok(Asker {
            bell,
            run: Some(run),
            done,
            heard: 0,
            at: At::Outside,
            was_accepted: false,
        })
    }

    /// How a poll has to end, where its work is accepted if a place is free.
    fn due(&mut self, is_free: bool, is_closed: bool) -> End {
        match self.at {
            At::Outside if is_closed => End::Back(NUMBER),
            At::Outside if is_free => {
                self.at = At::Accepted;
                self.was_accepted = true;
                End::Waits
            }
            At::Accepted if self.done.load(SeqCst) == 1 => End::Output(DOUBLED),
            _ => End::Waits,
        }
    }

    /// A poll. Whether it ended so.
    fn polls(&mut self, due: End) -> bool {
        self.heard = self.bell.calls();
        if due != End::Waits {
            self.at = At::Ended;
        }
        match &mut self.run {
            Some(run) => end_of(run.poll(&self.bell)) == due,
            None => false,
        }
    }

    fn gives_up(&mut self) {
        self.run = None;
        self.at = At::Ended;
    }

    /// Whether it was woken since its last poll.
    fn is_woken(&self) -> bool {
        self.bell.calls() > self.heard
    }

    /// Whether it ended, and its work was done where it was accepted.
    fn is_answered(&self) -> bool {
        let done = self.done.load(SeqCst);
        (self.at == At::Ended) & (done == self.was_accepted as u64)
    }
}

impl<R: Wait + Copy + Drop> Office<R> {
    fn new(rt: R, alloc: Global) -> io::Result<Office<R>> {
        let offload = Offload::new(rt, alloc, 1)?;
        let one = Asker::new(alloc, &offload)?;
        let two = Asker::new(alloc, &offload)?;
        Ok(Office {
            one,
            two,
            offload,
            is_taken: false,
            is_closed: false,
        })
    }

    fn asker(&mut self, who: Who) -> &mut Asker<R> {
        match who {
            Who::One => &mut self.one,
            Who::Two | Who::Three => &mut self.two,
        }
    }

    /// A poll of one who hasn't ended. Whether it answered what the model says.
    fn polls(&mut self, who: Who) -> bool {
        let (is_free, is_closed) = (!self.is_taken, self.is_closed);
        let asker = self.asker(who);
        let was = asker.at;
        if was == At::Ended {
            return true;
        }
        let due = asker.due(is_free, is_closed);
        let is_right = asker.polls(due);
        let is_accepted = asker.at != was;
        self.is_taken |= is_accepted & (due == End::Waits);
        is_right
    }

    /// Whether it answered what the model says.
    fn serves(&mut self) -> bool {
        let due = if self.is_taken {
            Served::Worked
        } else if self.is_closed {
            Served::Over
        } else {
            Served::Nothing
        };
        self.is_taken = false;
        self.offload.serve_once() == due
    }

    fn closes(&mut self) -> bool {
        let was_open = !self.is_closed;
        self.is_closed = true;
        self.offload.close() == was_open
    }

    /// One serves, and who was woken goes on. Whether all are answered then, as the model says.
    fn ends(&mut self) -> bool {
        let mut is_well = true;
        for _ in 0..4 {
            is_well &= self.serves();
            is_well &= !self.one.is_woken() || self.polls(Who::One);
            is_well &= !self.two.is_woken() || self.polls(Who::Two);
        }
        is_well & self.one.is_answered() & self.two.is_answered()
    }
}

impl<R: Wait + Copy + Drop> Table for Office<R> {
    type Act = Act;

    fn plays(&mut self, who: Who, act: Act) -> bool {
        match act {
            Act::Poll => self.polls(who),
            Act::GiveUp => {
                self.asker(who).gives_up();
                true
            }
            Act::Once => self.serves(),
            Act::Close => self.closes(),
        }
    }
}

use Act::{Close, GiveUp, Once, Poll as Polls};

/// What one does who stays, and who gives up at each point.
const HASTY: [&[Act]; 4] = [
    &[Polls, Polls, Polls],
    &[GiveUp],
    &[Polls, GiveUp],
    &[Polls, Polls, GiveUp],
];

/// What one does who serves.
const SERVES: [&[Act]; 4] = [
    &[],
    &[Once, Once, Once],
    &[Once, Close, Once, Close],
    &[Close, Once, Once],
];

/// Whether all goes well in each order of these calls.
fn each_order<R: Wait + Copy + Drop>(
    rt: R,
    alloc: Global,
    parties: &Parties<'_, Act>,
) -> io::Result<bool> {
    let mut is_well = true;
    for digits in 0..ORDERS {
        let mut office = Office::new(rt, alloc)?;
        is_well &= plays(&mut office, parties, digits);
        is_well &= office.ends();
    }
    Ok(is_well)
}

fn all_play<R: Wait + Copy + Drop>(rt: R, alloc: Global) -> io::Result<bool> {
    let mut is_well = true;
    for hasty in HASTY {
        for serves in SERVES {
            let parties = Parties {
                one: hasty,
                two: &[Polls, Polls],
                three: serves,
            };
            is_well &= each_order(rt, alloc, &parties)?;
        }
    }
    Ok(is_well)
}

#[test]
fn each_order_is_as_the_model_says(rt: HostRuntime) -> io::Result<()> {
    assert!(rt; all_play(rt, rt.alloc())?);
    Ok(())
}
