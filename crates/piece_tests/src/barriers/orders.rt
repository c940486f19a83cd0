//! Each order of the calls of three at a barrier, on one thread, beside a model. They give up before all have come, and after.
use crate::bell::Bell;
use crate::turns::{ORDERS, Parties, Table, Who, plays};
use async_lock::{Barrier, BarrierWait, BarrierWaitResult};
use async_task::{Future, NoMemory, Poll};
use std::alloc::Global;
use std::io;
use std::sync::Wait;

/// A call of one party.
#[derive(Clone, Copy)]
enum Act {
    /// By `poll_wait`.
    Poll,
    GiveUp,
    /// By a future.
    Wait,
    /// It drops its future.
    Drop,
}

/// Where one is.
#[derive(Clone, Copy, PartialEq, Eq)]
enum At {
    Out,
    Waits,
    /// All have come since it came.
    Passed,
}

/// One who comes: by its handle, and by a future. What the model says of both, and how often it was called.
#[derive(Drop)]
struct Party<R: Wait + Copy + Drop> {
    bell: Bell,
    barrier: Barrier<Bell, R>,
    at: At,
    wait: Option<BarrierWait<Bell, R>>,
    waits_at: At,
    calls: u64,
}

/// Three who come to a barrier of so many.
#[derive(Drop)]
struct Hall<R: Wait + Copy + Drop> {
    one: Party<R>,
    two: Party<R>,
    three: Party<R>,
    parties: u64,
}

/// How a poll ended.
#[derive(Clone, Copy, PartialEq, Eq)]
enum End {
    Waits,
    Leads,
    Passes,
    Other,
}

fn end_of(polled: Poll<Result<BarrierWaitResult, NoMemory>>) -> End {
    match polled {
        Poll::Pending => End::Waits,
        Poll::Ready(Ok(passed)) => if passed.is_leader() {
            End::Leads
        } else {
            End::Passes
        },
        Poll::Ready(Err(_)) => End::Other,
    }
}

impl<R: Wait + Copy + Drop> Party<R> {
    fn new(alloc: Global, barrier: Barrier<Bell, R>) -> io::Result<Party<R>> {
        Ok(Party {
            bell: Bell::new(alloc, false)?,
            barrier,
            at: At::Out,
            wait: None,
            waits_at: At::Out,
            calls: 0,
        })
    }

    /// How many of it wait.
    fn waiting(&self) -> u64 {
        ((self.at == At::Waits) as u64).saturating_add((self.waits_at == At::Waits) as u64)
    }

    /// All have come.
    fn passes(&mut self) {
        self.calls = self.calls.saturating_add(self.waiting());
        if self.at == At::Waits {
            self.at = At::Passed;
        }
        if self.waits_at == At::Waits {
            self.waits_at = At::Passed;
        }
    }

    fn polls(&mut self) -> End {
        end_of(self.barrier.poll_wait(&self.bell))
    }

    fn waits(&mut self) -> End {
        let wait = match self.wait.take() {
            Some(wait) => Some(wait),
            None => self.barrier.wait().ok(),
        };
        let Some(mut wait) = wait else {
            return End::Other;
        };
        let end = end_of(wait.poll(&self.bell));
        if end == End::Waits {
            self.wait = Some(wait);
        }
        end
    }
}

impl<R: Wait + Copy + Drop> Hall<R> {
    fn new(rt: R, alloc: Global, parties: u64) -> io::Result<Hall<R>> {
        let barrier = Barrier::new(rt, alloc, parties)?;
        let (two, three) = (barrier.clone()?, barrier.clone()?);
        Ok(Hall {
            one: Party::new(alloc, barrier)?,
            two: Party::new(alloc, two)?,
            three: Party::new(alloc, three)?,
            parties,
        })
    }

    fn party(&mut self, who: Who) -> &mut Party<R> {
        match who {
            Who::One => &mut self.one,
            Who::Two => &mut self.two,
            Who::Three => &mut self.three,
        }
    }

    /// How a poll ends of one who is there, and where it is then. Who comes last lets all others pass.
    fn ends(&mut self, at: At) -> (End, At) {
        let pair = self.one.waiting().saturating_add(self.two.waiting());
        let waiting = pair.saturating_add(self.three.waiting());
        match at {
            At::Passed => (End::Passes, At::Out),
            At::Waits => (End::Waits, At::Waits),
            At::Out if waiting.saturating_add(1) >= self.parties => {
                self.one.passes();
                self.two.passes();
                self.three.passes();
                (End::Leads, At::Out)
            }
            At::Out => (End::Waits, At::Waits),
        }
    }
}

impl<R: Wait + Copy + Drop> Table for Hall<R> {
    type Act = Act;

    fn plays(&mut self, who: Who, act: Act) -> bool {
        let (at, waits_at) = (self.party(who).at, self.party(who).waits_at);
        let is_well = match act {
            Act::Poll => {
                let (end, at) = self.ends(at);
                self.party(who).at = at;
                self.party(who).polls() == end
            }
            Act::Wait => {
                let (end, at) = self.ends(waits_at);
                self.party(who).waits_at = at;
                self.party(who).waits() == end
            }
            Act::GiveUp => {
                self.party(who).at = At::Out;
                self.party(who).barrier.give_up();
                true
            }
            Act::Drop => {
                self.party(who).waits_at = At::Out;
                self.party(who).wait = None;
                true
            }
        };
        let one = self.one.bell.calls() == self.one.calls;
        let two = self.two.bell.calls() == self.two.calls;
        is_well & one & two & (self.three.bell.calls() == self.three.calls)
    }
}

use Act::{Drop as Drops, GiveUp, Poll as Polls, Wait as Waits};

/// What one does that gives up at each point, or never.
const HASTY: [&[Act]; 4] = [
    &[Polls, Polls, Polls],
    &[Polls, GiveUp, Polls],
    &[Waits, Drops, Waits, Waits],
    &[Waits, Polls, Drops, GiveUp],
];

/// Whether all goes well at a barrier of so many.
fn all_meet<R: Wait + Copy + Drop>(rt: R, alloc: Global, number: u64) -> io::Result<bool> {
    let mut is_well = true;
    for hasty in HASTY {
        let parties = Parties {
            one: hasty,
            two: &[Polls, Polls, Polls, Polls],
            three: &[Waits, Waits, Waits],
        };
        for digits in 0..ORDERS {
            let mut hall = Hall::new(rt, alloc, number)?;
            is_well &= plays(&mut hall, &parties, digits);
        }
    }
    Ok(is_well)
}

fn all_play<R: Wait + Copy + Drop>(rt: R, alloc: Global) -> io::Result<bool> {
    let mut is_well = true;
    for number in 0..=3 {
        is_well &= all_meet(rt, alloc, number)?;
    }
    Ok(is_well)
}

#[test]
fn each_order_is_as_the_model_says(rt: HostRuntime) -> io::Result<()> {
    assert!(rt; all_play(rt, rt.alloc())?);
    Ok(())
}
