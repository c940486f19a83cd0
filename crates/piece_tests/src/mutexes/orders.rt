//! Each order of the calls of three who want a value, on one thread, beside a model of one line a party. They give up before they
//! are woken, between the wake and the poll, and after.
use crate::bell::Bell;
use crate::turns::{ORDERS, Parties, Table, Who, plays};
use async_lock::{Mutex, MutexGuard};
use async_task::Poll;
use std::alloc::Global;
use std::io;
use std::sync::Wait;

/// A call of one party.
#[derive(Clone, Copy)]
enum Act {
    Poll,
    GiveUp,
    /// It drops its mutex, and takes another handle.
    Goes,
    Try,
    /// It drops what it holds.
    Release,
}

/// Where one is.
#[derive(Clone, Copy, PartialEq, Eq)]
enum At {
    Out,
    Waits,
    Promised,
    Has,
}

/// What the model says of a party: where it is, when it came, and how often it was called.
#[derive(Clone, Copy)]
struct Seat {
    at: At,
    came: u64,
    calls: u64,
}

/// One who wants the value.
#[derive(Drop)]
struct Party<R: Wait + Copy + Drop> {
    bell: Bell,
    mutex: Mutex<u64, Bell, R>,
    guard: Option<MutexGuard<u64, Bell, R>>,
    seat: Seat,
}

/// Three who want a value.
#[derive(Drop)]
struct Desk<R: Wait + Copy + Drop> {
    one: Party<R>,
    two: Party<R>,
    three: Party<R>,
    came: u64,
    /// How often the value was taken: so often one was added to it.
    taken: u64,
}

impl<R: Wait + Copy + Drop> Party<R> {
    fn new(alloc: Global, mutex: Mutex<u64, Bell, R>) -> io::Result<Party<R>> {
        Ok(Party {
            bell: Bell::new(alloc, false)?,
            mutex,
            guard: None,
            seat: Seat {
                at: At::Out,
                came: 0,
                calls: 0,
            },
        })
    }

    /// It has the value, which is this one.
    fn holds(&mut self, guard: MutexGuard<u64, Bell, R>, want: u64) -> bool {
        let mut guard = guard;
        let is_right = *guard.get() == want;
        *guard.get_mut() = want.saturating_add(1);
        self.guard = Some(guard);
        is_right
    }

    /// Whether it is as the model says.
    fn is_as_it_says(&self) -> bool {
        (self.guard.is_some() == (self.seat.at == At::Has)) & (self.bell.calls() == self.seat.calls)
    }
}

impl<R: Wait + Copy + Drop> Desk<R> {
    fn new(rt: R, alloc: Global) -> io::Result<Desk<R>> {
        let mutex = Mutex::new(rt, alloc, 0)?;
        let (two, three) = (mutex.clone()?, mutex.clone()?);
        Ok(Desk {
            one: Party::new(alloc, mutex)?,
            two: Party::new(alloc, two)?,
            three: Party::new(alloc, three)?,
            came: 0,
            taken: 0,
        })
    }

    fn party(&mut self, who: Who) -> &mut Party<R> {
        match who {
            Who::One => &mut self.one,
            Who::Two => &mut self.two,
            Who::Three => &mut self.three,
        }
    }

    /// Whether one has the value, or it is promised to one.
    fn is_out(&self) -> bool {
        let is_so = |at: At| at == At::Has || at == At::Promised;
        is_so(self.one.seat.at) || is_so(self.two.seat.at) || is_so(self.three.seat.at)
    }

    /// When the first came who waits.
    fn first(&self) -> u64 {
        let came = |seat: Seat| if seat.at == At::Waits {
            seat.came
        } else {
            u64::MAX
        };
        came(self.one.seat)
            .min(came(self.two.seat))
            .min(came(self.three.seat))
    }

    /// The value is there: it is promised to the first who waits.
    fn give(&mut self) {
        let first = self.first();
        for who in [Who::One, Who::Two, Who::Three] {
            let seat = &mut self.party(who).seat;
            if (seat.at == At::Waits) & (seat.came == first) {
                seat.at = At::Promised;
                seat.calls = seat.calls.saturating_add(1);
            }
        }
    }

    /// Where one is once it wants the value.
    fn wants(&mut self, who: Who, may_wait: bool) -> At {
        let is_out = self.is_out();
        self.came = self.came.saturating_add(1);
        let came = self.came;
        let seat = &mut self.party(who).seat;
        match seat.at {
            At::Promised => seat.at = At::Has,
            At::Out if !is_out => seat.at = At::Has,
            At::Out if may_wait => {
                seat.at = At::Waits;
                seat.came = came;
            }
            _ => {}
        }
        seat.at
    }

    /// Takes the value where the model says so, and else doesn't. Whether it does so.
    fn takes(&mut self, who: Who, found: Option<MutexGuard<u64, Bell, R>>, at: At) -> bool {
        let want = self.taken;
        match found {
            Some(guard) => {
                self.taken = want.saturating_add(1);
                (at == At::Has) & self.party(who).holds(guard, want)
            }
            None => at != At::Has,
        }
    }

    /// A poll, of who doesn't have the value.
    fn polls(&mut self, who: Who) -> bool {
        let at = self.wants(who, true);
        let party = self.party(who);
        match party.mutex.poll_lock(&party.bell) {
            Poll::Ready(Ok(guard)) => self.takes(who, Some(guard), at),
            Poll::Pending => self.takes(who, None, at),
            Poll::Ready(Err(_)) => false,
        }
    }

    /// A try, of who neither has the value nor waits.
    fn tries(&mut self, who: Who) -> bool {
        let at = self.wants(who, false);
        let found = self.party(who).mutex.try_lock().ok();
        self.takes(who, found, at)
    }

    /// It has neither a value nor a promise any more.
    fn lets_go(&mut self, who: Who) -> bool {
        let seat = &mut self.party(who).seat;
        let was = seat.at;
        seat.at = At::Out;
        if was == At::Has || was == At::Promised {
            self.give();
        }
        true
    }

    /// It drops its mutex, and takes another handle.
    fn goes(&mut self, who: Who) -> bool {
        let party = self.party(who);
        match party.mutex.clone() {
            Ok(mutex) => party.mutex = mutex,
            Err(_) => return false,
        }
        self.lets_go(who)
    }
}

impl<R: Wait + Copy + Drop> Table for Desk<R> {
    type Act = Act;

    fn plays(&mut self, who: Who, act: Act) -> bool {
        let at = self.party(who).seat.at;
        let is_well = match act {
            Act::Poll if at != At::Has => self.polls(who),
            Act::Try if at == At::Out => self.tries(who),
            Act::GiveUp if at != At::Has => {
                self.party(who).mutex.give_up();
                self.lets_go(who)
            }
            Act::Goes if at != At::Has => self.goes(who),
            Act::Release if at == At::Has => {
                self.party(who).guard = None;
                self.lets_go(who)
            }
            _ => true,
        };
        is_well & self.one.is_as_it_says() & self.two.is_as_it_says() & self.three.is_as_it_says()
    }
}

use Act::{GiveUp, Goes, Poll as Polls, Release, Try};

/// What one does that gives up at each point, or never.
const HASTY: [&[Act]; 5] = [
    &[Polls, Polls, Release],
    &[Polls, GiveUp, Polls, Polls],
    &[Polls, Polls, GiveUp, Release],
    &[Polls, Goes, Try, Release],
    &[Polls, Polls, Goes],
];

fn all_play<R: Wait + Copy + Drop>(rt: R, alloc: Global) -> io::Result<bool> {
    let mut is_well = true;
    for hasty in HASTY {
        let parties = Parties {
            one: hasty,
            two: &[Polls, Polls, Release, Polls, Polls],
            three: &[Try, Release, Polls, Release],
        };
        for digits in 0..ORDERS {
            let mut desk = Desk::new(rt, alloc)?;
            is_well &= plays(&mut desk, &parties, digits);
        }
    }
    Ok(is_well)
}

#[test]
fn each_order_is_as_the_model_says(rt: HostRuntime) -> io::Result<()> {
    assert!(rt; all_play(rt, rt.alloc())?);
    Ok(())
}
