//! Each order of the calls of two who follow and of one who sends and closes, on one thread, beside a model.
use crate::bell::Bell;
use crate::turns::{ORDERS, Parties, Table, Who, plays};
use async_lock::watch::{self, Receiver, RecvError, Sender};
use async_task::Poll;
use std::alloc::Global;
use std::io;
use std::sync::Wait;

/// A call of one party.
#[derive(Clone, Copy)]
enum Act {
    Poll,
    GiveUp,
    /// It looks at the newest value, which counts as seen.
    Update,
    /// It drops its receiver, and takes another.
    Goes,
    Send,
    /// It drops one sender of two.
    Close,
}

/// One who follows. The version that it has seen, and whether it waits, as the model says, and how often it was called.
#[derive(Drop)]
struct Follower<R: Wait + Copy + Drop> {
    bell: Bell,
    receiver: Receiver<u64, Bell, R>,
    seen: u64,
    waits: bool,
    calls: u64,
}

/// Two who follow, and who sends. Each value is its version.
#[derive(Drop)]
struct Stage<R: Wait + Copy + Drop> {
    one: Follower<R>,
    two: Follower<R>,
    sender: Option<Sender<u64, Bell, R>>,
    other: Option<Sender<u64, Bell, R>>,
    version: u64,
    is_closed: bool,
}

impl<R: Wait + Copy + Drop> Follower<R> {
    fn new(alloc: Global, receiver: Receiver<u64, Bell, R>) -> io::Result<Follower<R>> {
        Ok(Follower {
            bell: Bell::new(alloc, false)?,
            receiver,
            seen: 0,
            waits: false,
            calls: 0,
        })
    }

    /// A change came, or the end.
    fn is_told(&mut self) {
        if self.waits {
            self.waits = false;
            self.calls = self.calls.saturating_add(1);
        }
    }

    /// Whether it answers what the model says.
    fn polls(&mut self, version: u64, is_closed: bool) -> bool {
        let polled = self.receiver.poll_changed(&self.bell);
        if version > self.seen {
            self.seen = version;
            self.waits = false;
            return matches!(polled, Poll::Ready(Ok(())));
        }
        if is_closed {
            return matches!(polled, Poll::Ready(Err(RecvError::Closed)));
        }
        self.waits = true;
        matches!(polled, Poll::Pending)
    }

    /// Whether it sees the newest.
    fn updates(&mut self, version: u64) -> bool {
        let changed = self.receiver.has_changed() == (version > self.seen);
        self.seen = version;
        match self.receiver.borrow_and_update() {
            Ok(newest) => changed & (*newest == version),
            Err(_) => false,
        }
    }

    fn goes(&mut self) -> bool {
        self.waits = false;
        match self.receiver.clone() {
            Ok(receiver) => {
                self.receiver = receiver;
                true
            }
            Err(_) => false,
        }
    }

    fn plays(&mut self, act: Act, version: u64, is_closed: bool) -> bool {
        match act {
            Act::Poll => self.polls(version, is_closed),
            Act::Update => self.updates(version),
            Act::Goes => self.goes(),
            _ => {
                self.waits = false;
                self.receiver.give_up();
                true
            }
        }
    }
}

impl<R: Wait + Copy + Drop> Stage<R> {
    fn new(rt: R, alloc: Global) -> io::Result<Stage<R>> {
        let (sender, receiver) = watch::channel(rt, alloc, 0)?;
        let two = sender.subscribe()?;
        Ok(Stage {
            one: Follower::new(alloc, receiver)?,
            two: Follower::new(alloc, two)?,
            other: Some(sender.clone()?),
            sender: Some(sender),
            version: 0,
            is_closed: false,
        })
    }

    fn tells(&mut self) {
        self.one.is_told();
        self.two.is_told();
    }

    fn sends(&mut self) -> bool {
        let Some(sender) = &self.sender else {
            return true;
        };
        self.version = self.version.saturating_add(1);
        let is_sent = sender.send(self.version).is_ok();
        self.tells();
        is_sent
    }

    fn closes(&mut self) -> bool {
        if self.other.is_some() {
            self.other = None;
            return true;
        }
        self.sender = None;
        if !self.is_closed {
            self.is_closed = true;
            self.tells();
        }
        true
    }
}

impl<R: Wait + Copy + Drop> Table for Stage<R> {
    type Act = Act;

    fn plays(&mut self, who: Who, act: Act) -> bool {
        let (version, is_closed) = (self.version, self.is_closed);
        let is_well = match (who, act) {
            (Who::One, act) => self.one.plays(act, version, is_closed),
            (Who::Two, act) => self.two.plays(act, version, is_closed),
            (Who::Three, Act::Send) => self.sends(),
            (Who::Three, _) => self.closes(),
        };
        let one = self.one.bell.calls() == self.one.calls;
        is_well & one & (self.two.bell.calls() == self.two.calls)
    }
}

use Act::{Close, GiveUp, Goes, Poll as Polls, Send, Update};

/// What one does that gives up at each point, or never.
const HASTY: [&[Act]; 5] = [
    &[Polls, Polls, Polls],
    &[Polls, GiveUp, Polls],
    &[Polls, Update, Polls],
    &[Polls, Goes, Polls],
    &[Update, Polls, Polls, GiveUp],
];

fn all_play<R: Wait + Copy + Drop>(rt: R, alloc: Global) -> io::Result<bool> {
    let mut is_well = true;
    for hasty in HASTY {
        let parties = Parties {
            one: hasty,
            two: &[Polls, Polls, Update, Polls],
            three: &[Send, Send, Close, Close],
        };
        for digits in 0..ORDERS {
            let mut stage = Stage::new(rt, alloc)?;
            is_well &= plays(&mut stage, &parties, digits);
        }
    }
    Ok(is_well)
}

#[test]
fn each_order_is_as_the_model_says(rt: HostRuntime) -> io::Result<()> {
    assert!(rt; all_play(rt, rt.alloc())?);
    Ok(())
}
