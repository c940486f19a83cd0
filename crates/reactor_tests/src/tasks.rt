//! A task that reads one thing, and the way that it reads from, section by section.
use crate::bell::Bell;
use crate::game::At;
use async_task::Wake;
use reactor::parts::{Attempt, Checked, Looked, Ready, Side, Stale};
use std::io::{self, ErrorKind};
use std::mem;

/// What a task does next.
#[derive(Clone, Copy, PartialEq, Eq)]
enum Next {
    /// It looks whether its way is ready, and reads where it is.
    Check = 0,
    /// Its read would have blocked: it says so to the way.
    Clear = 1,
    /// Its way isn't ready: it leaves its waker.
    Leave = 2,
    /// It waits until it is called.
    Wait = 3,
    /// It has read, or found the close.
    Over = 4,
}

/// A way of a source, what comes there, and who left its waker last, by what the tasks were answered.
#[derive(Drop)]
pub struct Lane {
    side: Side<Bell>,
    pub to_come: u64,
    there: u64,
    /// Whether something came for which the driver hasn't woken anyone yet.
    pub is_news: bool,
    pub to_close: bool,
    is_closed: bool,
    left: Option<usize>,
}

/// A task that reads one thing.
pub struct Task {
    number: usize,
    at: At,
    next: Next,
    stale: Option<Stale>,
    // Whether an event came since its last read.
    is_late: bool,
    seen: u64,
    bell: Bell,
}

impl Lane {
    pub fn new(to_come: u64, to_close: bool) -> Self {
        Lane {
            side: Side::new(),
            to_come,
            there: 0,
            is_news: false,
            to_close,
            is_closed: false,
            left: None,
        }
    }

    pub fn come(&mut self) {
        self.to_come = self.to_come.saturating_sub(1);
        self.there = self.there.saturating_add(1);
        self.is_news = true;
    }

    /// The driver's section, and then its call. Answers who had left its waker last.
    pub fn tell(&mut self, closes: bool) -> Option<usize> {
        let owed = if closes {
            self.to_close = false;
            self.is_closed = true;
            self.side.close()
        } else {
            self.is_news = false;
            self.side.ring()
        };
        owed.call();
        self.left.take()
    }

    /// A number of its own for what stands here, below 2^11.
    pub fn sum(&self) -> u64 {
        let readiness = match self.side.check() {
            Checked::Ready(ready) => {
                ready.give_back();
                0
            }
            Checked::Blocked => 1,
            Checked::Closed(_over) => 2,
        };
        let left = self.left.map_or(3, |task| task.min(2) as u64);
        let flags = u64::from(self.is_news) * 4
            + u64::from(self.to_close) * 2
            + u64::from(self.is_closed);
        let come = self.to_come.min(3) * 4 + self.there.min(3);
        come * 128 + flags * 16 + readiness * 4 + left
    }
}

/// What the system answers to a read.
fn take(there: &mut u64) -> io::Result<()> {
    if *there == 0 {
        return Err(ErrorKind::WouldBlock.into());
    }
    *there = there.saturating_sub(1);
    Ok(())
}

impl Task {
    pub fn new(number: usize, at: At, bell: Bell) -> Self {
        Task {
            number,
            at,
            next: Next::Check,
            stale: None,
            is_late: false,
            seen: 0,
            bell,
        }
    }

    pub fn at(&self) -> At {
        self.at
    }

    pub fn calls(&self) -> u64 {
        self.bell.calls()
    }

    fn is_called(&self) -> bool {
        self.bell.calls() != self.seen
    }

    pub fn may(&self) -> bool {
        match self.next {
            Next::Check | Next::Clear | Next::Leave => true,
            Next::Wait => self.is_called(),
            Next::Over => false,
        }
    }

    /// The next section of its poll.
    pub fn step(&mut self, lane: &mut Lane) {
        match self.next {
            Next::Check => match lane.side.check() {
                Checked::Ready(ready) => self.read(lane, ready),
                Checked::Blocked => self.next = Next::Leave,
                Checked::Closed(_over) => self.next = Next::Over,
            },
            Next::Clear => {
                if let Some(stale) = self.stale.take() {
                    let _told = lane.side.clear(stale);
                }
                self.next = Next::Check;
            }
            Next::Leave => self.leave(lane),
            Next::Wait => self.next = Next::Check,
            Next::Over => {}
        }
    }

    fn read(&mut self, lane: &mut Lane, ready: Ready) {
        match ready.try_io(|| take(&mut lane.there)) {
            Attempt::Done(_done) => self.next = Next::Over,
            Attempt::Blocked(stale) => {
                self.is_late = false;
                self.next = Next::Clear;
                if let Some(old) = mem::replace(&mut self.stale, Some(stale)) {
                    let _told = lane.side.clear(old);
                }
            }
        }
    }

    fn leave(&mut self, lane: &mut Lane) {
        let Some(copy) = self.bell.clone() else {
            return;
        };
        match lane.side.look(copy) {
            Looked::Ready(ready, _copy) => self.read(lane, ready),
            Looked::Closed(_over, _copy) => self.next = Next::Over,
            Looked::Waits(_parked, _before) => {
                lane.left = Some(self.number);
                self.seen = self.bell.calls();
                self.next = Next::Wait;
            }
        }
    }

    /// An event came to this way.
    pub fn is_told(&mut self, at: At) {
        if self.at == at {
            self.is_late = true;
        }
    }

    /// A number of its own for what it does next, below 2^5.
    pub fn sum(&self) -> u64 {
        let is_late = self.is_late && self.next == Next::Clear;
        let is_called = self.next == Next::Wait && self.is_called();
        self.next as u64 * 4 + u64::from(is_late) * 2 + u64::from(is_called)
    }

    pub fn is_over(&self) -> bool {
        self.next == Next::Over
    }

    /// Whether it waits, as the last who left its waker, where something is there or the way is closed.
    pub fn is_lost(&self, lane: &Lane) -> bool {
        self.next == Next::Wait
            && lane.left == Some(self.number)
            && (lane.there > 0 || lane.is_closed)
    }

    /// Ends it, wherever it stands. No more is done this way.
    pub fn end(self, lane: &mut Lane) {
        let Task {
            number: _,
            at: _,
            next: _,
            stale,
            is_late: _,
            seen: _,
            bell: _,
        } = self;
        if let Some(stale) = stale {
            let _told = lane.side.clear(stale);
        }
    }
}
