//! What stands under a semaphore's lock, in each order of seven sections of two who want a permit and of one who gives, takes, adds and
//! closes, on one thread: each call answers what a model of one line a party says, and calls whom it says.
use crate::waits::bell::Bell;
use async_task::Wake;
use std::alloc::Global;
use std::{io, mem};
use waiting::parts::{Found, GaveUp, Held, Listening, Permits, Refused};

/// A section of one party.
#[derive(Clone, Copy)]
enum Section {
    Come,
    Look,
    GiveUp,
    GiveBack,
    Forget,
    Take,
    Add(u64),
    Close,
}

#[derive(Clone, Copy)]
enum Who {
    One,
    Other,
    Giver,
}

/// Where one is.
#[derive(Clone, Copy, PartialEq, Eq)]
enum At {
    Out,
    Waits,
    Promised,
    Has,
    /// It waited when the permits were closed.
    Told,
    /// It was refused, since they are closed.
    Shut,
}

/// What the model says of a party: where it is, when it came, and how often it was called.
#[derive(Clone, Copy)]
struct Seat {
    at: At,
    came: u64,
    calls: u64,
}

/// What the model says of the permits.
#[derive(Drop)]
struct Account {
    free: u64,
    came: u64,
    is_closed: bool,
    one: Seat,
    other: Seat,
    giver: Seat,
}

impl Account {
    fn new(free: u64, one: &Bell, other: &Bell) -> Account {
        let seat = |calls| Seat {
            at: At::Out,
            came: 0,
            calls,
        };
        Account {
            free,
            came: 0,
            is_closed: false,
            one: seat(one.calls()),
            other: seat(other.calls()),
            giver: seat(0),
        }
    }

    fn seat(&mut self, who: Who) -> &mut Seat {
        match who {
            Who::One => &mut self.one,
            Who::Other => &mut self.other,
            Who::Giver => &mut self.giver,
        }
    }

    fn goes(&mut self, who: Who, at: At) -> At {
        self.seat(who).at = at;
        at
    }

    /// Who waits and came first.
    fn first(&self) -> Option<Who> {
        match (self.one.at == At::Waits, self.other.at == At::Waits) {
            (true, true) if self.one.came < self.other.came => Some(Who::One),
            (_, true) => Some(Who::Other),
            (true, false) => Some(Who::One),
            (false, false) => None,
        }
    }

    /// One more is there.
    fn give(&mut self) {
        match self.first() {
            Some(who) => {
                let seat = self.seat(who);
                seat.at = At::Promised;
                seat.calls = seat.calls.saturating_add(1);
            }
            None => self.free = self.free.saturating_add(1),
        }
    }

    /// One wants a permit. Who may wait does so where none is free.
    fn wants(&mut self, who: Who, may_wait: bool) -> At {
        if self.is_closed {
            return self.goes(who, At::Shut);
        }
        if self.free > 0 {
            self.free = self.free.saturating_sub(1);
            return self.goes(who, At::Has);
        }
        if !may_wait {
            return self.goes(who, At::Out);
        }
        self.came = self.came.saturating_add(1);
        self.seat(who).came = self.came;
        self.goes(who, At::Waits)
    }

    fn looks(&mut self, who: Who) -> At {
        match self.seat(who).at {
            At::Promised => self.goes(who, At::Has),
            At::Told => self.goes(who, At::Shut),
            at => at,
        }
    }

    /// Whether it waits no more, since it was notified.
    fn gives_up(&mut self, who: Who) -> bool {
        let was = self.seat(who).at;
        self.goes(who, At::Out);
        if was == At::Promised {
            self.give();
        }
        was != At::Waits
    }

    fn gives_back(&mut self, who: Who) {
        self.goes(who, At::Out);
        self.give();
    }

    /// One who waited, or was promised one, is notified.
    fn shuts(&mut self, who: Who) {
        let was = self.seat(who).at;
        if was == At::Promised {
            self.free = self.free.saturating_add(1);
        }
        let seat = self.seat(who);
        if was == At::Waits {
            seat.calls = seat.calls.saturating_add(1);
        }
        if was == At::Waits || was == At::Promised {
            seat.at = At::Told;
        }
    }

    /// Whether they were open.
    fn closes(&mut self) -> bool {
        self.shuts(Who::One);
        self.shuts(Who::Other);
        !mem::replace(&mut self.is_closed, true)
    }
}

/// What a party has.
#[must_use]
struct Tokens {
    listening: Option<Listening>,
    held: Option<Held>,
}

impl Tokens {
    fn none() -> Tokens {
        Tokens {
            listening: None,
            held: None,
        }
    }

    fn holds(&mut self, permits: &mut Permits<Bell>, held: Held) {
        if let Some(other) = mem::replace(&mut self.held, Some(held)) {
            permits.give_back(other).tell();
        }
    }

    fn waits(&mut self, permits: &mut Permits<Bell>, listening: Listening) {
        if let Some(other) = mem::replace(&mut self.listening, Some(listening)) {
            gives_up(permits, other);
        }
    }

    /// Keeps what was found.
    fn keeps(&mut self, permits: &mut Permits<Bell>, found: Found<Bell>) -> At {
        match found {
            Found::Taken(held, _waker) => {
                self.holds(permits, held);
                At::Has
            }
            Found::Waits(listening, _before) => {
                self.waits(permits, listening);
                At::Waits
            }
            Found::Closed(_no_more, _waker) => At::Shut,
            Found::NoMemory(_waker) => At::Out,
        }
    }

    fn takes(&mut self, permits: &mut Permits<Bell>) -> At {
        match permits.take() {
            Ok(held) => {
                self.holds(permits, held);
                At::Has
            }
            Err(Refused::NoPermits) => At::Out,
            Err(Refused::Closed(_no_more)) => At::Shut,
        }
    }

    /// Gives back and gives up what it has.
    fn ends(self, permits: &mut Permits<Bell>) {
        let Tokens { listening, held } = self;
        if let Some(held) = held {
            permits.give_back(held).tell();
        }
        if let Some(listening) = listening {
            gives_up(permits, listening);
        }
    }
}

/// Gives up. Answers whether it was notified before.
fn gives_up(permits: &mut Permits<Bell>, listening: Listening) -> bool {
    match permits.give_up(listening) {
        GaveUp::Untold(_waker) => false,
        GaveUp::Told(promise) => {
            promise.tell();
            true
        }
    }
}

/// Adds so many, one section after the other. Whether none was left.
fn adds(permits: &mut Permits<Bell>, number: u64) -> bool {
    let mut left = number;
    for _ in 0..number {
        let (promise, rest) = permits.add(left);
        promise.tell();
        left = rest;
    }
    left == 0
}

/// The permits, what the model says of them, and both bells.
#[derive(Drop)]
struct Table<'a> {
    permits: Permits<Bell>,
    account: Account,
    one: &'a Bell,
    other: &'a Bell,
}

impl<'a> Table<'a> {
    fn waker(&self, who: Who) -> Option<Bell> {
        match who {
            Who::One => self.one.clone(),
            Who::Other => self.other.clone(),
            Who::Giver => None,
        }
    }

    /// A section of a party. Whether it answered what the model says.
    fn plays(&mut self, who: Who, mine: &mut Tokens, section: Section) -> bool {
        match section {
            Section::Come | Section::Look => self.wants(who, mine, section),
            Section::GiveUp => match mine.listening.take() {
                Some(listening) => {
                    gives_up(&mut self.permits, listening) == self.account.gives_up(who)
                }
                None => true,
            },
            Section::GiveBack => {
                if let Some(held) = mine.held.take() {
                    self.permits.give_back(held).tell();
                    self.account.gives_back(who);
                }
                true
            }
            Section::Forget => {
                if let Some(held) = mine.held.take() {
                    self.permits.forget(held);
                    self.account.goes(who, At::Out);
                }
                true
            }
            Section::Take if mine.held.is_none() => {
                mine.takes(&mut self.permits) == self.account.wants(who, false)
            }
            Section::Take => true,
            Section::Add(number) => {
                for _ in 0..number {
                    self.account.give();
                }
                adds(&mut self.permits, number)
            }
            Section::Close => self.permits.close().tell() == self.account.closes(),
        }
    }

    fn wants(&mut self, who: Who, mine: &mut Tokens, section: Section) -> bool {
        let waker = self.waker(who);
        let Some(listening) = mine.listening.take() else {
            return match section {
                Section::Come => {
                    let found = self.permits.come(waker);
                    mine.keeps(&mut self.permits, found) == self.account.wants(who, true)
                }
                _ => true,
            };
        };
        match section {
            Section::Look => {
                let found = self.permits.look(listening, waker);
                mine.keeps(&mut self.permits, found) == self.account.looks(who)
            }
            _ => {
                mine.waits(&mut self.permits, listening);
                true
            }
        }
    }

    /// Whether all is as the model says.
    fn is_as_it_says(&self) -> bool {
        let free = self.permits.free() == self.account.free;
        let closed = self.permits.is_closed() == self.account.is_closed;
        let one = self.one.calls() == self.account.one.calls;
        free & closed & one & (self.other.calls() == self.account.other.calls)
    }
}

/// What each of three parties does.
#[derive(Clone, Copy)]
struct Parties<'a> {
    one: &'a [Section],
    other: &'a [Section],
    giver: &'a [Section],
    /// How many permits are free at first, of which the giver takes one.
    permits: u64,
    /// How many there are once all have ended.
    left: u64,
}

/// Turns that an order says. The parties take the later ones by turns.
const ORDERED: u64 = 7;

/// Turns in all, by which each party has ended.
const TURNS: u64 = 22;

/// The parties' sections in the order of these digits, each of which says who is next. Whether each answered what the model says.
fn plays(alloc: Global, bells: &[Bell; 2], parties: &Parties<'_>, mut digits: u64) -> bool {
    let [one, other] = bells;
    let mut table = Table {
        permits: Permits::new(alloc, parties.permits),
        account: Account::new(parties.permits, one, other),
        one,
        other,
    };
    let (mut mine, mut yours, mut gives) = (Tokens::none(), Tokens::none(), Tokens::none());
    let (mut ones, mut others, mut givers) = (
        parties.one.iter(),
        parties.other.iter(),
        parties.giver.iter(),
    );
    let mut is_well = table.plays(Who::Giver, &mut gives, Section::Take);
    for turn in 0..TURNS {
        let party = if turn < ORDERED { digits % 3 } else { turn % 3 };
        digits /= 3;
        let (who, tokens, section) = match party {
            0 => (Who::One, &mut mine, ones.next()),
            1 => (Who::Other, &mut yours, others.next()),
            _ => (Who::Giver, &mut gives, givers.next()),
        };
        if let Some(section) = section {
            is_well &= table.plays(who, tokens, *section) & table.is_as_it_says();
        }
    }
    let Table { mut permits, .. } = table;
    mine.ends(&mut permits);
    yours.ends(&mut permits);
    gives.ends(&mut permits);
    is_well & (permits.free() == parties.left)
}

/// Whether each order of their sections is well.
fn all_play(alloc: Global, bells: &[Bell; 2], parties: &Parties<'_>) -> bool {
    let mut is_well = true;
    for digits in 0..2_187u64 {
        is_well &= plays(alloc, bells, parties, digits);
    }
    is_well
}

use Section::{Add, Close, Come, Forget, GiveBack, GiveUp, Look, Take};

/// What the giver does, and how many permits that adds.
const GIVERS: [(&[Section], u64); 5] = [
    (&[GiveBack, Take, GiveBack], 0),
    (&[Add(1), GiveBack, Take], 1),
    (&[Add(2), Take, GiveBack], 2),
    (&[GiveBack, Close, Take, Add(1)], 1),
    (&[Close, GiveBack, Close], 0),
];

/// What one does that gives up at each point, or never.
const GIVE_UP: [&[Section]; 4] = [
    &[],
    &[Come, GiveUp, GiveBack],
    &[Come, Look, GiveUp, GiveBack],
    &[Come, Look, Look, GiveBack, Come],
];

#[test]
fn each_order_of_sections_is_as_the_model_says(rt: HostRuntime) -> io::Result<()> {
    let bells = [Bell::new(rt.alloc(), false)?, Bell::new(rt.alloc(), false)?];
    for (giver, added) in GIVERS {
        for one in GIVE_UP {
            for permits in 1..=2u64 {
                let parties = Parties {
                    one,
                    other: &[Come, Look, Look, GiveBack],
                    giver,
                    permits,
                    left: permits.saturating_add(added),
                };
                assert!(rt; all_play(rt.alloc(), &bells, &parties));
            }
        }
    }
    Ok(())
}

/// One that is forgotten is gone: nobody gives it back.
#[test]
fn a_permit_that_is_forgotten_is_gone(rt: HostRuntime) -> io::Result<()> {
    let bells = [Bell::new(rt.alloc(), false)?, Bell::new(rt.alloc(), false)?];
    let parties = Parties {
        one: &[Come, Forget, GiveBack],
        other: &[Come, Look, GiveBack],
        giver: &[Forget, GiveBack],
        permits: 3,
        left: 1,
    };
    assert!(rt; all_play(rt.alloc(), &bells, &parties));
    Ok(())
}
