//! Every order of the sections of a sender and two receivers, one of which gives up, on one thread: a push and the tell that
//! follows it are two sections, and a receive looks, listens, looks again and leaves its waker. It may give up between its polls.
//! After so many sections in each order all go on in turn until nobody can.
ghost use Rattle.std.specs.Prelude.{◌<◌};

use crate::waits::bell::Bell;
use async_task::{Future, Poll};
use std::alloc::Global;
use std::sync::Wait;
use std::{io, mem};
use waiting::parts::{Came, Line, Nothing, Shut};
use waiting::{Event, Listener};

// So many sections come in each order.
const ORDERED: u64 = 8;

// So many turns are more than anybody needs to come to its end.
const TURNS: u64 = 48;

/// A channel, by its parts.
#[derive(Drop)]
struct Table<R: Wait + Copy + Drop> {
    rt: R,
    line: Line<u64>,
    places: Event<Bell, R>,
    messages: Event<Bell, R>,
}

impl<R: Wait + Copy + Drop> Table<R> {
    fn new(rt: R, alloc: Global) -> io::Result<Table<R>> {
        Ok(Table {
            rt,
            line: Line::bounded(alloc, 2)?,
            places: Event::new(rt, alloc)?,
            messages: Event::new(rt, alloc)?,
        })
    }

    /// Keeps a notification for later. No other is kept then.
    fn owes(&self, owed: &mut Option<Came>, came: Came) {
        if let Some(before) = mem::replace(owed, Some(came)) {
            let _sent = before.tell(&self.messages);
        }
    }

    fn shuts(&self, owed: &mut Option<Shut>) {
        let shut = self.line.close(&self.rt);
        if let Some(before) = mem::replace(owed, Some(shut)) {
            before.tell(&self.places, &self.messages);
        }
    }

    /// Takes a message, and tells of its place.
    fn takes(&self) -> bool {
        match self.line.pop(&self.rt) {
            Ok((_message, freed)) => {
                freed.tell(&self.places);
                true
            }
            Err(Nothing::Empty | Nothing::Over(_)) => false,
        }
    }
}

/// Where a receiver stands.
#[derive(Clone, Copy, Drop)]
enum At {
    /// It looks in its first poll.
    Begins,
    Looks,
    Listens,
    LooksAgain,
    LeavesItsWaker,
    /// Its bell was called so often when it left its waker.
    Waits(u64),
    Has,
    Gone,
}

/// A receiver, which gives up between two polls, once it had so many turns.
#[derive(Drop)]
struct Receives<R: Wait + Copy + Drop> {
    at: At,
    bell: Bell,
    listener: Option<Listener<Bell, R>>,
    turns_left: u64,
}

impl<R: Wait + Copy + Drop> Receives<R> {
    fn new(alloc: Global, turns_left: u64) -> io::Result<Receives<R>> {
        Ok(Receives {
            at: At::Begins,
            bell: Bell::new(alloc, false)?,
            listener: None,
            turns_left,
        })
    }

    fn takes_or(&mut self, table: &Table<R>, otherwise: At) -> At {
        if table.takes() {
            self.listener = None;
            At::Has
        } else {
            otherwise
        }
    }

    fn leaves_its_waker(&mut self) -> At {
        let Some(mut listener) = self.listener.take() else {
            return At::Looks;
        };
        match listener.poll(&self.bell) {
            Poll::Ready(()) => At::Looks,
            Poll::Pending => {
                self.listener = Some(listener);
                At::Waits(self.bell.calls())
            }
        }
    }

    /// One section.
    fn turn(&mut self, table: &Table<R>) {
        if let At::Has | At::Gone = self.at {
            return;
        }
        if self.turns_left == 0 && matches!(self.at, At::Begins | At::Waits(_)) {
            self.listener = None;
            self.at = At::Gone;
            return;
        }
        self.turns_left = self.turns_left.saturating_sub(1);
        self.at = match self.at {
            At::Begins | At::Looks => self.takes_or(table, At::Listens),
            At::Listens => {
                self.listener = table.messages.listen().ok();
                At::LooksAgain
            }
            At::LooksAgain => self.takes_or(table, At::LeavesItsWaker),
            At::LeavesItsWaker => self.leaves_its_waker(),
            At::Waits(calls) if self.bell.calls() != calls => At::LooksAgain,
            other => other,
        };
    }

    fn has(&self) -> u64 {
        u64::from(matches!(self.at, At::Has))
    }
}

/// A sender of so many messages.
struct Sends {
    left: u64,
    accepted: u64,
    came: Option<Came>,
}

impl Sends {
    fn new(messages: u64) -> Sends {
        Sends {
            left: messages,
            accepted: 0,
            came: None,
        }
    }

    /// One section: a push, or the tell that follows it.
    fn turn<R: Wait + Copy + Drop>(&mut self, table: &Table<R>) {
        if let Some(came) = self.came.take() {
            let _sent = came.tell(&table.messages);
            return;
        }
        if self.left == 0 {
            return;
        }
        self.left -= 1;
        if let Ok(came) = table.line.push(&table.rt, self.left) {
            self.accepted = self.accepted.saturating_add(1);
            table.owes(&mut self.came, came);
        }
    }

    /// How many were accepted.
    fn ends<R: Wait + Copy + Drop>(self, table: &Table<R>) -> u64 {
        let Sends {
            left: _,
            accepted,
            came,
        } = self;
        if let Some(came) = came {
            let _sent = came.tell(&table.messages);
        }
        accepted
    }
}

/// Who has the turn of this number: one by the order, and later each in turn.
fn whose(order: &mut u64, turn: u64, parties: u64) -> u64
    requires { 0 < parties }
{
    if turn >= ORDERED {
        return turn % parties;
    }
    let party = *order % parties;
    *order = *order / parties;
    party
}

/// Whether no message lies there while the receiver that stays waits, and none is lost.
fn is_received<R: Wait + Copy + Drop>(
    rt: R,
    alloc: Global,
    order: u64,
    messages: u64,
    gives_up_at: u64,
) -> io::Result<bool> {
    let table = Table::new(rt, alloc)?;
    let mut goes = Receives::new(alloc, gives_up_at)?;
    let mut stays = Receives::new(alloc, TURNS)?;
    let mut sends = Sends::new(messages);
    let mut order = order;
    for turn in 0..TURNS {
        match whose(&mut order, turn, 3) {
            0 => sends.turn(&table),
            1 => goes.turn(&table),
            _ => stays.turn(&table),
        }
    }
    let accepted = sends.ends(&table);
    let left = table.line.len(&table.rt) as u64;
    let all = left.saturating_add(goes.has()).saturating_add(stays.has());
    Ok((accepted == messages) & (all == messages) & ((left == 0) | (stays.has() == 1)))
}

/// In each order of eight sections, with one message and two. One gives up before its first poll, behind that, behind its second, or never.
fn in_each_order<R: Wait + Copy + Drop>(rt: R, alloc: Global) -> io::Result<bool> {
    let mut holds = true;
    for gives_up_at in [0, 1, 6, TURNS] {
        for messages in 1..=2 {
            for order in 0..6_561 {
                holds &= is_received(rt, alloc, order, messages, gives_up_at)?;
            }
        }
    }
    Ok(holds)
}

#[test]
fn a_receiver_that_stays_has_its_message(rt: HostRuntime) -> io::Result<()> {
    assert!(rt; in_each_order(rt, rt.alloc())?);
    Ok(())
}

/// The last receiver, which goes: it closes, tells all, and takes what is left until nothing is.
struct Goes {
    is_open: bool,
    shut: Option<Shut>,
    taken: u64,
    is_over: bool,
}

impl Goes {
    /// One section.
    fn turn<R: Wait + Copy + Drop>(&mut self, table: &Table<R>) {
        if self.is_open {
            self.is_open = false;
            table.shuts(&mut self.shut);
        } else if let Some(shut) = self.shut.take() {
            shut.tell(&table.places, &table.messages);
        } else if !self.is_over {
            match table.line.pop(&table.rt) {
                Ok((_message, freed)) => {
                    freed.tell(&table.places);
                    self.taken = self.taken.saturating_add(1);
                }
                Err(Nothing::Empty) => {}
                Err(Nothing::Over(_ended)) => self.is_over = true,
            }
        }
    }

    /// How many it took, once it found the end.
    fn ends<R: Wait + Copy + Drop>(self, table: &Table<R>) -> Option<u64> {
        let Goes {
            is_open: _,
            shut,
            taken,
            is_over,
        } = self;
        if let Some(shut) = shut {
            shut.tell(&table.places, &table.messages);
        }
        if is_over { Some(taken) } else { None }
    }
}

/// Whether each message that was accepted was taken by the last receiver, which found the end.
fn is_drained<R: Wait + Copy + Drop>(rt: R, alloc: Global, order: u64) -> io::Result<bool> {
    let table = Table::new(rt, alloc)?;
    let mut goes = Goes {
        is_open: true,
        shut: None,
        taken: 0,
        is_over: false,
    };
    let mut sends = Sends::new(2);
    let mut order = order;
    for turn in 0..TURNS {
        match whose(&mut order, turn, 2) {
            0 => sends.turn(&table),
            _ => goes.turn(&table),
        }
    }
    let accepted = sends.ends(&table);
    let taken = goes.ends(&table);
    Ok((taken == Some(accepted)) & (table.line.len(&table.rt) == 0))
}

fn drained_in_each_order<R: Wait + Copy + Drop>(rt: R, alloc: Global) -> io::Result<bool> {
    let mut holds = true;
    for order in 0..256 {
        holds &= is_drained(rt, alloc, order)?;
    }
    Ok(holds)
}

#[test]
fn nothing_is_left_in_a_dead_channel(rt: HostRuntime) -> io::Result<()> {
    assert!(rt; drained_in_each_order(rt, rt.alloc())?);
    Ok(())
}
