//! The seats of a bridge: one for each future that is awaited.
ghost use Rattle.std.specs.HashMap.{get};
ghost use Rattle.std.specs.Prelude.{◌≡◌, ℕ, IfErr, IfOk, None, OnErr, OnOk, Some, false, nat_eq, true};
ghost use Rattle.kit_futures.specs.Turns.{number_of};
ghost use Rattle.kit_futures.specs.declared.parts.turn.Turn.{Turn};
ghost use Rattle.kit_futures.specs.declared.parts.seats.Seat.TheVariants.{Waits, Woken};

use crate::parts::turn::Turn;
use async_task::Wake;
use std::alloc::Global;
use std::collections::HashMap;
use std::mem;

/// The state of one future.
#[derive(Drop)]
pub enum Seat<K> {
    /// It waits, with the waker that has to be called once it is woken, where one was left.
    Waits(Option<K>),
    /// It was woken, and has to be polled.
    Woken(Turn),
}

/// The seats of a bridge, each under the number of its future. Each turn that stands there is of that number. Each call is one
/// section of whoever locks it; only `enter` takes memory. No call calls or drops a waker: the caller calls or drops each waker
/// that comes out, once it has released the lock.
#[derive(Drop)]
pub struct Seats<K> {
    is_closed: bool,
    seats: HashMap<usize, Seat<K>>,
    ghost seated: { (number : ℕ) (turn : Turn) → get nat_eq seats number ≡ Some (Woken turn) → number_of turn ≡ number },
}

/// The number of a future, as the future has it. It has no drop: its owner leaves.
#[must_use]
pub struct Ticket {
    number: usize,
}

/// Proof that the seat of this number was left.
#[derive(Drop)]
pub struct Left {
    number: usize,
}

/// Why a future may not enter.
#[derive(Debug, PartialEq, Eq, Drop)]
pub enum Refused {
    NoMemory,
    /// The bridge is closed.
    Closed,
}

/// The waiter that has to be woken, if there is one. It has no drop: it ends in `call`.
#[must_use]
pub struct Owed<K> {
    waker: Option<K>,
}

/// What a wake found.
#[must_use]
pub enum Woken<K> {
    /// The future waited, and its turn stands at its seat. The waiter that has to be woken.
    Waited(Owed<K>),
    /// The future is gone, or has a turn already. This turn, to be dropped once the lock is released.
    Gone(Turn),
}

/// What a poll of a future finds at its seat.
#[must_use]
pub enum Taken {
    /// The future was woken, and this is its turn.
    Turn(Turn),
    /// It wasn't woken.
    Waits,
    /// The bridge is closed: no wake of the future arrives any more.
    Closed(BridgeClosed),
}

/// What a waiter found.
#[must_use]
pub enum Waited<K> {
    /// The waker was left. The one that was left before, to be dropped once the lock is released.
    Left(Option<K>),
    /// The future was woken meanwhile. The waker that wasn't left has to be called.
    Woken(Owed<K>),
    /// The bridge is closed: no wake of the future arrives any more. The waker that wasn't left.
    Closed(BridgeClosed, K),
}

/// Proof that the bridge is closed: no wake of the future arrives any more.
#[derive(Debug, Drop)]
pub struct BridgeClosed {
    // Only this module makes one.
    own: (),
}

impl Ticket {
    /// The number of the future.
    pub fn number(&self) -> usize
        ensures { result ≡ self.now.number }
    {
        self.number
    }
}

impl<K: Wake> Owed<K> {
    /// Wakes the waiter. No lock is held.
    pub fn call(self) {
        let Owed { waker } = self;
        if let Some(waker) = waker {
            waker.wake();
        }
    }
}

impl<K: Wake> Seat<K> {
    /// Wakes the waiter of this seat. No lock is held.
    pub fn call(&self) {
        if let Seat::Waits(Some(waker)) = self {
            waker.wake_by_ref();
        }
    }
}

impl<K: Drop> Seats<K> {
    ghost use Rattle.std.specs.HashMap.{IsEmpty};
    ghost use Rattle.kit_futures.specs.Seats.{HasTaken, HasWaited, HasWoken, IsRefused, OnlyAt, Same};

    /// Makes an empty table of seats. Takes no memory.
    pub fn new(alloc: Global) -> Self
        ensures open { result.is_closed ≡ false }
        ensures none { IsEmpty result.seats }
    {
        Seats {
            is_closed: false,
            seats: HashMap::new(alloc),
        }
    }

    /// Makes a seat for the future of this number, where it waits. What stood there before comes out, to be dropped once the lock
    /// is released. It is nothing, as the library gives a number again only once its task was ended.
    pub fn enter(&mut self, number: usize) -> Result<(Ticket, Option<Seat<K>>), Refused>
        ensures number { IfOk result (λ entered. entered.0.number ≡ number) }
        ensures before { IfOk result (λ entered. entered.1 ≡ get nat_eq self.old.seats number) }
        ensures there { OnOk result (OnlyAt number (Some (Waits None)) self.old self.new) }
        ensures open { OnOk result (self.old.is_closed ≡ false) }
        ensures why { IfErr result (IsRefused self.old.is_closed) }
        ensures same { OnErr result (Same self.old self.new) }
    {
        if self.is_closed {
            return Err(Refused::Closed);
        }
        match self.seats.insert(number, Seat::Waits(None)) {
            Ok(before) => Ok((Ticket { number }, before)),
            Err(_) => Err(Refused::NoMemory),
        }
    }

    /// The future of this turn was woken: where it waits, its turn is put at its seat.
    pub fn wake(&mut self, turn: Turn) -> Woken<K>
        ensures { HasWoken turn self.old self.new result }
    {
        match self.seats.get_mut(&turn.number()) {
            Some(seat) => match mem::replace(seat, Seat::Waits(None)) {
                Seat::Waits(waker) => {
                    *seat = Seat::Woken(turn);
                    Woken::Waited(Owed { waker })
                }
                Seat::Woken(other) => {
                    *seat = Seat::Woken(other);
                    Woken::Gone(turn)
                }
            },
            None => Woken::Gone(turn),
        }
    }

    /// Takes the turn of the future that has this ticket.
    pub fn take(&mut self, ticket: &Ticket) -> Taken
        ensures { HasTaken ticket.now.number self.old self.new result }
    {
        match self.seats.get_mut(&ticket.number) {
            Some(seat) => match mem::replace(seat, Seat::Waits(None)) {
                Seat::Woken(turn) => Taken::Turn(turn),
                Seat::Waits(waker) => {
                    *seat = Seat::Waits(waker);
                    Taken::Waits
                }
            },
            None => Taken::Closed(BridgeClosed { own: () }),
        }
    }

    /// Leaves this waker in the place of the one before, unless the future was woken.
    pub fn wait(&mut self, ticket: &Ticket, waker: K) -> Waited<K>
        ensures { HasWaited ticket.now.number waker self.old self.new result }
    {
        match self.seats.get_mut(&ticket.number) {
            Some(seat) => match mem::replace(seat, Seat::Waits(None)) {
                Seat::Woken(turn) => {
                    *seat = Seat::Woken(turn);
                    Waited::Woken(Owed { waker: Some(waker) })
                }
                Seat::Waits(before) => {
                    *seat = Seat::Waits(Some(waker));
                    Waited::Left(before)
                }
            },
            None => Waited::Closed(BridgeClosed { own: () }, waker),
        }
    }

    /// Removes the future. What stood at its seat comes out, unless the bridge was closed before.
    pub fn leave(&mut self, ticket: Ticket) -> (Left, Option<Seat<K>>)
        ensures left { result.0.number ≡ ticket.number }
        ensures out { result.1 ≡ get nat_eq self.old.seats ticket.number }
        ensures gone { OnlyAt ticket.number None self.old self.new }
    {
        let Ticket { number } = ticket;
        (Left { number }, self.seats.remove(&number))
    }

    /// Closes the seats: no future may enter from now on. What stands at the seats comes out.
    pub fn close(&mut self, alloc: Global) -> HashMap<usize, Seat<K>>
        ensures out { result ≡ self.old.seats }
        ensures closed { self.new.is_closed ≡ true }
        ensures none { IsEmpty self.new.seats }
    {
        self.is_closed = true;
        mem::replace(&mut self.seats, HashMap::new(alloc))
    }
}
