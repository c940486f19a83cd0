//! A future that may be polled. The library has its own such type, which can't be named here.
ghost use Rattle.std.specs.Prelude.{◌≡◌};

use crate::parts::{Ended, Parked, Ticket, Turn};
use futures::Future;
use futures::task::Poll;

/// A future that may be polled, with the proof of it.
#[derive(Drop)]
pub struct Pollable<F: Future> {
    future: F,
    ghost can_poll: { ∥ F.can_poll future ∥₁ },
}

/// The outcome of a poll.
#[must_use]
pub enum Polled<F, T> {
    /// The output. Its task is still to be ended.
    Ready(T, Ended),
    /// None yet: the future comes back, and is woken when another poll is worth while.
    Pending(F, Parked),
}

impl<F: Future> Pollable<F> {
    ghost use Rattle.kit_futures.specs.Awaits.{IsPolled};
    ghost use Rattle.kit_futures.specs.Turns.{number_of};

    pub fn new(future: F) -> Pollable<F>
        requires { F.can_poll future }
        ensures { result.future ≡ future }
    {
        Pollable { future }
    }

    fn into_inner(self) -> F
        ensures same { result ≡ self.future }
        ensures can_poll { F.can_poll result }
    {
        let Pollable { future } = self;
        future
    }

    /// Polls it at this turn, which is its own.
    pub fn poll(self, ticket: &Ticket, turn: Turn) -> Polled<Pollable<F>, F::Output>
        requires { number_of turn ≡ ticket.now.number }
        ensures { IsPolled ticket.now.number (λ pollable output. F.gives pollable.future output) self result }
    {
        let number = ticket.number();
        let mut future = self.into_inner();
        let mut cx = turn.into_context();
        match future.poll(&mut cx) {
            Poll::Ready(output) => Polled::Ready(output, Ended::new(number, cx)),
            Poll::Pending => Polled::Pending(Pollable::new(future), Parked::new(cx)),
        }
    }
}
