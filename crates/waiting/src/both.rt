//! Both of two futures.
ghost use Rattle.std.specs.Prelude.{◌≡◌, IfSome, None};
ghost use Rattle.waiting.specs.Both.{HasJoined, Stays, output_of};
ghost use Rattle.waiting.specs.declared.both.Awaited.TheVariants as awaited;

use async_task::{Future, Poll};
use std::mem;

/// The state of a future that is awaited beside others: the future, and later its output.
#[derive(Drop)]
pub enum Awaited<F, T> {
    /// It isn't ready yet.
    Waiting(F),
    /// Its output, which is kept until all are ready.
    Done(T),
    /// Its output was given.
    Given,
}

/// A future that is ready once both futures are ready, with both outputs. A poll polls each future that isn't ready yet. Dropped,
/// it drops what it has.
#[derive(Drop)]
pub struct Join<A, X, B, Y> {
    pub(crate) first: Awaited<A, X>,
    pub(crate) second: Awaited<B, Y>,
}

impl<F: Drop, T: Drop> Awaited<F, T> {
    /// Polls the future, unless it was ready before.
    fn go_on<K>(&mut self, waker: &K)
    where
        F: Future<K, Output = T>,
        ensures { Stays self.old self.new }
    {
        if let Awaited::Waiting(future) = self {
            if let Poll::Ready(output) = future.poll(waker) {
                *self = Awaited::Done(output);
            }
        }
    }

    /// Takes the output where it is there. The output is given once.
    fn give(&mut self) -> Option<T>
        ensures output { result ≡ output_of self.old }
        ensures given { IfSome result (λ _. self.new ≡ awaited.Given) }
        ensures stays { result ≡ None → self.new ≡ self.old }
    {
        match mem::replace(self, Awaited::Given) {
            Awaited::Done(output) => Some(output),
            Awaited::Waiting(future) => {
                *self = Awaited::Waiting(future);
                None
            }
            Awaited::Given => None,
        }
    }
}

impl<K, A, X: Drop, B, Y: Drop> Future<K> for Join<A, X, B, Y>
where
    A: Future<K, Output = X> + Drop,
    B: Future<K, Output = Y> + Drop,
{
    type Output = (X, Y);

    fn poll(&mut self, waker: &K) -> Poll<(X, Y)>
        ensures { HasJoined self.old.first self.old.second self.new.first self.new.second result }
    {
        self.first.go_on(waker);
        self.second.go_on(waker);
        let Awaited::Done(_) = &self.second else {
            return Poll::Pending;
        };
        let Some(first) = self.first.give() else {
            return Poll::Pending;
        };
        match self.second.give() {
            Some(second) => Poll::Ready((first, second)),
            None => {
                self.first = Awaited::Done(first);
                Poll::Pending
            }
        }
    }
}
