ghost use Rattle.combinators.specs.Trying.{HasTried3};
ghost use Rattle.std.specs.Prelude.{◌≡◌};
ghost use Rattle.waiting.specs.declared.both.Awaited.TheVariants.{Given};

use crate::part::{give, is_done, try_to_go_on};
use async_task::{Future, Poll};
use waiting::Awaited;

/// A future that is ready once all three are ready, with their outputs; or at the first error, with that. Then it drops the other
/// futures at once, and what came of them. A poll polls each that isn't ready yet, in order, up to one that fails. A future is
/// dropped as soon as its output came, which is kept until all are there. Polled again it is pending. Dropped, it drops what it
/// has.
#[derive(Drop)]
pub struct TryJoin3<A, X, B, Y, C, Z> {
    pub(crate) first: Awaited<A, X>,
    pub(crate) second: Awaited<B, Y>,
    pub(crate) third: Awaited<C, Z>,
}

impl<A: Drop, X: Drop, B: Drop, Y: Drop, C: Drop, Z: Drop> TryJoin3<A, X, B, Y, C, Z> {
    /// Drops what it has.
    fn let_go(&mut self)
        ensures first { self.new.first ≡ Given }
        ensures second { self.new.second ≡ Given }
        ensures third { self.new.third ≡ Given }
    {
        self.first = Awaited::Given;
        self.second = Awaited::Given;
        self.third = Awaited::Given;
    }
}

impl<K, A, X: Drop, B, Y: Drop, C, Z: Drop, E> Future<K> for TryJoin3<A, X, B, Y, C, Z>
where
    A: Future<K, Output = Result<X, E>> + Drop,
    B: Future<K, Output = Result<Y, E>> + Drop,
    C: Future<K, Output = Result<Z, E>> + Drop,
{
    type Output = Result<(X, Y, Z), E>;

    fn poll(&mut self, waker: &K) -> Poll<Result<(X, Y, Z), E>>
        ensures { HasTried3 self.old self.new result }
    {
        if let Err(error) = try_to_go_on(&mut self.first, waker) {
            self.let_go();
            return Poll::Ready(Err(error));
        }
        if let Err(error) = try_to_go_on(&mut self.second, waker) {
            self.let_go();
            return Poll::Ready(Err(error));
        }
        if let Err(error) = try_to_go_on(&mut self.third, waker) {
            self.let_go();
            return Poll::Ready(Err(error));
        }
        if !(is_done(&self.first) && is_done(&self.second) && is_done(&self.third)) {
            return Poll::Pending;
        }
        match (
            give(&mut self.first),
            give(&mut self.second),
            give(&mut self.third),
        ) {
            (Some(first), Some(second), Some(third)) => Poll::Ready(Ok((first, second, third))),
            _ => unreachable!(),
        }
    }
}
