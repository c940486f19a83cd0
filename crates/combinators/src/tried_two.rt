ghost use Rattle.combinators.specs.Trying.{HasTriedBoth};
ghost use Rattle.std.specs.Prelude.{◌≡◌};
ghost use Rattle.waiting.specs.declared.both.Awaited.TheVariants.{Given};

use crate::part::{give, is_done, try_to_go_on};
use async_task::{Future, Poll};
use waiting::Awaited;

/// A future that is ready once both are ready, with both outputs; or at the first error, with that. Then it drops the other future
/// at once, or what came of it. A poll polls each that isn't ready yet, in order, up to one that fails. A future is dropped as
/// soon as its output came, which is kept until both are there. Polled again it is pending. Dropped, it drops what it has.
#[derive(Drop)]
pub struct TryJoin<A, X, B, Y> {
    pub(crate) first: Awaited<A, X>,
    pub(crate) second: Awaited<B, Y>,
}

impl<A: Drop, X: Drop, B: Drop, Y: Drop> TryJoin<A, X, B, Y> {
    /// Drops what it has.
    fn let_go(&mut self)
        ensures first { self.new.first ≡ Given }
        ensures second { self.new.second ≡ Given }
    {
        self.first = Awaited::Given;
        self.second = Awaited::Given;
    }
}

impl<K, A, X: Drop, B, Y: Drop, E> Future<K> for TryJoin<A, X, B, Y>
where
    A: Future<K, Output = Result<X, E>> + Drop,
    B: Future<K, Output = Result<Y, E>> + Drop,
{
    type Output = Result<(X, Y), E>;

    fn poll(&mut self, waker: &K) -> Poll<Result<(X, Y), E>>
        ensures { HasTriedBoth self.old self.new result }
    {
        if let Err(error) = try_to_go_on(&mut self.first, waker) {
            self.let_go();
            return Poll::Ready(Err(error));
        }
        if let Err(error) = try_to_go_on(&mut self.second, waker) {
            self.let_go();
            return Poll::Ready(Err(error));
        }
        if !(is_done(&self.first) && is_done(&self.second)) {
            return Poll::Pending;
        }
        match (give(&mut self.first), give(&mut self.second)) {
            (Some(first), Some(second)) => Poll::Ready(Ok((first, second))),
            _ => unreachable!(),
        }
    }
}
