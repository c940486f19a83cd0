ghost use Rattle.combinators.specs.All.{HasJoined3};

use crate::part::{give, go_on, is_done};
use async_task::{Future, Poll};
use waiting::Awaited;

/// A future that is ready once all three are ready, with their outputs. A poll polls each that isn't ready yet, in order. A future
/// is dropped as soon as its output came, which is kept until all are there. Polled again it is pending. Dropped, it drops what it
/// has.
#[derive(Drop)]
pub struct Join3<A, X, B, Y, C, Z> {
    pub(crate) first: Awaited<A, X>,
    pub(crate) second: Awaited<B, Y>,
    pub(crate) third: Awaited<C, Z>,
}

impl<K, A, X: Drop, B, Y: Drop, C, Z: Drop> Future<K> for Join3<A, X, B, Y, C, Z>
where
    A: Future<K, Output = X> + Drop,
    B: Future<K, Output = Y> + Drop,
    C: Future<K, Output = Z> + Drop,
{
    type Output = (X, Y, Z);

    fn poll(&mut self, waker: &K) -> Poll<(X, Y, Z)>
        ensures { HasJoined3 self.old self.new result }
    {
        go_on(&mut self.first, waker);
        go_on(&mut self.second, waker);
        go_on(&mut self.third, waker);
        if !(is_done(&self.first) && is_done(&self.second) && is_done(&self.third)) {
            return Poll::Pending;
        }
        match (
            give(&mut self.first),
            give(&mut self.second),
            give(&mut self.third),
        ) {
            (Some(first), Some(second), Some(third)) => Poll::Ready((first, second, third)),
            _ => unreachable!(),
        }
    }
}
