ghost use Rattle.combinators.specs.All.{HasJoined4};

use crate::part::{give, go_on, is_done};
use async_task::{Future, Poll};
use waiting::Awaited;

/// A future that is ready once all four are ready, with their outputs. A poll polls each that isn't ready yet, in order. A future
/// is dropped as soon as its output came, which is kept until all are there. Polled again it is pending. Dropped, it drops what it
/// has.
#[derive(Drop)]
pub struct Join4<A, X, B, Y, C, Z, D, V> {
    pub(crate) first: Awaited<A, X>,
    pub(crate) second: Awaited<B, Y>,
    pub(crate) third: Awaited<C, Z>,
    pub(crate) fourth: Awaited<D, V>,
}

impl<K, A, X: Drop, B, Y: Drop, C, Z: Drop, D, V: Drop> Future<K> for Join4<A, X, B, Y, C, Z, D, V>
where
    A: Future<K, Output = X> + Drop,
    B: Future<K, Output = Y> + Drop,
    C: Future<K, Output = Z> + Drop,
    D: Future<K, Output = V> + Drop,
{
    type Output = (X, Y, Z, V);

    fn poll(&mut self, waker: &K) -> Poll<(X, Y, Z, V)>
        ensures { HasJoined4 self.old self.new result }
    {
        go_on(&mut self.first, waker);
        go_on(&mut self.second, waker);
        go_on(&mut self.third, waker);
        go_on(&mut self.fourth, waker);
        let half = is_done(&self.first) && is_done(&self.second) && is_done(&self.third);
        if !(half && is_done(&self.fourth)) {
            return Poll::Pending;
        }
        let (first, second) = (give(&mut self.first), give(&mut self.second));
        match (first, second, give(&mut self.third), give(&mut self.fourth)) {
            (Some(first), Some(second), Some(third), Some(fourth)) => {
                Poll::Ready((first, second, third, fourth))
            }
            _ => unreachable!(),
        }
    }
}
