//! Many futures, in the order in which they are done.
ghost use Rattle.combinators.specs.Rounds.{HasCome, HasPolled, HasTurned};
ghost use Rattle.std.specs.Prelude.{◌≡◌, ◌==◌, ◌<◌, [], IfErr, IfOk, length};

use async_task::{Future, Poll};
use std::alloc::Global;
use std::collections::VecDeque;

/// A future, with the number that it has here.
#[derive(Drop)]
pub struct Numbered<F> {
    pub number: u64,
    pub future: F,
}

/// Futures of one type, whose outputs come in the order in which they are done. After `FuturesUnordered` of `futures`, and what
/// `JoinSet` of `tokio` is used for. Each has a number, with which its output comes.
///
/// A poll polls one after the other, until one is ready: that one is dropped at once. Each that is pending goes to the end, so
/// those that weren't polled come first at the next poll. Where none is ready it has polled each once. It does so at each wake,
/// since all are polled with the one waker of the task that awaits them. Dropped, it drops those that are left.
///
/// ```
/// let mut futures = FuturesUnordered::new(rt.alloc());
/// assert!(rt; matches!(futures.push(ready(7u64)), Ok(0)));
/// assert!(rt; matches!(futures.push(ready(8u64)), Ok(1)));
/// assert!(rt; matches!(futures.poll_next(&Nobody), Poll::Ready(Some((0, 7)))));
/// assert!(rt; matches!(futures.poll_next(&Nobody), Poll::Ready(Some((1, 8)))));
/// assert!(rt; matches!(futures.poll_next(&Nobody), Poll::Ready(None)));
/// ```
#[derive(Drop)]
pub struct FuturesUnordered<F> {
    // The future that is polled next is the first.
    futures: VecDeque<Numbered<F>>,
    next: u64,
}

/// Awaits the next future that is done. It is ready with that one's number and output, or with None where there is no future.
/// Dropped, it leaves all there.
#[derive(Drop)]
pub struct Next<'a, F> {
    futures: &'a mut FuturesUnordered<F>,
}

impl<F: Drop> FuturesUnordered<F> {
    /// Makes it with no future. It takes no memory.
    pub fn new(alloc: Global) -> Self
        ensures { result.futures.items ≡ [] }
    {
        FuturesUnordered {
            futures: VecDeque::new(alloc),
            next: 0,
        }
    }

    /// Appends a future. Answers its number, one above that of the one before. It takes memory; where there is none the future
    /// comes back, and so it does once 2^64 - 1 were pushed.
    pub fn push(&mut self, future: F) -> Result<u64, F>
        ensures last { IfOk result (λ number. HasCome number future self.old.futures.items self.new.futures.items) }
        ensures number { IfOk result (λ number. (number ≡ self.old.next) × (number < self.new.next)) }
        ensures refused { IfErr result (λ back. (back ≡ future) × (self.new.futures.items ≡ self.old.futures.items)) }
    {
        let number = self.next;
        let Some(next) = number.checked_add(1) else {
            return Err(future);
        };
        if self.futures.reserve(1).is_err() {
            return Err(future);
        }
        self.futures.push_back_reserved(Numbered { number, future });
        self.next = next;
        Ok(number)
    }

    /// How many futures there are.
    pub fn len(&self) -> usize
        ensures { result ≡ length self.now.futures.items }
    {
        self.futures.len()
    }

    /// Whether there is no future.
    pub fn is_empty(&self) -> bool
        ensures { result ≡ (length self.now.futures.items == 0) }
    {
        self.futures.is_empty()
    }

    /// Polls the first, which comes last where it is pending.
    fn turn<K>(&mut self, waker: &K) -> Poll<(u64, F::Output)>
    where
        F: Future<K>,
        requires { 0 < length self.old.futures.items }
        ensures turned { HasTurned self.old.futures.items self.new.futures.items result }
        ensures next { self.new.next ≡ self.old.next }
    {
        let Some(mut first) = self.futures.pop_front() else {
            unreachable!();
        };
        match first.future.poll(waker) {
            Poll::Ready(output) => Poll::Ready((first.number, output)),
            Poll::Pending => {
                self.futures.push_back_reserved(first);
                Poll::Pending
            }
        }
    }

    /// Polls them in turn until one is ready, for a future that has them in a field. Answers its number and output, or None where
    /// there is no future. It takes no memory.
    pub fn poll_next<K>(&mut self, waker: &K) -> Poll<Option<(u64, F::Output)>>
    where
        F: Future<K>,
        ensures polled { HasPolled self.old.futures.items self.new.futures.items result }
        ensures next { self.new.next ≡ self.old.next }
    {
        for _turn in 0..self.len() {
            if let Poll::Ready(done) = self.turn(waker) {
                return Poll::Ready(Some(done));
            }
        }
        if self.futures.is_empty() {
            Poll::Ready(None)
        } else {
            Poll::Pending
        }
    }

    /// Awaits the next future that is done.
    pub fn next(&mut self) -> Next<'_, F> {
        Next { futures: self }
    }
}

impl<'a, K, F: Future<K> + Drop> Future<K> for Next<'a, F> {
    type Output = Option<(u64, F::Output)>;

    fn poll(&mut self, waker: &K) -> Poll<Option<(u64, F::Output)>>
        ensures { HasPolled self.old.futures.now.futures.items self.new.futures.now.futures.items result }
    {
        self.futures.poll_next(waker)
    }
}
