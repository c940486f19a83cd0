//! Futures that are ready at a poll of their own, and what was seen of each.
use async_task::{Future, Nobody, Poll};
use std::sync::atomic::AtomicU64;
use std::sync::atomic::Ordering::SeqCst;

/// How often a child was polled and dropped.
#[derive(Drop)]
pub struct Seen {
    polls: AtomicU64,
    drops: AtomicU64,
}

/// A future that is ready at its poll of this number, from 0 on, with the number.
pub struct Child<'a> {
    seen: &'a Seen,
    wait: u64,
}

/// The same, which may fail.
#[derive(Drop)]
pub struct Fallible<'a> {
    child: Child<'a>,
    fails: bool,
}

/// What the test expects: when each child is ready; at which poll all is over, and which child was polled last at that.
#[derive(Clone, Copy)]
pub struct Plan<'a> {
    pub waits: &'a [u64],
    pub due: u64,
    pub last: usize,
}

impl Seen {
    pub fn new() -> Seen {
        Seen {
            polls: AtomicU64::new(0),
            drops: AtomicU64::new(0),
        }
    }

    /// Whether it was polled and dropped this often.
    pub fn is(&self, polls: u64, drops: u64) -> bool {
        (self.polls.load(SeqCst) == polls) & (self.drops.load(SeqCst) == drops)
    }

    /// Whether it was dropped once, and never polled after its end; where it was done, polled up to that.
    pub fn is_gone(&self, is_done: bool, wait: u64) -> bool {
        let (polls, drops) = (self.polls.load(SeqCst), self.drops.load(SeqCst));
        let most = wait.saturating_add(1);
        (drops == 1) & (polls <= most) & (!is_done | (polls == most))
    }
}

impl<'a> Child<'a> {
    pub fn new(seen: &'a Seen, wait: u64) -> Child<'a> {
        Child { seen, wait }
    }

    pub fn fallible(seen: &'a Seen, wait: u64, fails: bool) -> Fallible<'a> {
        Fallible {
            child: Child { seen, wait },
            fails,
        }
    }
}

impl<'a, K> Future<K> for Child<'a> {
    type Output = u64;

    fn poll(&mut self, _waker: &K) -> Poll<u64> {
        if self.seen.polls.fetch_add(1, SeqCst) < self.wait {
            Poll::Pending
        } else {
            Poll::Ready(self.wait)
        }
    }
}

impl<'a, K> Future<K> for Fallible<'a> {
    type Output = Result<u64, u64>;

    fn poll(&mut self, waker: &K) -> Poll<Result<u64, u64>> {
        match self.child.poll(waker) {
            Poll::Pending => Poll::Pending,
            Poll::Ready(wait) => Poll::Ready(if self.fails { Err(wait) } else { Ok(wait) }),
        }
    }
}

impl<'a> Drop for Child<'a> {
    fn drop(self) {
        let Child { seen, wait: _ } = self;
        seen.drops.fetch_add(1, SeqCst);
    }
}

/// How often a child was polled and dropped after this poll.
fn wanted(plan: &Plan<'_>, child: usize, wait: u64, poll: u64) -> (u64, u64) {
    if poll < plan.due {
        (poll.min(wait).saturating_add(1), (poll >= wait) as u64)
    } else if child <= plan.last {
        (plan.due.min(wait).saturating_add(1), 1)
    } else {
        (plan.due.min(wait.saturating_add(1)), 1)
    }
}

/// Whether each child was polled and dropped as it has to be after this poll.
fn is_as_planned(plan: &Plan<'_>, seen: &[Seen], poll: u64) -> bool {
    let mut is_well = true;
    for ((child, one), wait) in seen.iter().enumerate().zip(plan.waits) {
        let (polls, drops) = wanted(plan, child, *wait, poll);
        is_well &= one.is(polls, drops);
    }
    is_well
}

/// Polls this often, and then drops. Answers whether it was ready when it had to be, with this, and pending before and after. Also
/// whether each child was polled in its time and never after its end, and dropped once, in time.
pub fn goes<F, T>(future: F, plan: &Plan<'_>, seen: &[Seen], polls: u64, want: &T) -> bool
where
    F: Future<Nobody, Output = T> + Drop,
    T: PartialEq + Drop,
{
    let mut future = future;
    let mut is_well = true;
    for poll in 0..polls {
        is_well &= match future.poll(&Nobody) {
            Poll::Ready(output) => (poll == plan.due) & (output == *want),
            Poll::Pending => poll != plan.due,
        };
        is_well &= is_as_planned(plan, seen, poll);
    }
    drop(future);
    for one in seen {
        is_well &= one.drops.load(SeqCst) == 1;
    }
    is_well
}
