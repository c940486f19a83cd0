//! Two kinds of futures in one pool, whose outputs keep their types.
use async_task::{Future, Poll, Realm, Runtime, Wake};
use pool::{Answering, Pool};
use std::io;

/// Gives the square of its number.
#[derive(Drop)]
struct Square(u64);

impl<K> Future<K> for Square {
    type Output = u64;

    fn poll(&mut self, _waker: &K) -> Poll<u64> {
        Poll::Ready(self.0.saturating_mul(self.0))
    }
}

/// Says whether its number is even, at its second poll.
#[derive(Drop)]
struct IsEven {
    number: u64,
    was_polled: bool,
}

impl<K: Wake> Future<K> for IsEven {
    type Output = bool;

    fn poll(&mut self, waker: &K) -> Poll<bool> {
        if self.was_polled {
            return Poll::Ready(self.number % 2 == 0);
        }
        self.was_polled = true;
        waker.wake_by_ref();
        Poll::Pending
    }
}

/// What lies in the pool.
#[derive(Drop)]
enum Job<K: Wake + Drop, R: Runtime> {
    Square(Answering<Square, u64, K, R>),
    IsEven(Answering<IsEven, bool, K, R>),
}

impl<K: Wake + Drop, R: Runtime> From<Answering<Square, u64, K, R>> for Job<K, R> {
    fn from(square: Answering<Square, u64, K, R>) -> Self {
        Job::Square(square)
    }
}

impl<K: Wake + Drop, R: Runtime> From<Answering<IsEven, bool, K, R>> for Job<K, R> {
    fn from(is_even: Answering<IsEven, bool, K, R>) -> Self {
        Job::IsEven(is_even)
    }
}

impl<K: Wake + Drop, R: Runtime> Future<K> for Job<K, R> {
    type Output = ();

    fn poll(&mut self, waker: &K) -> Poll<()> {
        match self {
            Job::Square(square) => square.poll(waker),
            Job::IsEven(is_even) => is_even.poll(waker),
        }
    }
}

#[test]
fn a_pool_has_futures_of_two_kinds(rt: HostRuntime) -> io::Result<()> {
    let realm = Realm::leak(rt, rt.alloc())?;
    let pool = Pool::<Job<_, _>, _>::new(rt, rt.alloc(), realm, 2)?;
    let square = pool.spawn(Square(7))?;
    let is_even = pool.spawn(IsEven {
        number: 7,
        was_polled: false,
    })?;
    assert!(rt; pool.run(is_even)? == Ok(false));
    assert!(rt; pool.run(square)? == Ok(49));
    Ok(())
}
