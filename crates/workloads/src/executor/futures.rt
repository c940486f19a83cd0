use async_task::{Future, Poll, Wake};

/// A future that gives way so often, and then gives a number, to which each time that it gave way has added 1.
#[derive(Drop)]
pub struct Yields {
    pub times: u64,
    pub number: u64,
}

impl<K: Wake> Future<K> for Yields {
    type Output = u64;

    fn poll(&mut self, waker: &K) -> Poll<u64> {
        match self.step() {
            Some(number) => Poll::Ready(number),
            None => {
                waker.wake_by_ref();
                Poll::Pending
            }
        }
    }
}

impl Yields {
    /// What a poll does, but to wake the future where that gives way.
    pub fn step(&mut self) -> Option<u64> {
        if self.times == 0 {
            return Some(self.number);
        }
        self.times -= 1;
        self.number = self.number.wrapping_add(1);
        None
    }
}
