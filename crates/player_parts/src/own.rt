//! The futures that runs wait for.
use crate::handle::{Await, Held, doubled};
use async_task::{Future, Poll};

/// The own future of a run: it gives twice the output of the future whose handle it has, and without one it is never ready.
#[derive(Drop)]
pub struct Own<H: Drop> {
    /// The handle that it polls.
    pub twice: Option<Held<H>>,
}

impl<H: Await<W>, W> Future<W> for Own<H> {
    type Output = u64;

    fn poll(&mut self, waker: &W) -> Poll<u64> {
        let output = match &mut self.twice {
            Some(held) => doubled(held.handle.poll(waker)),
            None => None,
        };
        match output {
            Some(number) => Poll::Ready(number),
            None => Poll::Pending,
        }
    }
}
