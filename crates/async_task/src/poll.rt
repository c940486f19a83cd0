//! The trait `Future`, and what a poll answers.
ghost use Rattle.std.specs.Prelude.{◌≡◌};
ghost use Rattle.async_task.specs.Ready.{is_pending, is_ready};

/// The answer of a poll.
#[derive(Clone, Copy, Debug, PartialEq, Eq, Drop)]
#[must_use]
pub enum Poll<T> {
    /// The output is there.
    Ready(T),
    /// The output isn't there yet: the waker of the poll is woken when another poll is worth while.
    Pending,
}

impl<T> Poll<T> {
    /// Whether the output is there.
    pub fn is_ready(&self) -> bool
        ensures { result ≡ is_ready self.now }
    {
        matches!(self, Poll::Ready(_))
    }

    /// Whether the output isn't there yet.
    pub fn is_pending(&self) -> bool
        ensures { result ≡ is_pending self.now }
    {
        matches!(self, Poll::Pending)
    }
}

/// A computation that is polled until it has an output. After the trait of the standard library,
/// which has one type of waker, where this one is polled with a `K`.
pub trait Future<K> {
    type Output;

    /// Goes on until there is an output, or until it has to wait for something that wakes the waker.
    fn poll(&mut self, waker: &K) -> Poll<Self::Output>;
}
