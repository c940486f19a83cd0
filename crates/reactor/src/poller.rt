use std::io;
use std::time::Duration;

/// A way of a source: to read from it, or to write to it.
#[derive(Clone, Copy, Debug, PartialEq, Eq, Drop)]
pub enum Way {
    Read,
    Write,
}

/// An event of a source, as a poller reports it. A source that has failed is ready each way, so that a waiter finds out
/// by its next read or write.
#[derive(Clone, Copy, Debug, Drop)]
pub struct Heard {
    /// The key of the source.
    pub key: usize,
    /// Whether it may be read from.
    pub is_readable: bool,
    /// Whether it may be written to.
    pub is_writable: bool,
    /// Whether the other end closed it, so that reads give what is left and then the end: no event for reading comes any more.
    pub is_read_closed: bool,
    /// Whether the other end closed it for writes: no event for writing comes any more.
    pub is_write_closed: bool,
}

/// What reports events of sources: in a program the system. It reports each way once when it becomes ready (by its edge),
/// for a source that was registered with it under its key.
pub trait Poller {
    /// Waits until there is an event or it is rung, at most this long; None is without end. A ring that came before ends the wait
    /// too.
    fn wait(&mut self, longest: Option<Duration>) -> io::Result<()>;

    /// Takes out one event. None is there once all were taken.
    fn heard(&mut self) -> Option<Heard>;
}
