/// What a call is answered.
#[derive(Clone, Copy)]
pub enum Reply {
    /// What was asked for was made.
    Made,
    /// As many accepted futures as there are places are not yet dropped.
    Full,
    Yes,
    No,
    Done,
    /// Memory was refused, or there were too many references for one more.
    NoMemory,
    /// A polled handle has no output yet; a polled tick or run has found no future, and will be told; or a polled
    /// run has taken 200, and has called its own waker.
    Pending,
    /// A polled handle gives its output; a polled tick has run a future; the own future of a polled run is ready.
    Ready,
    /// A polled handle has no output and will have none.
    Cancelled,
    /// The polled run was ready before.
    Finished,
}
