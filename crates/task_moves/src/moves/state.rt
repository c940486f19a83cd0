/// What is known of a task at any moment: its marks, and how many references to it there are.
#[derive(Clone, Copy, Debug, PartialEq, Eq)]
pub struct State {
    /// A Runnable is there or is owed, or the run that is going on was asked for another.
    pub scheduled: bool,
    /// The future is being polled.
    pub running: bool,
    /// The future has given its output, and is dropped.
    pub completed: bool,
    /// The task is cancelled, or its output is given or dropped.
    pub closed: bool,
    /// The handle is there.
    pub handle: bool,
    /// An awaiter is stored.
    pub awaiter: bool,
    /// The handle is storing an awaiter.
    pub registering: bool,
    /// Somebody is taking the awaiter out.
    pub notifying: bool,
    /// The wakers, and one for a Runnable, a run or the rest of a closing call.
    pub references: u64,
}
