//! The steps of the machine as data, and why one isn't possible.
use crate::call::Call;
use crate::event::Answer;

/// What a step is told from outside.
#[derive(Clone, Copy, Debug, PartialEq, Eq)]
pub struct Hint {
    /// A request for memory in this step is refused.
    pub refused: bool,
    /// `will_wake` says yes in this step.
    pub same: bool,
    /// The word that a walk starts by which begins in this step.
    pub start: u64,
}

/// What ends a piece of user code.
#[derive(Clone, Copy, Debug, PartialEq, Eq)]
pub enum UserEnd {
    /// A poll has this answer.
    Polled(Answer),
    /// A drop or the call of an outside waker has ended.
    Done,
}

/// One step of a party.
#[derive(Clone, Copy, Debug, PartialEq, Eq)]
pub enum Step {
    /// A call begins.
    Begin { party: u32, call: Call },
    /// The party does the next thing that it has to do.
    Go { party: u32, hint: Hint },
    /// The user code in which the party stands ends.
    Answer { party: u32, end: UserEnd },
}

/// Why a step isn't possible, in the order of the tests.
#[derive(Clone, Copy, Debug, PartialEq, Eq)]
pub enum StepError {
    /// The party stands in a call, and not in user code.
    Busy,
    /// There is no such party, waker or handle, it is used up, or another call is using it.
    NoSuch,
    /// The drop of the executor was begun.
    Gone,
    /// The executor is asked to be dropped while another call uses it.
    Borrowed,
    /// The party has nothing to do.
    Idle,
    /// User code must answer first, or there is none that could answer so.
    WrongAnswer,
    /// Another party holds the lock of the list of queues, and not both of them walk under its read lock.
    Waits,
    /// The machine itself can't grow.
    NoMemory,
}
