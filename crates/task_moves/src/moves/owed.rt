//! The kinds of move, and what a move leaves to be done.
use crate::moves::state::State;
use crate::schedule_info::ScheduleInfo;

/// The kinds of move. Each is one change of a task's state.
#[derive(Clone, Copy, Debug, PartialEq, Eq)]
pub enum Move {
    /// A waker is called, and stays.
    WakeByReference,
    /// A waker is called, and goes.
    Wake,
    /// One more waker is asked for.
    Copy,
    /// A waker goes.
    Release,
    /// A Runnable becomes a run.
    TakeUp,
    /// The future of a closed task was dropped before a poll.
    SettleClosed,
    /// A run or a closing call gives its reference up.
    GiveUp,
    /// The poll gave an output, which is stored, and the future was dropped.
    EndReady,
    /// The poll gave no output.
    EndPending,
    /// It gave no output, the task was closed meanwhile, and the future was dropped.
    EndClosed,
    /// A Runnable is let go.
    DropRunnable,
    /// The handle cancels the task.
    Cancel,
    /// The handle goes.
    Detach,
    /// A poll of the handle looks at the task.
    Poll,
    /// It looks again, after it has registered its waker.
    LookAgain,
    /// A poll of the handle begins to register its waker.
    Register,
    /// The waker is stored.
    EndRegister,
    /// Somebody wants the awaiter called.
    Notify,
    /// The awaiter is taken out.
    EndNotify,
}

/// What the mover does with the future.
#[derive(Clone, Copy, Debug, PartialEq, Eq)]
pub enum FutureDebt {
    PollFuture,
    DropFuture,
}

/// What the mover does about the awaiter.
#[derive(Clone, Copy, Debug, PartialEq, Eq)]
pub enum AwaiterDebt {
    /// It notifies the awaiter.
    NotifyAwaiter,
    /// The same, but for an awaiter that wakes the same as the waker of the poll that moves.
    NotifyOther,
    /// It calls the waker that it was given, by reference.
    CallGiven,
    /// It stores its copy of the waker that it was given. An awaiter that was there is dropped when
    /// all is done.
    StoreCopy,
    /// It takes the copy out again that it has stored, and calls it.
    CallStored,
    /// It takes the awaiter out.
    TakeAwaiter,
    /// It calls the awaiter that it has taken. Where it owed `NotifyOther` and `will_wake` says
    /// yes, it drops it.
    CallTaken,
}

/// What the mover answers.
#[derive(Clone, Copy, Debug, PartialEq, Eq)]
pub enum Answer {
    /// There are too many references for one more.
    Refused,
    /// The output isn't there yet.
    Pending,
    /// There will be no output.
    Closed,
    /// The output is taken out and given.
    Output,
}

/// What a mover owes when it has moved. It pays in the order of the fields, and holds no lock
/// meanwhile.
#[derive(Clone, Copy, Debug, PartialEq, Eq)]
pub struct Owed {
    /// One Runnable goes to the schedule function, which is told this.
    pub schedule: Option<ScheduleInfo>,
    pub future: Option<FutureDebt>,
    /// The output is taken out and dropped.
    pub drop_output: bool,
    pub awaiter: Option<AwaiterDebt>,
    /// The move that follows.
    pub next: Option<Move>,
    pub answer: Option<Answer>,
    /// Nobody can reach the task any more: all that its cell still has is dropped.
    pub empty_cell: bool,
}

/// How a move leaves the task, and what the mover owes.
#[derive(Clone, Copy, Debug, PartialEq, Eq)]
pub struct Moved {
    pub state: State,
    pub owed: Owed,
}
