//! The calls that a script can make.

/// The number of a name, in the order in which the script first uses them.
#[derive(Clone, Copy)]
pub struct Name(pub usize);

/// What a future does in a poll, before it answers.
#[derive(Clone, Copy)]
pub enum Act {
    /// It wakes itself by reference.
    Wake,
    /// A copy of its waker is kept in place of the newest one.
    Keep,
}

/// What a future does at one poll.
#[derive(Drop)]
pub struct Item {
    pub acts: Vec<Act>,
    /// What it gives in the end; None where the poll is pending.
    pub output: Option<u64>,
}

/// A call that a line asks for by its first word.
pub trait Call: Copy {
    /// The word that a line begins with.
    fn word(self) -> &'static str;
}

/// A call on the first Runnable of the list, or on the innermost open run.
#[derive(Clone, Copy)]
pub enum ListCall {
    Run,
    Start,
    Settle,
    DropRunnable,
    Reschedule,
    Next,
}

impl ListCall {
    pub const ALL: [ListCall; 6] = [
        ListCall::Run,
        ListCall::Start,
        ListCall::Settle,
        ListCall::DropRunnable,
        ListCall::Reschedule,
        ListCall::Next,
    ];
}

impl Call for ListCall {
    fn word(self) -> &'static str {
        match self {
            ListCall::Run => "run",
            ListCall::Start => "start",
            ListCall::Settle => "settle",
            ListCall::DropRunnable => "drop-runnable",
            ListCall::Reschedule => "reschedule",
            ListCall::Next => "next",
        }
    }
}

/// A call on the kept wakers of a task.
#[derive(Clone, Copy)]
pub enum WakerCall {
    Waker,
    Wake,
    Unkeep,
    WakeByRef,
    Clone,
}

impl WakerCall {
    pub const ALL: [WakerCall; 5] = [
        WakerCall::Waker,
        WakerCall::Wake,
        WakerCall::Unkeep,
        WakerCall::WakeByRef,
        WakerCall::Clone,
    ];
}

impl Call for WakerCall {
    fn word(self) -> &'static str {
        match self {
            WakerCall::Waker => "waker",
            WakerCall::Wake => "wake",
            WakerCall::Unkeep => "unkeep",
            WakerCall::WakeByRef => "wakeref",
            WakerCall::Clone => "clone",
        }
    }
}

/// A call on the handle of a task.
#[derive(Clone, Copy)]
pub enum HandleCall {
    ToCancel,
    Cancel,
    Detach,
    Drop,
    Fallible,
    Metadata,
    Finished,
    State,
    Counts,
}

impl HandleCall {
    pub const ALL: [HandleCall; 9] = [
        HandleCall::ToCancel,
        HandleCall::Cancel,
        HandleCall::Detach,
        HandleCall::Drop,
        HandleCall::Fallible,
        HandleCall::Metadata,
        HandleCall::Finished,
        HandleCall::State,
        HandleCall::Counts,
    ];
}

impl Call for HandleCall {
    fn word(self) -> &'static str {
        match self {
            HandleCall::ToCancel => "tocancel",
            HandleCall::Cancel => "cancel",
            HandleCall::Detach => "detach",
            HandleCall::Drop => "drop",
            HandleCall::Fallible => "fallible",
            HandleCall::Metadata => "metadata",
            HandleCall::Finished => "finished",
            HandleCall::State => "state",
            HandleCall::Counts => "counts",
        }
    }
}

/// A call of two names.
#[derive(Clone, Copy)]
pub enum PairCall {
    /// Whether the newest kept wakers of both wake the same.
    Will,
    /// The handle of the first is polled by the outside waker of the second.
    Poll,
    /// The handle of the first is polled by the newest kept waker of the second.
    PollBy,
}

impl PairCall {
    pub const ALL: [PairCall; 3] = [PairCall::Will, PairCall::Poll, PairCall::PollBy];
}

impl Call for PairCall {
    fn word(self) -> &'static str {
        match self {
            PairCall::Will => "will",
            PairCall::Poll => "poll",
            PairCall::PollBy => "pollby",
        }
    }
}

/// What a line says.
#[derive(Drop)]
pub enum Command {
    Spawn(Name, u64, Vec<Item>),
    List(ListCall),
    Waker(WakerCall, Name),
    Handle(HandleCall, Name),
    Pair(PairCall, Name, Name),
}

impl Command {
    /// The word that the line begins with.
    pub fn word(&self) -> &'static str {
        match self {
            Command::Spawn(..) => "spawn",
            Command::List(call) => call.word(),
            Command::Waker(call, _) => call.word(),
            Command::Handle(call, _) => call.word(),
            Command::Pair(call, _, _) => call.word(),
        }
    }
}
