//! The events of which a trace is a list.
use crate::call::{Call, Reply};
use crate::op::{Polled, Waker};
use executor_parts::Mark;

/// What ends a piece of user code.
#[derive(Clone, Copy, Debug, PartialEq, Eq)]
pub enum Answer {
    /// The future isn't ready yet.
    Pending,
    /// The future has given its output.
    Ready,
}

/// One thing that happened. Each event names the party that did it, and the number of what it was done to.
#[derive(Clone, Copy, Debug, PartialEq, Eq)]
pub enum Event {
    CallBegun {
        party: u32,
        call: Call,
    },
    CallEnded {
        party: u32,
        reply: Reply,
    },
    /// The executor took the future in.
    Accepted {
        party: u32,
        future: u64,
    },
    /// The party has taken the future up, and its poll begins.
    PollBegun {
        party: u32,
        future: u64,
    },
    /// The future has answered its poll.
    Answered {
        party: u32,
        future: u64,
        answer: Answer,
    },
    /// A waker of the future was called, while its task was neither completed nor closed.
    Woken {
        party: u32,
        future: u64,
    },
    /// The future's task was closed by a cancel.
    Cancelled {
        party: u32,
        future: u64,
    },
    /// The future's handle is gone.
    Detached {
        party: u32,
        future: u64,
    },
    /// The future's task was closed, as it is detached and nobody was left who could wake it.
    LastWaker {
        party: u32,
        future: u64,
    },
    /// A leak of the executor called the waker of the future that the table had.
    Leaked {
        party: u32,
        future: u64,
    },
    /// The drop of the future begins.
    Dropped {
        party: u32,
        future: u64,
    },
    /// The drop of the future's output begins.
    OutputDropped {
        party: u32,
        future: u64,
    },
    /// The future's output was taken out, for a poll of the handle to give it.
    OutputGiven {
        party: u32,
        future: u64,
    },
    /// The future's handle is polled, and not refused. The place of this event in the trace names the poll.
    HandlePolled {
        party: u32,
        future: u64,
    },
    /// The tick is polled. The place of this event in the trace names the poll.
    TickPolled {
        party: u32,
        tick: u64,
    },
    /// The drop of the tick begins.
    TickDropped {
        party: u32,
        tick: u64,
    },
    /// The run is polled. The place of this event in the trace names the poll.
    RunPolled {
        party: u32,
        run: u64,
    },
    /// The drop of the run begins.
    RunDropped {
        party: u32,
        run: u64,
    },
    /// The party took a turn, and looks at the executor's queue of this mark first.
    Looked {
        party: u32,
        mark: Mark,
    },
    /// The future's Runnable came into the own queue of this run.
    Kept {
        party: u32,
        future: u64,
        run: u64,
    },
    /// The waker that a poll was given is called, or a copy of it. The poll is named by what was polled, and
    /// by the place of its `HandlePolled`, `TickPolled` or `RunPolled`.
    WakerCalled {
        party: u32,
        polled: Polled,
        poll: u64,
        waker: Waker,
    },
    /// The drop of the executor begins.
    DropBegun {
        party: u32,
    },
    /// The drop of the executor has ended.
    DropEnded {
        party: u32,
    },
}
