//! What the program has to say.
use std::fmt;

/// Whose calls are made.
#[derive(Clone, Copy)]
pub enum Place {
    /// The program's.
    Own,
    Realm,
    Queue,
    Solo,
    Machine,
    Task,
    StaticExecutor,
    Executor,
    StaticLocalExecutor,
    LocalExecutor,
    Waiting,
    AsyncLock,
    Offload,
    Combinators,
    Workers,
    Timer,
    Reactor,
    Taskrun,
}

impl fmt::Display for Place {
    fn fmt<O: fmt::Write>(&self, f: &mut fmt::Formatter<O>) -> fmt::Result {
        f.write_str(match self {
            Place::Own => "its own",
            Place::Realm => "realm",
            Place::Queue => "queue",
            Place::Solo => "Solo",
            Place::Machine => "Machine",
            Place::Task => "task",
            Place::StaticExecutor => "StaticExecutor",
            Place::Executor => "Executor",
            Place::StaticLocalExecutor => "StaticLocalExecutor",
            Place::LocalExecutor => "LocalExecutor",
            Place::Waiting => "waiting",
            Place::AsyncLock => "async_lock",
            Place::Offload => "offload",
            Place::Combinators => "combinators",
            Place::Workers => "workers",
            Place::Timer => "timer",
            Place::Reactor => "reactor",
            Place::Taskrun => "taskrun",
        })
    }
}

/// A call.
#[derive(Clone, Copy)]
pub enum Call {
    /// None of those that are tried: the program's own memory.
    Own,
    TaskRealm,
    ExecutorRealm,
    JobRealm,
    Slot,
    Ring,
    Push,
    ForcePush,
    New,
    Step,
    Spawn,
    Build,
    SpawnMany,
    Tick,
    Run,
    RunFrom,
    PollTick,
    PollRun,
    PollHandle,
    Event,
    Listen,
    Oneshot,
    Channel,
    Recv,
    Send,
    Mutex,
    PollLock,
    Barrier,
    PollWait,
    Watch,
    PollChanged,
    TryRun,
    TimedRecv,
    Source,
    Join,
    JoinRoom,
    Sim,
    TwoJobs,
    Other,
}

impl fmt::Display for Call {
    fn fmt<O: fmt::Write>(&self, f: &mut fmt::Formatter<O>) -> fmt::Result {
        f.write_str(match self {
            Call::Own => "its own",
            Call::TaskRealm => "of tasks",
            Call::ExecutorRealm => "of executors",
            Call::JobRealm => "of jobs",
            Call::Slot => "slot",
            Call::Ring => "ring",
            Call::Push => "push",
            Call::ForcePush => "force_push",
            Call::New => "new",
            Call::Step => "step",
            Call::Spawn => "spawn",
            Call::Build => "Builder::spawn",
            Call::SpawnMany => "spawn_many",
            Call::Tick => "tick",
            Call::Run => "run",
            Call::RunFrom => "run_from",
            Call::PollTick => "poll of a tick",
            Call::PollRun => "poll of a run",
            Call::PollHandle => "poll of a handle",
            Call::Event => "event",
            Call::Listen => "listen",
            Call::Oneshot => "oneshot",
            Call::Channel => "channel",
            Call::Recv => "recv",
            Call::Send => "send",
            Call::Mutex => "mutex",
            Call::PollLock => "poll of a lock",
            Call::Barrier => "barrier",
            Call::PollWait => "poll of a wait",
            Call::Watch => "watch",
            Call::PollChanged => "poll of changed",
            Call::TryRun => "try_run",
            Call::TimedRecv => "poll of a timed receive",
            Call::Source => "source",
            Call::Join => "poll of a join",
            Call::JoinRoom => "room of a join",
            Call::Sim => "sim",
            Call::TwoJobs => "jobs 2",
            Call::Other => "a call that takes no memory",
        })
    }
}

/// Which call was refused, and whether all was as it has to be.
#[derive(Drop)]
pub struct Report {
    /// Whose calls are made.
    place: Place,
    /// Which of its calls is made, counted from 1, where they are rows.
    row: u64,
    refused: Option<Refused>,
    wrong: Option<Wrong>,
}

/// Where something was wrong first.
#[derive(Clone, Copy)]
pub struct Wrong {
    pub place: Place,
    pub row: u64,
}

/// The name of a call, and whose it is.
#[derive(Clone, Copy)]
pub struct Refused {
    pub place: Place,
    pub call: Call,
}

impl Report {
    pub fn new() -> Report {
        Report {
            place: Place::Own,
            row: 0,
            refused: None,
            wrong: None,
        }
    }

    /// From now on calls of this are made.
    pub fn come_to(&mut self, place: Place) {
        self.place = place;
        self.row = 0;
    }

    /// The next row is at hand.
    pub fn go_on(&mut self) {
        self.row = self.row.saturating_add(1);
    }

    pub fn refused(&self) -> Option<Refused> {
        self.refused
    }

    /// Nothing, where all is right.
    pub fn wrong(&self) -> Option<Wrong> {
        self.wrong
    }

    /// This call was refused, where it was.
    pub fn note(&mut self, call: Call, is_refused: bool) {
        if is_refused {
            self.is_refused(call);
        }
    }

    /// This call was refused, which is right where no other was: one request is refused in all.
    pub fn is_refused(&mut self, call: Call) {
        let is_first = self.refused.is_none();
        let place = self.place;
        self.refused = Some(Refused { place, call });
        self.expect(is_first);
    }

    /// What is so where all is right.
    pub fn expect(&mut self, is_so: bool) {
        if !is_so & self.wrong.is_none() {
            self.wrong = Some(Wrong {
                place: self.place,
                row: self.row,
            });
        }
    }
}
