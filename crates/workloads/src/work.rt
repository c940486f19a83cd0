//! What is done of a workload, by what it is done on.
ghost use Rattle.std.specs.Prelude.{◌<◌, ◌≤◌, IfSome};

/// What is done so many times.
#[derive(Clone, Copy)]
pub enum Work {
    /// An atomic add.
    FetchAdd,
    /// A lock, an add, an unlock.
    MutexLock,
    /// Something on a queue that threads share.
    Queue(Shape, Way),
    /// `push` and `pop` of a number on a queue of one owner.
    Exclusive(Shape),
    /// A step of the step machine, over a thousand futures.
    MachineStep,
    /// A line of a script of 10,000 lines over a thousand futures, parsed and run.
    Script(Pollers),
    /// Something on tasks.
    Task(TaskWork),
    /// Something on an executor.
    Executor(ExecutorWork),
    /// Something on an executor of one thread, or of one owner.
    Local(LocalWork),
    /// Something on what waits.
    Wait(WaitWork),
    /// Something on a list of jobs.
    Jobs(JobWork),
}

/// What a queue is made of, and how many items it has room for.
#[derive(Clone, Copy)]
pub enum Shape {
    /// A slot, for one item.
    Single,
    /// A ring of 8 places.
    Ring8,
    /// A ring of 512 places.
    Ring512,
    /// A ring of 1,024 places.
    Ring1024,
    /// A chain, without a limit.
    Unbounded,
}

impl Shape {
    /// How many items a queue of this shape holds at most, where it has a limit.
    pub fn capacity(self) -> Option<usize>
        ensures { IfSome result (λ capacity. 0 < capacity) }
    {
        match self {
            Shape::Single => Some(1),
            Shape::Ring8 => Some(8),
            Shape::Ring512 => Some(512),
            Shape::Ring1024 => Some(1024),
            Shape::Unbounded => None,
        }
    }
}

/// What is done on a queue that threads share.
#[derive(Clone, Copy)]
pub enum Way {
    /// `push` and `pop` of a number.
    PushAndPop,
    /// The same, by 1,024 pushes, one refused push where that fills the queue, then pops until the queue is empty.
    Burst,
    /// `len` of a queue that holds 5.
    Len,
    /// A number from one thread to another.
    OneToOne,
    /// A number from one of two threads to one of two others.
    TwoToTwo,
}

/// Who polls the futures of a script: each `try`, or so many ticks or runs in turn.
#[derive(Clone, Copy)]
pub enum Pollers {
    Tries,
    Ticks(u64),
    Runs(u64),
}

impl Pollers {
    /// How many ticks or runs there are.
    pub fn count(self) -> u64 {
        match self {
            Pollers::Tries => 0,
            Pollers::Ticks(count) => count,
            Pollers::Runs(count) => count,
        }
    }
}

/// What is done on tasks.
#[derive(Clone, Copy)]
pub enum TaskWork {
    /// A ready future from its spawn to its output.
    SpawnRun,
    /// A task whose handle is dropped before it is run.
    DropHandle,
    /// A wake of an idle task, and the run.
    WakeRun,
    /// A run of a future that wakes itself.
    SelfWake,
    /// A wake of a task that is queued already.
    WakeTwice,
    /// A waker copied and dropped.
    WakerClone,
    /// A poll of the handle of an unfinished task.
    PollPending,
    /// As `SelfWake`, on a task of one owner.
    SelfWakeLocalTask,
}

/// What is done on an executor.
#[derive(Clone, Copy)]
pub enum ExecutorWork {
    /// A ready future is spawned, its handle is given up, and a tick runs it.
    SpawnTick,
    /// A tick that runs a future which wakes itself.
    Ping,
    /// One of 50,000 ready futures: spawned, run by a tick, its output taken.
    SpawnMany,
    /// One of 10,000 futures, each of which awaits the one before.
    AwaitChain,
    /// One of 50,000 futures with whom an executor is dropped.
    DropFull,
    /// One of 100,000 jobs that give way once, spawned, run and awaited by so many threads.
    Run(Workers),
    /// A poll of one of 1,000 futures that give way again and again, run by so many threads.
    Storm(Workers),
    /// As `Ping`, of an urgent future and a plain one.
    PingMarked,
    /// As `Storm`, where every other future is urgent.
    StormMarked(Workers),
}

/// What is done on an executor of one thread: as on any other, by this thread.
#[derive(Clone, Copy)]
pub enum LocalWork {
    SpawnTick,
    Ping,
    SpawnMany,
    AwaitChain,
    DropFull,
    Run,
    Storm,
    /// As `Ping`, on an executor of one owner.
    PingSolo,
}

/// What is done on what waits.
#[derive(Clone, Copy)]
pub enum WaitWork {
    /// One of many listeners is notified, and listens anew.
    Tell(Crowd),
    /// One of many who listen is dropped, and another listens.
    Leave(Crowd),
    /// One of many who sleep is dropped, and another sleeps.
    DropSleep(Crowd),
}

/// How many wait at a time.
#[derive(Clone, Copy)]
pub enum Crowd {
    Few,
    Many,
}

impl Crowd {
    /// Their number.
    pub fn count(self) -> u64
        ensures { 0 < result }
    {
        match self {
            Crowd::Few => 500,
            Crowd::Many => 4000,
        }
    }
}

/// What is done on a list of jobs.
#[derive(Clone, Copy)]
pub enum JobWork {
    /// A line of a list of 100,000 jobs, read.
    Parse,
    /// One of 100,000 jobs, half of them sums and half products, done by so many workers.
    Run(Workers),
}

/// How many threads do it.
#[derive(Clone, Copy)]
pub enum Workers {
    One,
    Two,
    Four,
}

impl Workers {
    /// Their number.
    pub fn count(self) -> usize
        ensures { (0 < result) × (result ≤ 4) }
    {
        match self {
            Workers::One => 1,
            Workers::Two => 2,
            Workers::Four => 4,
        }
    }
}
