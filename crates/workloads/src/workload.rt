ghost use Rattle.std.specs.Prelude.{◌<◌};

use crate::work::ExecutorWork::{
    AwaitChain, DropFull, Ping, PingMarked, Run, SpawnMany, SpawnTick, Storm, StormMarked,
};
use crate::work::Pollers::{Runs, Ticks, Tries};
use crate::work::Shape::{Ring8, Ring512, Ring1024, Single, Unbounded};
use crate::work::TaskWork::{
    DropHandle, PollPending, SelfWake, SelfWakeLocalTask, SpawnRun, WakeRun, WakeTwice, WakerClone,
};
use crate::work::Way::{Burst, Len, OneToOne, PushAndPop, TwoToTwo};
use crate::work::Work::{
    self, Exclusive, Executor, FetchAdd, Jobs, Local, MachineStep, MutexLock, Queue, Script, Task,
    Wait,
};
use crate::work::Workers::{Four, One, Two};
use crate::work::{Crowd, JobWork, LocalWork, WaitWork};

/// What `bench` times: its name, its usual number of operations, and what is done.
///
/// A name is the part of the repository, a stroke, and what is done. A form that only the port has ends in `@` and that form.
#[derive(Clone, Copy)]
pub struct Workload(&'static str, u64, Work);

const ALL: &[Workload] = &[
    Workload("base/fetch-add", 50_000_000, FetchAdd),
    Workload("base/mutex-lock", 20_000_000, MutexLock),
    Workload("queue/single", 10_000_000, Queue(Single, PushAndPop)),
    Workload("queue/ring-8", 10_000_000, Queue(Ring8, PushAndPop)),
    Workload("queue/ring-1024", 10_000_000, Queue(Ring1024, PushAndPop)),
    Workload("queue/unbounded", 10_000_000, Queue(Unbounded, PushAndPop)),
    Workload("queue/ring-1024-burst", 10_000_000, Queue(Ring1024, Burst)),
    Workload("queue/unbounded-burst", 10_000_000, Queue(Unbounded, Burst)),
    Workload("queue/len", 20_000_000, Queue(Ring512, Len)),
    Workload("queue/ring-1024-1x1", 2_000_000, Queue(Ring1024, OneToOne)),
    Workload("queue/ring-1024-2x2", 2_000_000, Queue(Ring1024, TwoToTwo)),
    Workload("queue/unbounded-1x1", 5_000_000, Queue(Unbounded, OneToOne)),
    Workload("queue/unbounded-2x2", 5_000_000, Queue(Unbounded, TwoToTwo)),
    Workload("queue/single@exclusive", 20_000_000, Exclusive(Single)),
    Workload("queue/ring-8@exclusive", 10_000_000, Exclusive(Ring8)),
    Workload("queue/ring-1024@exclusive", 10_000_000, Exclusive(Ring1024)),
    Workload(
        "queue/unbounded@exclusive",
        20_000_000,
        Exclusive(Unbounded),
    ),
    Workload("machine/step", 2_000_000, MachineStep),
    Workload("sim/lines", 200_000, Script(Tries)),
    Workload("sim/lines-100-ticks", 200_000, Script(Ticks(100))),
    Workload("sim/lines-10-runs", 200_000, Script(Runs(10))),
    Workload("task/spawn-run", 1_000_000, Task(SpawnRun)),
    Workload("task/drop-handle", 1_000_000, Task(DropHandle)),
    Workload("task/wake-run", 2_000_000, Task(WakeRun)),
    Workload("task/self-wake", 2_000_000, Task(SelfWake)),
    Workload("task/wake-twice", 10_000_000, Task(WakeTwice)),
    Workload("task/waker-clone", 10_000_000, Task(WakerClone)),
    Workload("task/poll-pending", 10_000_000, Task(PollPending)),
    Workload(
        "task/self-wake@local-task",
        10_000_000,
        Task(SelfWakeLocalTask),
    ),
    Workload("executor/spawn-tick", 1_000_000, Executor(SpawnTick)),
    Workload("executor/ping", 2_000_000, Executor(Ping)),
    Workload("executor/spawn-many", 1_000_000, Executor(SpawnMany)),
    Workload("executor/await-chain", 500_000, Executor(AwaitChain)),
    Workload("executor/drop-full", 1_000_000, Executor(DropFull)),
    Workload("executor/run-1", 500_000, Executor(Run(One))),
    Workload("executor/run-2", 500_000, Executor(Run(Two))),
    Workload("executor/run-4", 500_000, Executor(Run(Four))),
    Workload("executor/storm-1", 2_000_000, Executor(Storm(One))),
    Workload("executor/storm-2", 2_000_000, Executor(Storm(Two))),
    Workload("executor/storm-4", 2_000_000, Executor(Storm(Four))),
    Workload("executor/ping@marked", 2_000_000, Executor(PingMarked)),
    Workload(
        "executor/storm-4@marked",
        2_000_000,
        Executor(StormMarked(Four)),
    ),
    Workload("executor/ping@solo", 10_000_000, Local(LocalWork::PingSolo)),
    Workload("local/spawn-tick", 1_000_000, Local(LocalWork::SpawnTick)),
    Workload("local/ping", 2_000_000, Local(LocalWork::Ping)),
    Workload("local/spawn-many", 1_000_000, Local(LocalWork::SpawnMany)),
    Workload("local/await-chain", 500_000, Local(LocalWork::AwaitChain)),
    Workload("local/drop-full", 1_000_000, Local(LocalWork::DropFull)),
    Workload("local/run", 500_000, Local(LocalWork::Run)),
    Workload("local/storm", 2_000_000, Local(LocalWork::Storm)),
    Workload("wait/tell-500", 2_000_000, Wait(WaitWork::Tell(Crowd::Few))),
    Workload(
        "wait/tell-4000",
        2_000_000,
        Wait(WaitWork::Tell(Crowd::Many)),
    ),
    Workload(
        "wait/leave-500",
        2_000_000,
        Wait(WaitWork::Leave(Crowd::Few)),
    ),
    Workload(
        "wait/leave-4000",
        2_000_000,
        Wait(WaitWork::Leave(Crowd::Many)),
    ),
    Workload(
        "timer/drop-500",
        2_000_000,
        Wait(WaitWork::DropSleep(Crowd::Few)),
    ),
    Workload(
        "timer/drop-4000",
        2_000_000,
        Wait(WaitWork::DropSleep(Crowd::Many)),
    ),
    Workload("jobs/parse", 2_000_000, Jobs(JobWork::Parse)),
    Workload("jobs/run-1", 200_000, Jobs(JobWork::Run(One))),
    Workload("jobs/run-2", 200_000, Jobs(JobWork::Run(Two))),
    Workload("jobs/run-4", 200_000, Jobs(JobWork::Run(Four))),
];

/// Every workload, in the order in which they are listed and run.
pub fn all() -> &'static [Workload] {
    ALL
}

impl Workload {
    /// Its name, by which `bench` is asked for it.
    pub fn name(self) -> &'static str {
        self.0
    }

    /// How many operations take some 0.2 to 1 seconds.
    pub fn usual_ops(self) -> u64
        ensures { 0 < result }
    {
        self.1.max(1)
    }

    /// What is done.
    pub fn work(self) -> Work {
        self.2
    }

    /// The workload of this name, or `None`.
    pub fn named(name: &str) -> Option<Workload> {
        for workload in all() {
            if workload.0 == name {
                return Some(*workload);
            }
        }
        None
    }
}
