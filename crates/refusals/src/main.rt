//! Makes each call that can be refused memory, and goes on after a refusal: the one request that is refused is met by one call,
//! which answers so, and everything is as before.
//!
//! Standard input has the number of requests that are made first, for nothing: so the same program meets a refusal wherever
//! `tools/refuse-memory` wants it. It prints which call was refused, and has status 1 where one gave a wrong answer.
#![tactic(auto)]

mod joins;
mod program_runs;

use async_task::{Awaiter, Runtime};
use executor_refusals::{Ground, TestRealm, try_executors};
use jobs::{JobPlace, JobRealm, JobSite, Open};
use joins::join;
use local_refusals::{try_locals, try_solos};
use machine_refusals::try_machines;
use piece_refusals::{try_futures, try_locks, try_offloads, try_sources};
use program_runs::{SIM, TWO_JOBS, do_case};
use queue_refusals::{try_queues, try_waiting};
use refusal_rows::{Call, Drops, Place, Report, bell, own, spare_requests, spend, tell};
use std::alloc::{AllocGlobal, Global};
use std::process::ExitCode;
use std::random::RandomSource;
use std::thread::Threads;
use std::time::Clock;
use task_refusals::{TaskRealm, try_tasks, try_timers};

/// Where tasks lie.
#[derive(Drop)]
struct Realms<R: Runtime> {
    tasks: &'static TaskRealm,
    executors: &'static TestRealm<R>,
    jobs: &'static JobRealm<R>,
}

fn main(rt: HostRuntime) -> ExitCode {
    let alloc = rt.alloc();
    spend(alloc, spare_requests(&rt));
    let mut report = Report::new();
    report.come_to(Place::Realm);
    // Code that makes a realm and works on it gets no proof where it is generic, so all are made here.
    let (mut tasks, mut executors, mut jobs) = (None, None, None);
    for _ in 0..2 {
        if tasks.is_none() {
            tasks = TaskRealm::leak(rt, alloc).ok();
            report.note(Call::TaskRealm, tasks.is_none());
        }
        if executors.is_none() {
            executors = TestRealm::<HostRuntime>::leak(rt, alloc).ok();
            report.note(Call::ExecutorRealm, executors.is_none());
        }
        if jobs.is_none() {
            jobs = JobRealm::<HostRuntime>::leak(rt, alloc).ok();
            report.note(Call::JobRealm, jobs.is_none());
        }
    }
    let (Some(tasks), Some(executors), Some(jobs)) = (tasks, executors, jobs) else {
        return ExitCode::FAILURE;
    };
    let realms = Realms {
        tasks,
        executors,
        jobs,
    };
    let is_so = try_all::<JobPlace<Open, HostRuntime>, HostRuntime>(
        rt,
        alloc,
        &realms,
        &mut report,
    );
    report.expect(is_so);
    tell(&rt, &report)
}

/// Makes all calls, and says whether all was as it has to be. The last request for memory before the jobs is the program's own: so
/// one that a call made which can't be refused would stand between those that were.
fn try_all<P, R>(rt: R, alloc: Global, realms: &Realms<R>, report: &mut Report) -> bool
where
    P: JobSite<R, Gate = Open> + Sync + Drop,
    R: Runtime + Threads + RandomSource + Clock + Sync,
{
    let Some(drops) = own::<Drops>(alloc, report) else {
        return false;
    };
    let drops: &'static Drops = Box::leak(drops);
    try_queues(rt, alloc, drops, report);
    try_solos(rt, alloc, drops, report);
    try_machines(alloc, report);
    try_tasks(rt, alloc, realms.tasks, drops, report)
        & try_shared(rt, alloc, realms.executors, drops, report)
        & try_locals(rt, alloc, drops, report)
        & try_waiting(rt, alloc, report)
        & try_locks(rt, alloc, report)
        & try_offloads(rt, alloc, report)
        & try_timers(rt, alloc, report)
        & try_futures(rt, alloc, report)
        & try_sources(rt, alloc, report)
        & do_case::<P, R>(rt, alloc, realms.jobs, SIM, report)
        & own::<u64>(alloc, report).is_some()
        & do_case::<P, R>(rt, alloc, realms.jobs, TWO_JOBS, report)
}

fn try_shared<R: Runtime>(
    rt: R,
    alloc: Global,
    realm: &'static TestRealm<R>,
    drops: &'static Drops,
    report: &mut Report,
) -> bool {
    let Some(bell) = bell(alloc, report) else {
        return false;
    };
    let waker = Awaiter::Outside(bell);
    let ground = Ground {
        rt,
        alloc,
        realm,
        waker: &waker,
        drops,
    };
    try_executors(&ground, report) & join(&ground, report)
}
