//! `bench` times the crates of this repository, a line for each workload: `name ops seconds ns_per_op`.
//!
//! Without an argument it lists the names. `bench NAME [OPS]` runs one, and `bench all` runs each at its usual size. `bench check OPS`
//! runs each with so many operations, and prints what is the same in each run.
#![tactic(auto)]

mod line;
mod local;
mod runs;
mod sim;
mod steps;
mod words;

use async_task::{Future, Runtime};
use line::Line;
use runs::Realms;
use std::env;
use std::process::ExitCode;
use std::random::RandomSource;
use std::rt::{Clock, Env};
use std::thread::Threads;
use std::time::Duration;
use words::{Asked, named, read_words};
use workloads::executor::{Awaited, Chain, Futures, Link, Waker, Worker, Workplace};
use workloads::job::{JobPlace, JobRealm, JobSite, Open};
use workloads::task::Tasks;
use workloads::{Fault, Workload, all};

fn main(rt: HostRuntime) -> ExitCode {
    // Generic code that makes a realm and works on it gets no proof, nor does code over any runtime type with futures that
    // hold handles, so both are named here.
    let ended = match (
        Tasks::leak(rt, rt.alloc()),
        Futures::leak(rt, rt.alloc()),
        JobRealm::<HostRuntime>::leak(rt, rt.alloc()),
    ) {
        (Ok(tasks), Ok(futures), Ok(jobs)) => run::<
            Link<HostRuntime>,
            Workplace<Awaited<HostRuntime>, HostRuntime>,
            JobPlace<Open, HostRuntime>,
            HostRuntime,
        >(
            &rt,
            &Realms {
                tasks,
                futures,
                jobs,
            },
        ),
        (Err(error), _, _) | (_, Err(error), _) | (_, _, Err(error)) => Err(Fault::from(error)),
    };
    match ended {
        Ok(()) => ExitCode::SUCCESS,
        Err(fault) => {
            // A fault that can't be printed still has its status.
            let _ = eprintln!(rt; "{fault}");
            ExitCode::from(fault.status())
        }
    }
}

/// Does what the arguments ask.
fn run<L, P, J, R>(rt: &R, realms: &Realms<R>) -> Result<(), Fault>
where
    L: Chain<R> + Future<Waker<R>, Output = u64> + Drop,
    P: Worker<R> + Sync + Drop,
    J: JobSite<R, Gate = Open> + Sync + Drop,
    R: Runtime + AllocGlobal + Env + Print + Eprint + Clock + RandomSource + Threads + Sync,
{
    match arguments(rt)? {
        Asked::List => list(rt),
        Asked::All => {
            for workload in all() {
                time::<L, P, J, R>(rt, realms, *workload, workload.usual_ops())?;
            }
            Ok(())
        }
        Asked::One(workload, ops) => time::<L, P, J, R>(rt, realms, workload, ops),
        Asked::Check(ops) => {
            for workload in all() {
                check::<L, P, J, R>(rt, realms, named(workload.name())?, ops)?;
            }
            Ok(())
        }
    }
}

/// What the arguments ask.
fn arguments<R: AllocGlobal + Env>(rt: &R) -> Result<Asked, Fault> {
    let words: Vec<String> = env::args(rt)?.skip(1).collect(rt.alloc())?;
    read_words(words.as_slice())
}

fn list<R: Print>(rt: &R) -> Result<(), Fault> {
    for workload in all() {
        println!(rt; "{}", workload.name())?;
    }
    Ok(())
}

/// Runs a workload, and prints its line. What it moved is printed on standard error, so that no compiler leaves it out.
fn time<L, P, J, R>(rt: &R, realms: &Realms<R>, workload: Workload, ops: u64) -> Result<(), Fault>
where
    L: Chain<R> + Future<Waker<R>, Output = u64> + Drop,
    P: Worker<R> + Sync + Drop,
    J: JobSite<R, Gate = Open> + Sync + Drop,
    R: Runtime + AllocGlobal + Print + Eprint + Clock + RandomSource + Threads + Sync,
{
    let timing = runs::run::<L, P, J, R>(workload.work(), rt, realms, ops)?;
    eprintln!(rt; "{} moved {}", workload.name(), timing.moved)?;
    let line = Line {
        name: workload.name(),
        ops,
        took: timing.took,
    };
    println!(rt; "{line}")?;
    Ok(())
}

/// Runs a workload, and prints its line, as if it had taken 1.2501 seconds, with what it moved: the same in each run.
fn check<L, P, J, R>(rt: &R, realms: &Realms<R>, workload: Workload, ops: u64) -> Result<(), Fault>
where
    L: Chain<R> + Future<Waker<R>, Output = u64> + Drop,
    P: Worker<R> + Sync + Drop,
    J: JobSite<R, Gate = Open> + Sync + Drop,
    R: Runtime + AllocGlobal + Print + Clock + RandomSource + Threads + Sync,
{
    let timing = runs::run::<L, P, J, R>(workload.work(), rt, realms, ops)?;
    let line = Line {
        name: workload.name(),
        ops,
        took: Duration::from_micros(1_250_100),
    };
    println!(rt; "{line} moved {}", timing.moved)?;
    Ok(())
}
