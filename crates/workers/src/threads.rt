//! Threads that work together.
ghost use Rattle.std.specs.Fork.{GivesEach};
ghost use Rattle.std.specs.Prelude.{◌≡◌, ◌⊎◌, IfErr, IfOk, Ok, length, map};
ghost use Rattle.workers.specs.Ends.{IsFirstFault, Stops};
ghost use Rattle.workers.specs.declared.fault.Fault.TheVariants as fault;

use crate::fault::Fault;
use std::alloc::Global;
use std::thread::{self, Threads};

/// Starts this many threads, calls the work on each with its number from 0 on, and joins them. Answers what each came back with,
/// in order, or the fault of the first that has one. Where there is no memory for the threads or for the list the fault is
/// `NoMemory`.
///
/// Where a thread can't be made, another thread does its work, after its own.
pub fn run_workers<X, R, M>(
    rt: &R,
    alloc: Global,
    workers: usize,
    work: &M,
) -> Result<Vec<X>, Fault>
where
    X: Send + Drop,
    R: Threads + Sync,
    M: Fn(usize) -> Result<X, Fault> + Sync,
    requires { M.IsAlwaysCallable work.now }
    ensures outputs { IfOk result (λ outputs. GivesEach M.Fn work.now workers (map Ok outputs.items)) }
    ensures each { IfOk result (λ outputs. length outputs.items ≡ workers) }
    ensures why { IfErr result (λ why. (why ≡ fault.NoMemory) ⊎ IsFirstFault M.Fn work.now workers why) }
{
    match thread::map_indices(rt, alloc, workers, work) {
        Ok(ends) => all_well(alloc, ends),
        Err(_) => Err(Fault::NoMemory),
    }
}

/// What each came back with, where all succeeded; else the first fault.
fn all_well<X: Drop>(alloc: Global, ends: Vec<Result<X, Fault>>) -> Result<Vec<X>, Fault>
    ensures outputs { IfOk result (λ outputs. map Ok outputs.items ≡ ends.items) }
    ensures why { IfErr result (λ why. (why ≡ fault.NoMemory) ⊎ Stops ends.items why) }
{
    let mut outputs = Vec::new(alloc);
    for end in ends {
        match end {
            Ok(output) => if outputs.push(output).is_err() {
                return Err(Fault::NoMemory);
            },
            Err(fault) => return Err(fault),
        }
    }
    Ok(outputs)
}
