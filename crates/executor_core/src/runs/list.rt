//! The list of the runs' own queues.
ghost use Rattle.std.specs.Prelude.{◌≡◌, ◌==◌, ◌+◌, ◌++◌, ◌<◌, ◌≤◌, [], ◌∷◌, OnOk};
ghost use Rattle.std.specs.Prelude.{IsOk, length, position, vec_len, vec_capacity};
ghost use Rattle.executor_model.specs.declared.op.RunPoll.{RunPoll};
ghost use Rattle.executor_model.specs.ActsOfRuns.{next_place, queue_at, walk};
ghost use Rattle.executor_model.specs.World.{without};
ghost use Rattle.executor_core.specs.Walks.{goes_to};

use std::alloc::{AllocError, Global};

/// The runs whose own queues are in the list, in the order in which these came.
#[derive(Drop)]
pub struct QueueList {
    runs: Vec<u64>,
}

/// A queue that a walk comes to, and how the walk goes on behind it.
#[derive(Clone, Copy)]
pub struct Found {
    /// The run that has the queue.
    pub run: u64,
    /// The place of the list at which the walk goes on.
    pub next: u64,
    /// How many queues are still to go to.
    pub left: u64,
}

/// The place of this run's queue.
fn find(runs: &[u64], r: u64) -> Option<usize>
    ensures { result ≡ position (λ x. r == x) runs.now }
{
    runs.iter().position(|x| r == *x)
}

impl QueueList {
    /// No queue. Takes no memory.
    pub fn new(alloc: Global) -> QueueList
        ensures { result.runs.items ≡ [] }
    {
        QueueList {
            runs: Vec::new(alloc),
        }
    }

    /// Makes room for one more queue.
    pub fn reserve(&mut self) -> Result<(), AllocError>
        ensures same { self.new.runs.items ≡ self.old.runs.items }
        ensures room { OnOk result (vec_len self.new.runs + 1 ≤ vec_capacity self.new.runs) }
        ensures keeps { vec_len self.old.runs + 1 ≤ vec_capacity self.old.runs → IsOk result }
        ensures grows { vec_capacity self.old.runs ≤ vec_capacity self.new.runs }
    {
        self.runs.reserve(1)
    }

    /// How many queues there are.
    pub fn len(&self) -> u64
        ensures { result ≡ length self.now.runs.items }
    {
        self.runs.len() as u64
    }

    /// This run's queue comes last. Takes no memory.
    pub fn push(&mut self, r: u64)
        requires { vec_len self.old.runs < vec_capacity self.old.runs }
        ensures { self.new.runs.items ≡ self.old.runs.items ++ r ∷ [] }
    {
        self.runs.push_reserved(r);
    }

    /// This run's queue goes, where it is there, and the rest keep their order.
    pub fn remove(&mut self, r: u64)
        ensures { self.new.runs.items ≡ without r self.old.runs.items }
    {
        match find(self.runs.as_slice(), r) {
            Some(at) => {
                self.runs.remove(at);
            }
            None => {}
        }
    }

    /// The next place of the list, round it.
    fn place_after(&self, at: u64) -> u64
        ensures { result ≡ next_place self.now.runs.items at }
    {
        let len = self.runs.len() as u64;
        if at < len && at + 1 < len { at + 1 } else { 0 }
    }

    /// The run at this place.
    fn run_at(&self, at: u64) -> u64
        ensures { result ≡ queue_at self.now.runs.items at }
    {
        match self.runs.get(at as usize) {
            Some(run) => *run,
            None => 0,
        }
    }

    /// The next queue on the walk of this run, which passes its own, from this place on, where so many are still to go to.
    pub fn next(&self, r: u64, at: u64, left: u64) -> Option<Found>
        ensures { (x : RunPoll) → x.run ≡ r → walk x self.now.runs.items at left ≡ goes_to x result }
    {
        let mut at = at;
        let mut left = left;
        while left > 0 {
            let run = self.run_at(at);
            at = self.place_after(at);
            left -= 1;
            if run != r {
                return Some(Found {
                    run,
                    next: at,
                    left,
                });
            }
        }
        None
    }
}
