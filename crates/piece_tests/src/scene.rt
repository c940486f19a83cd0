//! Threads that overlap. What they do is written over any runtime, and only here a thread starts.
use std::alloc::Global;
use std::thread;
use std::thread::Threads;

/// What threads share, each of which does one part.
pub trait Scene {
    /// What this part comes to, as a number. Its loops are bounded, and the number is the same whatever the schedule.
    fn act(&self, part: usize) -> u64;
}

/// What so many parts come to together, each on a thread of its own.
pub fn played<S, R>(rt: &R, alloc: Global, scene: &S, parts: usize) -> u64
where
    S: Scene + Sync,
    R: Threads + Sync,
{
    match thread::map_indices(rt, alloc, parts, &|part| { scene.act(part) }) {
        Ok(ends) => ends.iter().fold(0, |sum, one| sum.saturating_add(*one)),
        Err(_) => 0,
    }
}
