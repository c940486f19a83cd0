use crate::spawns::Spawned;

/// What a start came to.
#[derive(Drop)]
pub enum Started {
    /// A future was spawned.
    Spawned(Spawned),
    /// A permit was free, and no place: another thread has given a permit back and not yet its place. The future is kept.
    Full,
    /// There was no memory to spawn.
    NoMemory,
}

/// Starts what was taken, `W`, as far as a worker has to know.
pub trait Starts<W> {
    /// Makes a future of it, and spawns that.
    fn start(&mut self, taken: W) -> Started;

    /// Spawns a future that found no place. None where none is kept.
    fn start_kept(&mut self) -> Option<Started>;
}
