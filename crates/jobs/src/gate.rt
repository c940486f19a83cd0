/// What each job meets at its first poll.
pub trait Gate {
    /// Is called once for each job, by the worker that polls it first.
    fn meet(&self, job: u64);
}

/// A gate that lets each job pass.
#[derive(Clone, Copy, Debug)]
pub struct Open;

impl Gate for Open {
    fn meet(&self, _job: u64) {}
}

impl<T: Gate> Gate for &T {
    fn meet(&self, job: u64) {
        (**self).meet(job);
    }
}
