pub use task_moves::ScheduleInfo;

/// What schedules a task that has to be run: most often it puts the task into a queue. It is called while no lock of a task is
/// held.
pub trait Schedule<R> {
    /// Schedules this task. `info` says whether the task was woken while it was polled.
    fn schedule(&self, runnable: R, info: ScheduleInfo);
}

/// A schedule value that can be shared, such as a counted pointer.
pub trait Shared: Sized {
    /// Makes one more, which does the same.
    fn share(&self) -> Self;
}

/// A schedule value that uses the information too.
#[derive(Clone, Copy, Debug, PartialEq, Eq, Drop)]
pub struct WithInfo<Q>(pub Q);

impl<Q> From<Q> for WithInfo<Q> {
    ghost use Rattle.std.specs.Prelude.{◌≡◌};

    fn from(schedule: Q) -> Self {
        WithInfo(schedule)
    }
}

impl<R, Q: Schedule<R>> Schedule<R> for WithInfo<Q> {
    fn schedule(&self, runnable: R, info: ScheduleInfo) {
        self.0.schedule(runnable, info);
    }
}
