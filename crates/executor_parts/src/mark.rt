ghost use Rattle.std.specs.Prelude.{◌≡◌};
ghost use Rattle.executor_parts.specs.Marks as marks;

/// Into which of an executor's two queues a future goes.
#[derive(Clone, Copy, Debug, PartialEq, Eq)]
pub enum Mark {
    /// Into the plain one, which one of eight turns looks at first.
    Plain,
    /// Into the urgent one, which the other seven look at first.
    Urgent,
}

impl Mark {
    /// The other one.
    pub fn other(self) -> Mark
        ensures { result ≡ marks.other self }
    {
        match self {
            Mark::Plain => Mark::Urgent,
            Mark::Urgent => Mark::Plain,
        }
    }
}
