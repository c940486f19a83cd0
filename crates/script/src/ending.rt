ghost use Rattle.std.specs.Prelude.{◌≡◌};
ghost use Rattle.script.specs.EndingText.{ending_text};

/// How a command ended, as the line at its end says it. An output that was given stands behind `Ready`.
#[derive(Clone, Copy)]
pub enum Ending {
    Made,
    Full,
    NoMemory,
    Yes,
    No,
    Done,
    Pending,
    Ready,
    Cancelled,
    /// A run was polled that is over.
    Finished,
    /// The command changed nothing, since what it needs isn't there.
    NotPossible,
    /// The next step would wait for another party, and changed nothing.
    Waits,
}

impl Ending {
    /// Its text.
    pub fn text(self) -> &'static [u8]
        ensures { result.now ≡ ending_text self }
    {
        match self {
            Ending::Made => b"ok",
            Ending::Full => b"full",
            Ending::NoMemory => b"no memory",
            Ending::Yes => b"true",
            Ending::No => b"false",
            Ending::Done => b"done",
            Ending::Pending => b"pending",
            Ending::Ready => b"ready",
            Ending::Cancelled => b"cancelled",
            Ending::Finished => b"finished",
            Ending::NotPossible => b"not possible",
            Ending::Waits => b"waits",
        }
    }
}
