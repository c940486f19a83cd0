//! What a player does, one act after the other.

/// One of the two locks of a world.
#[derive(Clone, Copy, Drop)]
pub enum Lock {
    First,
    Second,
}

/// An act of a player.
#[derive(Clone, Copy, Drop)]
pub enum Act {
    /// Reads the total.
    Read,
    /// Writes a total one more than what it read.
    Write,
    /// Lets others go first.
    Yield,
    /// Raises the flag.
    Raise,
    /// Passes over so many acts, if the flag is raised.
    PassIfRaised(usize),
    /// Listens to the event, from now on.
    Listen,
    /// Waits until it is notified.
    Await,
    /// Believes at its second poll that the event notified it, whoever woke it.
    Believe,
    /// Notifies one listener.
    Notify,
    /// Notifies all listeners.
    NotifyAll,
    /// Waits for the permit of a lock.
    Take(Lock),
    /// Drops that.
    Give(Lock),
    /// Takes the permit of a lock out for good.
    Forget(Lock),
    /// Adds one to those of a lock.
    Add(Lock),
    /// Sends a 1.
    Send,
    /// Waits for a message, and adds it to the total. A closed channel has none.
    Receive,
    /// Closes the channel.
    Close,
    /// Falls asleep.
    Sleep,
    /// Waits until it is notified, or has slept.
    AwaitOrSleep,
    /// Writes a digit behind those of the log.
    Note(u64),
    /// Counts itself as done.
    Done,
}
