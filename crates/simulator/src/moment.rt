//! The events of a play, and how each command ended.
use executor_model::{Event, Reply};
use script::Word;

/// How a command ended.
#[derive(Clone, Copy)]
pub enum Outcome {
    Answered(Reply),
    /// A polled handle gave this output.
    Output(u64),
    /// The command wasn't possible, and changed nothing.
    NotPossible,
    /// The next step would wait for another party, and changed nothing.
    Waits,
}

/// What a run of a script shows, moment by moment: what happened, and how each command ended.
#[derive(Clone, Copy)]
pub enum Moment {
    Happened(Event),
    Ended { word: Word, outcome: Outcome },
    /// The party that no command names would wait for another, and the script ends.
    Stopped,
}
