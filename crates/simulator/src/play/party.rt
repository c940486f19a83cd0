//! What a script knows of its parties.

ghost use Rattle.std.specs.Prelude.{◌≡◌};
ghost use Rattle.simulator.specs.Play as play;

use executor_model::Reply;

/// A command that a party has begun.
#[derive(Clone, Copy)]
pub struct Doing {
    /// The place of the command in the script.
    pub command: usize,
    /// It has cancelled, and polls the handle.
    pub polls: bool,
    /// Of its requests for memory so many more come up to the one that alone is refused, that one counted; 0 where none is, or none
    /// any more.
    pub to_go: u64,
}

/// One party.
#[derive(Clone, Copy)]
pub struct Party {
    /// The command that it has begun and not ended.
    pub doing: Option<Doing>,
    /// How its last call was answered.
    pub reply: Reply,
}

impl Party {
    /// A party that has begun nothing.
    pub fn idle() -> Party
        ensures { result ≡ play.idle }
    {
        Party {
            doing: None,
            reply: Reply::Done,
        }
    }
}
