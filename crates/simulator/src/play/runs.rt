//! What a script knows of its runs.

ghost use Rattle.std.specs.Prelude.{◌≡◌};
ghost use Rattle.simulator.specs.Play as play;
ghost use Rattle.simulator.specs.Turn as turns;

use script::Name;

/// One run, as the script sees it.
#[derive(Clone, Copy)]
pub struct Run {
    /// The future whose handle its own future holds and polls; none where that is never ready.
    pub twice: Option<Name>,
    /// The poll of its own future has polled that handle.
    pub asked: bool,
    /// Its own future has let go of that handle.
    pub let_go: bool,
    /// What its own future gives.
    pub output: u64,
}

impl Run {
    /// A run that was just made.
    pub fn new(twice: Option<Name>) -> Run
        ensures { result ≡ play.new_run twice }
    {
        Run {
            twice,
            asked: false,
            let_go: false,
            output: 0,
        }
    }

    /// The poll of the handle that its own future holds is over, and its own future has this output.
    pub fn end_poll(&self, output: u64) -> Run
        ensures { result ≡ turns.own_ended output self.now }
    {
        Run {
            asked: false,
            output,
            ..*self
        }
    }
}
