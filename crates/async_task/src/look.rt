//! What a look at a task, or a call that was refused, found.
ghost use Rattle.std.specs.Prelude.{◌≡◌};
ghost use Rattle.async_task.specs.Looks.{Found, FoundTooMany, FoundAwake};
ghost use Rattle.task_moves.specs.Moves.{is_over};

use task_moves::moves::State;
use task_word::tokens::Trace;

/// The state of a task at one moment. Only a look makes one.
#[derive(Drop)]
pub struct Look {
    pub(crate) state: State,
    pub(crate) trace: Trace,
    ghost found: { ∥ Found state trace ∥₁ },
}

impl Look {
    /// Whether the future had given its output and was dropped, or was going to be dropped.
    pub fn is_finished(&self) -> bool
        ensures { result ≡ is_over self.now.state }
    {
        self.state.completed || self.state.closed
    }

    pub(crate) fn state(&self) -> State {
        self.state
    }
}

/// Proof that a task had 2^40 references already, or that nobody had it, when one more was wanted. Only a refused call makes one.
#[derive(Drop)]
pub struct TooManyReferences {
    pub(crate) trace: Trace,
    ghost refused: { ∥ FoundTooMany trace ∥₁ },
}

/// Proof that a woken task was over or had a Runnable already, or is being polled, so that no Runnable had to be scheduled. Only a
/// wake makes one.
#[derive(Drop)]
pub(crate) struct StaysAwake {
    pub(crate) trace: Trace,
    ghost awake: { ∥ FoundAwake trace ∥₁ },
}
