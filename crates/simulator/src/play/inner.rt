//! Calls that a future makes in its poll on another's handle, and on the executor.

ghost use Rattle.std.specs.Prelude.{◌≡◌, ◌<◌, OnOk, length};
ghost use Rattle.simulator.specs.Handles as handles;
ghost use Rattle.simulator.specs.Play as play;
ghost use Rattle.simulator.specs.Turn as turns;

use crate::play::future::{Future, Stage};
use crate::play::player::Player;
use executor_model::{Call, Step};
use script::Name;
use std::alloc::AllocError;

impl<'a> Player<'a> {
    /// The future drops the handle of the future of this name, where it is there and nobody holds or uses it.
    pub fn poll_stop(&mut self, p: u32, f: u64, name: Name) -> Result<(), AllocError>
        ensures new { OnOk result (self.new ≡
            turns.stop_named (handles.free_handle self.old (handles.handle_of self.old name)) p f self.old) }
        ensures grows { OnOk result (length self.old.tried < length self.new.tried) }
    {
        match self.free_handle(self.handle_of(name)) {
            Some(g) => self.ask(p, f, Call::DropHandle(g)),
            None => self.end_pending(p, f),
        }
    }

    /// The future has a queued task taken up, where that is possible.
    #[tactic(auto, unfolding(crate::specs::Turn::nest, crate::specs::Turn::ask, crate::specs::Play::is_possible))]
    pub fn poll_nest(&mut self, p: u32, f: u64) -> Result<(), AllocError>
        ensures new { OnOk result (self.new ≡ turns.nest p f self.old) }
        ensures grows { OnOk result (length self.old.tried < length self.new.tried) }
    {
        let future = self.future(f);
        self.set_future(
            f,
            Future {
                stage: Stage::Asked,
                ..future
            },
        );
        let step = Step::Begin {
            party: p,
            call: Call::TryTick,
        };
        if self.try_step(step)? {
            Ok(())
        } else {
            self.end_pending(p, f)
        }
    }
}
