//! What the own future of a run does.

ghost use Rattle.std.specs.Prelude.{◌≡◌, ◌<◌, OnOk, length};
ghost use Rattle.simulator.specs.Play as play;
ghost use Rattle.simulator.specs.Turn as turns;

use crate::play::future::doubled;
use crate::play::player::Player;
use crate::play::runs::Run;
use executor_model::{Answer, By, Call, RunPoll, UserEnd};
use std::alloc::AllocError;

impl<'a> Player<'a> {
    /// The own future of a run is polled: it polls the handle that it holds, or is never ready.
    #[tactic(auto, unfolding(crate::specs::Turn::poll_own))]
    pub fn poll_own(&mut self, p: u32, x: RunPoll) -> Result<(), AllocError>
        ensures new { OnOk result (self.new ≡ turns.poll_own p x self.old) }
        ensures grows { OnOk result (length self.old.tried < length self.new.tried) }
    {
        match self.number_named(self.run(x.run).twice) {
            Some(f) => self.poll_held(p, x, f),
            None => self.answer(p, UserEnd::Polled(Answer::Pending)),
        }
    }

    #[tactic(auto, unfolding(crate::specs::Turn::poll_held))]
    fn poll_held(&mut self, p: u32, x: RunPoll, f: u64) -> Result<(), AllocError>
        ensures new { OnOk result (self.new ≡ turns.poll_held (play.run self.old x.run).asked p x f self.old) }
        ensures grows { OnOk result (length self.old.tried < length self.new.tried) }
    {
        let run = self.run(x.run);
        if run.asked {
            let output = doubled(self.party(p).reply, self.future(f).output);
            return self.end_own(p, x.run, output);
        }
        self.set_run(x.run, Run { asked: true, ..run });
        self.give(f, x.waker);
        self.call(p, Call::PollHandle(f, By::Mine))
    }

    /// The handle was polled, and the own future is ready with this output, or isn't ready.
    fn end_own(&mut self, p: u32, r: u64, output: Option<u64>) -> Result<(), AllocError>
        ensures new { OnOk result (self.new ≡ turns.end_own output p r self.old) }
        ensures grows { OnOk result (length self.old.tried < length self.new.tried) }
    {
        let run = self.run(r);
        match output {
            Some(output) => {
                self.set_run(r, run.end_poll(output));
                self.answer(p, UserEnd::Polled(Answer::Ready))
            }
            None => {
                self.set_run(r, run.end_poll(run.output));
                self.answer(p, UserEnd::Polled(Answer::Pending))
            }
        }
    }

    /// The own future of a run is dropped: it lets go of the handle that it holds, or its drop ends.
    #[tactic(auto, unfolding(crate::specs::Turn::drop_own))]
    pub fn drop_own(&mut self, p: u32, r: u64) -> Result<(), AllocError>
        ensures new { OnOk result (self.new ≡ turns.drop_own p r self.old) }
        ensures grows { OnOk result (length self.old.tried < length self.new.tried) }
    {
        match self.number_named(self.run(r).twice) {
            Some(f) => self.drop_twice(p, r, f),
            None => self.answer(p, UserEnd::Done),
        }
    }

    #[tactic(auto, unfolding(crate::specs::Turn::drop_twice))]
    fn drop_twice(&mut self, p: u32, r: u64, f: u64) -> Result<(), AllocError>
        ensures new { OnOk result (self.new ≡ turns.drop_twice (play.run self.old r).let_go p r f self.old) }
        ensures grows { OnOk result (length self.old.tried < length self.new.tried) }
    {
        let run = self.run(r);
        if run.let_go {
            return self.answer(p, UserEnd::Done);
        }
        self.set_run(
            r,
            Run {
                let_go: true,
                ..run
            },
        );
        self.call(p, Call::DropHandle(f))
    }
}
