//! The requests for memory of a party's command.

ghost use Rattle.std.specs.Prelude.{◌≡◌};
ghost use Rattle.executor_model.specs.Memory.{asks};
ghost use Rattle.simulator.specs.Play as play;
ghost use Rattle.simulator.specs.Asking as asking;

use crate::play::party::Doing;
use crate::play::player::Player;
use executor_model::{HandleOp, ListOp, Op, RunOp, Section, TableOp, TickOp, WakerOp};
use script::Refusal;

/// It asks for memory in its own step.
fn asks(op: Op) -> bool
    ensures { result ≡ asks op }
{
    matches!(
        op,
        Op::Table(TableOp::Enter(_))
            | Op::Waker(WakerOp::CopyWaker(..))
            | Op::Handle(HandleOp::CopyAwaiter(..))
            | Op::Tick(TickOp::MakeTick | TickOp::CopyWaker(_))
            | Op::List(ListOp::Write(Section::MakeRun))
            | Op::Run(RunOp::MakeRoom)
    )
}

/// How many requests come up to the one that alone is refused, that one counted.
pub fn up_to(refusal: Refusal) -> u64
    ensures { result ≡ asking.up_to refusal }
{
    match refusal {
        Refusal::Only(number) => number,
        Refusal::Nothing | Refusal::Each => 0,
    }
}

impl<'a> Player<'a> {
    /// Memory is refused in this step of the party.
    pub fn is_refusing(&self, p: u32, op: Op) -> bool
        ensures { result ≡ asking.is_refusing self.now (play.party self.now p).doing op }
    {
        match self.party(p).doing {
            Some(doing) => match self.refusal_of(doing) {
                Refusal::Nothing => false,
                Refusal::Each => true,
                Refusal::Only(_) => asks(op) && doing.to_go == 1,
            },
            None => false,
        }
    }

    /// Which of its requests for memory the command is refused.
    fn refusal_of(&self, doing: Doing) -> Refusal
        ensures { result ≡ asking.refusal_of (play.request_at self.now doing.command) }
    {
        match self.request_at(doing.command) {
            Some(request) => request.refusal,
            None => Refusal::Nothing,
        }
    }

    /// This step of the party is counted, where it asks for memory.
    #[tactic(auto, unfolding(crate::specs::Asking::counted))]
    pub fn count_request(&mut self, p: u32, op: Op)
        ensures new { self.new ≡ asking.counted p op self.old }
        ensures steps { self.new.tried ≡ self.old.tried }
    {
        if let Some(doing) = self.party(p).doing {
            if asks(op) {
                self.set_doing(
                    p,
                    Some(Doing {
                        to_go: doing.to_go.saturating_sub(1),
                        ..doing
                    }),
                );
            }
        }
    }
}
