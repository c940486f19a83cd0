//! What the polls of ticks and runs answered.
ghost use Rattle.std.specs.Prelude.{◌≡◌, not, true, None, Some};
ghost use Rattle.call_steps.specs.declared.reply.Reply.TheVariants as reply;

use crate::counts::GivesWay;
use call_steps::{Last, Reply};

/// What the last poll of a tick or run answered. Only contracts read it, and only the end of that poll's call writes it.
#[derive(Drop)]
pub struct Answered {
    // None before the first poll.
    reply: Option<Reply>,
    // Whether it ended by letting others go first.
    gave_way: bool,
    // It changes with each poll, so that no poll can answer with what an earlier one left.
    turned: bool,
}

impl Answered {
    /// Not polled yet.
    pub fn never() -> Answered
        ensures { result.reply ≡ None }
    {
        Answered {
            reply: None,
            gave_way: false,
            turned: false,
        }
    }

    /// A poll ends with this reply, as its call did.
    pub fn end(&mut self, reply: Reply, last: Last)
        requires { last ≡ reply }
        ensures reply { self.new.reply ≡ Some reply }
        ensures turned { self.new.turned ≡ not self.old.turned }
    {
        let _ = last;
        self.reply = Some(reply);
        self.gave_way = false;
        self.turned = !self.turned;
    }

    /// A poll of a run ends by letting others go first.
    pub fn end_giving_way(&mut self, gives: GivesWay, last: Last)
        requires { last ≡ reply.Pending }
        ensures reply { self.new.reply ≡ Some reply.Pending }
        ensures gave_way { self.new.gave_way ≡ true }
        ensures turned { self.new.turned ≡ not self.old.turned }
    {
        let _ = last;
        gives.spend();
        self.reply = Some(Reply::Pending);
        self.gave_way = true;
        self.turned = !self.turned;
    }
}
