//! What a party does next.

ghost use Rattle.std.specs.Prelude.{◌≡◌, ℕ, ◌+◌, ◌^◌, ◌<◌, IfSome, OnOk, length, position};
ghost use Rattle.script.specs.Names.{number_of};
ghost use Rattle.simulator.specs.Play as play;
ghost use Rattle.simulator.specs.Turn as turns;

use crate::play::future::{Future, Stage, doubled};
use crate::play::party::Doing;
use crate::play::player::{Player, item_at, later};
use executor_model::{Answer, By, Call, HandleOp, Hint, Op, Reply, Step, UserEnd, UserOp, Waker};
use script::{Item, Name, Plain};
use std::alloc::AllocError;

fn is_same_waker(one: Waker, other: Waker) -> bool
    ensures { result ≡ turns.is_same_waker one other }
{
    match one {
        Waker::Task(f) => match other {
            Waker::Task(g) => f == g,
            Waker::Outside(_) => false,
        },
        Waker::Outside(x) => match other {
            Waker::Outside(y) => x == y,
            Waker::Task(_) => false,
        },
    }
}

fn is_twice(item: Item) -> bool
    ensures { result ≡ turns.is_twice item }
{
    match item {
        Item::Twice(_) => true,
        _ => false,
    }
}

/// The place of the first item that polls a handle.
fn next_held(items: &[Item]) -> Option<usize>
    ensures place { result ≡ position turns.is_twice items.now }
    ensures within { IfSome result (λ k. k < length items.now) }
{
    items.iter().position(|item| is_twice(*item))
}

/// The name in an item that polls a handle.
fn name_in(item: Item) -> Option<Name>
    ensures { result ≡ turns.name_in item }
{
    match item {
        Item::Twice(name) => Some(name),
        _ => None,
    }
}

/// The name of the future of which a command speaks that was accepted before.
fn named(plain: &Plain) -> Option<Name>
    ensures { result ≡ turns.named plain.now }
{
    match plain {
        Plain::Wake(name)
        | Plain::Unkeep(name)
        | Plain::Poll(name)
        | Plain::Cancel(name)
        | Plain::Detach(name)
        | Plain::Drop(name) => Some(*name),
        Plain::Spawn { .. } | Plain::Try | Plain::Empty | Plain::Leak | Plain::End => None,
        Plain::Tick(_) | Plain::PollTick(_) | Plain::DropTick(_) => None,
        Plain::Run { .. } | Plain::PollRun(_) | Plain::DropRun(_) => None,
    }
}

impl<'a> Player<'a> {
    /// The party takes its next step, and its command ends where that was the last.
    #[tactic(auto, unfolding(crate::specs::Turn::turn))]
    pub fn turn(&mut self, p: u32) -> Result<(), AllocError>
        ensures new { OnOk result (self.new ≡ turns.turn p self.old) }
        ensures grows { OnOk result (length self.old.tried < length self.new.tried) }
        ensures bound { length self.old.tried < 2 ^ 64 }
    {
        let _count = self.tried.len();
        let top = self.top(p);
        self.take_step(p, top)?;
        self.settle(p)
    }

    #[tactic(auto, unfolding(crate::specs::Turn::step_by))]
    fn take_step(&mut self, p: u32, top: Option<Op>) -> Result<(), AllocError>
        ensures new { OnOk result (self.new ≡ turns.step_by top p self.old) }
        ensures grows { OnOk result (length self.old.tried < length self.new.tried) }
    {
        match top {
            None => self.poll_cancelled(p),
            Some(Op::User(UserOp::Poll(f))) => self.poll(p, f),
            Some(Op::User(UserOp::Drop(f))) => self.drop_future(p, f),
            Some(Op::User(UserOp::PollOwn(x))) => self.poll_own(p, x),
            Some(Op::User(UserOp::DropOwn(r))) => self.drop_own(p, r),
            Some(op) => self.go_on(p, op),
        }
    }

    #[tactic(auto, unfolding(crate::specs::Turn::go_on))]
    fn go_on(&mut self, p: u32, op: Op) -> Result<(), AllocError>
        ensures new { OnOk result (self.new ≡ turns.go_on p op self.old) }
        ensures grows { OnOk result (length self.old.tried < length self.new.tried) }
    {
        match op {
            Op::User(UserOp::DropOutput(_)) | Op::User(UserOp::CallOutside(_)) => self.answer(
                p,
                UserEnd::Done,
            ),
            _ => self.go(p, op),
        }
    }

    #[tactic(auto, unfolding(crate::specs::Turn::go))]
    fn go(&mut self, p: u32, op: Op) -> Result<(), AllocError>
        ensures new { OnOk result (self.new ≡ turns.go p op self.old) }
        ensures grows { OnOk result (length self.old.tried < length self.new.tried) }
    {
        let hint = Hint {
            refused: self.is_refusing(p, op),
            same: self.is_same(op),
            start: 0,
        };
        self.count_request(p, op);
        self.try_step(Step::Go { party: p, hint })?;
        Ok(())
    }

    /// The awaiter that is notified would wake the same as the waker of the poll that notifies it.
    #[tactic(auto, unfolding(crate::specs::Turn::is_same))]
    fn is_same(&self, op: Op) -> bool
        ensures { result ≡ turns.is_same self.now op }
    {
        match op {
            Op::Handle(HandleOp::EndNotify(f, true)) => match self.machine.awaiter(f) {
                Some(awaiter) => is_same_waker(awaiter.waker, self.future(f).given),
                None => false,
            },
            _ => false,
        }
    }

    #[tactic(auto, unfolding(crate::specs::Turn::answer))]
    pub fn answer(&mut self, p: u32, end: UserEnd) -> Result<(), AllocError>
        ensures new { OnOk result (self.new ≡ turns.answer p end self.old) }
        ensures grows { OnOk result (length self.old.tried < length self.new.tried) }
    {
        self.try_step(Step::Answer { party: p, end })?;
        Ok(())
    }

    /// The handle of the future is polled by this waker.
    #[tactic(auto, unfolding(crate::specs::Turn::given))]
    pub fn give(&mut self, f: u64, waker: Waker)
        ensures new { self.new ≡ turns.given f waker self.old }
        ensures steps { self.new.tried ≡ self.old.tried }
    {
        let future = self.future(f);
        self.set_future(
            f,
            Future {
                given: waker,
                ..future
            },
        );
    }

    pub fn number_named(&self, name: Option<Name>) -> Option<u64>
        ensures { result ≡ turns.number_named self.now name }
    {
        self.number_of(name?)
    }

    /// The future of which the command speaks.
    pub fn subject(&self, doing: Doing) -> Option<u64>
        ensures { result ≡ turns.subject self.now doing }
    {
        match self.plain_at(doing.command) {
            Some(plain) => self.number_named(named(plain)),
            None => None,
        }
    }

    fn subject_of(&self, doing: Option<Doing>) -> Option<u64>
        ensures { result ≡ turns.subject_of self.now doing }
    {
        match doing {
            Some(doing) => self.subject(doing),
            None => None,
        }
    }

    /// The handle of a future that was cancelled is polled.
    fn poll_cancelled(&mut self, p: u32) -> Result<(), AllocError>
        ensures new { OnOk result (self.new ≡ turns.poll_cancelled (turns.subject_of self.old (play.party self.old p).doing) p self.old) }
        ensures grows { OnOk result (length self.old.tried < length self.new.tried) }
    {
        match self.subject_of(self.party(p).doing) {
            Some(f) => self.poll_outside(p, f),
            None => self.answer(p, UserEnd::Done),
        }
    }

    #[tactic(auto, unfolding(crate::specs::Turn::poll_outside))]
    fn poll_outside(&mut self, p: u32, f: u64) -> Result<(), AllocError>
        ensures new { OnOk result (self.new ≡ turns.poll_outside p f self.old) }
        ensures grows { OnOk result (length self.old.tried < length self.new.tried) }
    {
        self.give(f, Waker::Outside(f));
        self.call(p, Call::PollHandle(f, By::Outside(f)))
    }

    /// The future does what its item says.
    #[tactic(auto, unfolding(crate::specs::Turn::poll))]
    fn poll(&mut self, p: u32, f: u64) -> Result<(), AllocError>
        ensures new { OnOk result (self.new ≡ turns.poll p f self.old) }
        ensures grows { OnOk result (length self.old.tried < length self.new.tried) }
    {
        let stage = self.future(f).stage;
        match self.item_of(f) {
            Item::Ready(value) => self.end_ready(p, f, value),
            Item::Twice(name) => match self.number_of(name) {
                Some(g) => self.poll_other(p, f, g),
                None => self.end_pending(p, f),
            },
            Item::Pend => self.end_pending(p, f),
            Item::WakeSelf => match stage {
                Stage::Begun => self.ask(p, f, Call::WakeSelf),
                _ => self.end_pending(p, f),
            },
            Item::Keep => match stage {
                Stage::Begun => self.ask(p, f, Call::Keep),
                Stage::Replaced(old) => self.ask(p, f, Call::DropWaker(old)),
                Stage::Asked => self.end_pending(p, f),
            },
            Item::Stop(name) => match stage {
                Stage::Begun => self.poll_stop(p, f, name),
                _ => self.end_pending(p, f),
            },
            Item::Nest => match stage {
                Stage::Begun => self.poll_nest(p, f),
                _ => self.end_pending(p, f),
            },
        }
    }

    /// The poll makes a call.
    #[tactic(auto, unfolding(crate::specs::Turn::ask))]
    pub fn ask(&mut self, p: u32, f: u64, call: Call) -> Result<(), AllocError>
        ensures new { OnOk result (self.new ≡ turns.ask p f call self.old) }
        ensures grows { OnOk result (length self.old.tried < length self.new.tried) }
    {
        let future = self.future(f);
        self.set_future(
            f,
            Future {
                stage: Stage::Asked,
                ..future
            },
        );
        self.call(p, call)
    }

    pub fn call(&mut self, p: u32, call: Call) -> Result<(), AllocError>
        ensures new { OnOk result (self.new ≡ play.tried (Step.Begin p call) self.old) }
        ensures grows { OnOk result (length self.old.tried < length self.new.tried) }
    {
        self.try_step(Step::Begin { party: p, call })?;
        Ok(())
    }

    #[tactic(auto, unfolding(crate::specs::Turn::poll_other))]
    fn poll_other(&mut self, p: u32, f: u64, g: u64) -> Result<(), AllocError>
        ensures new { OnOk result (self.new ≡ turns.poll_other (play.future self.old f).stage p f g self.old) }
        ensures grows { OnOk result (length self.old.tried < length self.new.tried) }
    {
        match self.future(f).stage {
            Stage::Begun => {
                self.give(g, Waker::Task(f));
                self.ask(p, f, Call::PollHandle(g, By::Mine))
            }
            _ => match doubled(self.party(p).reply, self.future(g).output) {
                Some(output) => self.end_ready(p, f, output),
                None => self.end_pending(p, f),
            },
        }
    }

    #[tactic(auto, unfolding(crate::specs::Turn::end_pending))]
    pub fn end_pending(&mut self, p: u32, f: u64) -> Result<(), AllocError>
        ensures new { OnOk result (self.new ≡ turns.end_pending p f self.old) }
        ensures grows { OnOk result (length self.old.tried < length self.new.tried) }
    {
        let future = self.future(f);
        let count = self.items_at(future.command).len();
        self.set_future(f, future.end_poll(count));
        self.answer(p, UserEnd::Polled(Answer::Pending))
    }

    #[tactic(auto, unfolding(crate::specs::Turn::end_ready))]
    fn end_ready(&mut self, p: u32, f: u64, output: u64) -> Result<(), AllocError>
        ensures new { OnOk result (self.new ≡ turns.end_ready p f output self.old) }
        ensures grows { OnOk result (length self.old.tried < length self.new.tried) }
    {
        let future = self.future(f);
        let count = self.items_at(future.command).len();
        let ended = future.end_poll(count);
        self.set_future(f, Future { output, ..ended });
        self.answer(p, UserEnd::Polled(Answer::Ready))
    }

    /// The future that is dropped lets go of the next handle that it holds, or its drop ends.
    #[tactic(auto, unfolding(crate::specs::Turn::drop_future))]
    fn drop_future(&mut self, p: u32, f: u64) -> Result<(), AllocError>
        ensures new { OnOk result (self.new ≡ turns.drop_future p f self.old) }
        ensures grows { OnOk result (length self.old.tried < length self.new.tried) }
    {
        let future = self.future(f);
        let held = next_held(later(self.items_at(future.command), future.let_go));
        match held {
            Some(k) => self.drop_held(p, f, k),
            None => self.answer(p, UserEnd::Done),
        }
    }

    #[tactic(auto, unfolding(crate::specs::Turn::drop_held))]
    fn drop_held(&mut self, p: u32, f: u64, k: usize) -> Result<(), AllocError>
        requires { (play.future self.old f).let_go + k < length (turns.items_of self.old f) }
        ensures new { OnOk result (self.new ≡ turns.drop_held ((play.future self.old f).let_go + k) p f self.old) }
        ensures grows { OnOk result (length self.old.tried < length self.new.tried) }
    {
        let future = self.future(f);
        let items = self.items_at(future.command);
        let _count = items.len();
        let place = future.let_go + k;
        let next = self.number_named(name_in(item_at(items, place)));
        self.set_future(
            f,
            Future {
                let_go: place + 1,
                ..future
            },
        );
        match next {
            Some(g) => self.call(p, Call::DropHandle(g)),
            None => self.answer(p, UserEnd::Done),
        }
    }

    /// The handles that these items name are held by another future or a run from now on, or no more.
    #[tactic(auto, unfolding(crate::specs::Turn::held))]
    pub fn hold(&mut self, items: &[Item], held: bool)
        ensures new { self.new ≡ turns.held items.now held self.old }
        ensures steps { self.new.tried ≡ self.old.tried }
    {
        for item in items {
            if let Item::Twice(name) = item {
                let number = self.number_of(*name);
                self.hold_one(number, held);
            }
        }
    }

    /// The handle of the future of this name is held by a run from now on, or no more.
    pub fn hold_named(&mut self, name: Option<Name>, held: bool)
        ensures new { self.new ≡ turns.held_by (turns.number_named self.old name) held self.old }
        ensures steps { self.new.tried ≡ self.old.tried }
    {
        let number = self.number_named(name);
        self.hold_one(number, held);
    }

    fn hold_one(&mut self, number: Option<u64>, held: bool)
        ensures { self.new ≡ turns.held_by number held self.old }
    {
        if let Some(g) = number {
            let future = self.future(g);
            self.set_future(g, Future { held, ..future });
        }
    }
}
