//! The wakers that an executor's drop, or its leak, takes out of its table.
ghost use Rattle.std.specs.Prelude.{◌≡◌, ◌+◌, [], ◌∷◌, ◌++◌, false, drop as list_drop, length, slice_get};
ghost use Rattle.std.specs.Prelude.{IfErr, IfSome, None, OnOk, OnSome, Some};
ghost use Rattle.async_executor.specs.Closing.{listed, CallsWaker};
ghost use Rattle.call_steps.specs.Closing.{closing};
ghost use Rattle.call_steps.specs.Seeing.{woke};
ghost use Rattle.call_steps.specs.Todo.{following, top};
ghost use Rattle.call_steps.specs.declared.reply.Reply.TheVariants as reply;
ghost use Rattle.call_steps.specs.declared.step.CallStep.TheVariants as step;
ghost use Rattle.call_steps.specs.declared.step.table.ClosingStep.TheVariants as closing_step;
ghost use Rattle.executor_parts.specs.declared.mark.Mark.TheVariants as mark;

use crate::deeds::Steps;
use crate::due::{Handed, pay, pay_next};
use crate::entry::Unlocked;
use crate::names::{ExRealm, TableWaker};
use crate::task_name::TaskName;
use async_task::{Output, OutsideWaker, Returning, Runtime, StoredWaker, Wake};
use std::collections::VecDeque;
use std::marker::Model;

/// A waker that came out of the table. It has no drop: it is called.
#[must_use]
pub struct ToCall {
    waker: Returning<StoredWaker>,
}

/// A waker for which a list had no room, nor memory for more. It has no drop: it is called at once.
#[must_use]
pub struct NoRoom {
    waker: ToCall,
}

impl Model for ToCall {
    ghost use Rattle.async_task.specs.Handles.{Resting};

    ghost Value = { Resting };

    ghost view = { λ t. t.waker };
}

impl ToCall {
    pub fn of(waker: Returning<StoredWaker>) -> ToCall
        ensures { result ≡ waker }
    {
        ToCall { waker }
    }

    /// Wraps what came out of an entry.
    pub fn of_entry(waker: TableWaker) -> Option<ToCall>
        ensures { result ≡ waker }
    {
        match waker {
            Some(waker) => Some(ToCall::of(waker)),
            None => None,
        }
    }

    /// Which task it is of.
    pub fn name(&self) -> TaskName
        ensures { result ≡ self.now.identity }
    {
        TaskName::of_waker(&self.waker)
    }

    /// Calls it. Its task is queued then, or was before. The answer is that task, where it has to be queued.
    pub fn call<T: Output, W: OutsideWaker, R: Runtime>(
        self,
        rt: R,
        realm: &'static ExRealm<T, W, R>,
        unlocked: &Unlocked,
    ) -> Option<Handed<T, W, R>>
        ensures { IfSome result (λ handed. handed.runnable.stored.identity ≡ self.identity) }
    {
        let _ = unlocked;
        let ToCall { waker } = self;
        match waker.wake(rt, realm) {
            Some(due) => Some(Handed::of(due)),
            None => None,
        }
    }

    /// Calls it, with all that this leads to, where this many are left, as a leak and an executor's drop do.
    #[tactic(auto, using(crate::proofs::Waking::sees_waking, crate::proofs::Waking::appends_first))]
    pub fn call_and_pay<T: Output, W: OutsideWaker, R: Runtime>(
        self,
        rt: R,
        realm: &'static ExRealm<T, W, R>,
        left: u64,
        steps: &mut Steps,
        unlocked: &mut Unlocked,
    )
        requires { CallsWaker (top steps.old) }
        ensures { steps.new ≡ following (woke self.identity false left) steps.old }
    {
        let handed = steps.call_entry(self, left, rt, realm, unlocked);
        pay_next(rt, handed, steps, unlocked);
    }
}

impl NoRoom {
    /// Calls it, with all that this leads to, as a part of its own.
    pub fn call_apart<T: Output, W: OutsideWaker, R: Runtime>(
        self,
        rt: R,
        realm: &'static ExRealm<T, W, R>,
        unlocked: &mut Unlocked,
    ) {
        let NoRoom { waker } = self;
        let ToCall { waker } = waker;
        let due = waker.wake(rt, realm);
        pay(rt, due, unlocked);
    }
}

/// Wakers that have to be called in the order in which they came. It has no drop: it ends empty, so that none is forgotten.
pub struct Leaving {
    wakers: VecDeque<Returning<StoredWaker>>,
}

impl Leaving {
    /// Makes a list that has room for them.
    pub fn of(wakers: VecDeque<Returning<StoredWaker>>) -> Leaving
        ensures { result.wakers ≡ wakers }
    {
        Leaving { wakers }
    }

    /// How many there are.
    pub fn len(&self) -> usize
        ensures { result ≡ length self.now.wakers.items }
    {
        self.wakers.len()
    }

    /// Appends the waker of an entry, where it has one. The waker comes back where there is no room, and no memory for more. The
    /// first answer is the task of the waker, where there is one.
    pub fn keep(&mut self, waker: Option<ToCall>) -> (TaskName, Option<NoRoom>)
        ensures name { IfSome waker (λ kept. result.0 ≡ kept.identity) }
        ensures kept { result.1 ≡ None → self.new.wakers.items ≡ self.old.wakers.items ++ listed waker }
        ensures back { IfSome result.1 (λ back. (waker ≡ Some back.waker) × (self.new.wakers.items ≡ self.old.wakers.items)) }
    {
        match waker {
            Some(waker) => {
                let name = waker.name();
                match self.push(waker) {
                    Ok(()) => (name, None),
                    Err(refused) => (name, Some(refused)),
                }
            }
            None => (TaskName::of_none(), None),
        }
    }

    /// Appends a waker. It comes back where there is no room, and no memory for more.
    fn push(&mut self, waker: ToCall) -> Result<(), NoRoom>
        ensures last { OnOk result (self.new.wakers.items ≡ self.old.wakers.items ++ waker ∷ []) }
        ensures back { IfErr result (λ back. (back.waker ≡ waker) × (self.new.wakers.items ≡ self.old.wakers.items)) }
    {
        let ToCall { waker } = waker;
        match self.wakers.push_back(waker) {
            Ok(()) => Ok(()),
            Err(refused) => Err(NoRoom {
                waker: ToCall::of(refused.value),
            }),
        }
    }

    /// Takes out the first.
    fn next(&mut self) -> Option<ToCall>
        ensures first { result ≡ slice_get self.old.wakers.items 0 }
        ensures rest { self.new.wakers.items ≡ list_drop 1 self.old.wakers.items }
        ensures none { result ≡ None → self.old.wakers.items ≡ [] }
        ensures some { OnSome result (length self.old.wakers.items ≡ length self.new.wakers.items + 1) }
    {
        match self.wakers.pop_front() {
            Some(waker) => Some(ToCall::of(waker)),
            None => None,
        }
    }

    /// An executor's drop calls each waker, in order.
    pub fn wake_all<T: Output, W: OutsideWaker, R: Runtime>(
        &mut self,
        rt: R,
        realm: &'static ExRealm<T, W, R>,
        steps: &mut Steps,
        unlocked: &mut Unlocked,
    )
        requires { steps.old ≡ closing 0 (length self.old.wakers.items) ++ step.End reply.Done ∷ [] }
        ensures called { self.new.wakers.items ≡ [] }
        ensures steps { steps.new ≡ step.Closing (closing_step.Close mark.Urgent) ∷ step.End reply.Done ∷ [] }
    {
        for _ in rt.forever() {
            let Some(waker) = self.next() else {
                return;
            };
            let left = self.len() as u64;
            waker.call_and_pay(rt, realm, left, steps, unlocked);
        }
        unreachable!()
    }

    /// Ends it, as it is empty.
    pub fn end(self)
        requires { self.wakers.items ≡ [] }
    {
        let Leaving { wakers } = self;
        drop(wakers);
    }
}
