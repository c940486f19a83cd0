//! What a step of a task's word leaves to be done. All code of a user that a move leads to is called here, and none of it inside
//! of a step.
ghost use Rattle.std.specs.Prelude.{◌≡◌, IfSome};
ghost use Rattle.async_task.specs.Due.{IsDueBy, WasIdle};
ghost use Rattle.async_task.specs.Rests.{info_of};

use crate::bounds::{Output, OutsideWaker};
use crate::cell::fixed::{claim_present, read};
use crate::cell::resting::KeptWaker;
use crate::cell::returning::GoesBack;
use crate::cell::scheduled::{Due, Scheduled, StoredWaker};
use crate::cell::turns::notified;
use crate::cell::{Held, Kept, Realm, Rest, Site, WakerToken, Woken};
use crate::schedule::{Schedule, ScheduleInfo};
use crate::wake::Wake;
use crate::waker::TaskWaker;
use std::sync::Wait;
use task_word::tokens::{OwingRun, PastRun};

impl<F, T: Output, S, M, W: OutsideWaker, R> Site<F, T, S, M, W, R>
where
    F: Drop + 'static,
    S: Drop + 'static,
    M: Copy + Drop + 'static,
    R: Wait + Copy + Drop,
{
    /// A waker goes.
    #[inline(always)]
    pub(crate) fn release_later(self, token: WakerToken<F, T, W>) -> Option<Due<F, T, S, M, W, R>>
        ensures { IfSome result (IsDueBy self) }
    {
        match token.release_once() {
            Ok(_) => None,
            Err(token) => self.release_last_later(token),
        }
    }

    /// A waker goes, which may be the last.
    #[inline(never)]
    fn release_last_later(self, token: WakerToken<F, T, W>) -> Option<Due<F, T, S, M, W, R>>
        ensures { IfSome result (IsDueBy self) }
    {
        match self.release(token) {
            Rest::Queue(woken) => Some(self.due(woken)),
            Rest::Drop(kept) => {
                Self::let_go_quietly(self.rt, self.realm, kept);
                None
            }
            Rest::Nothing => None,
        }
    }

    /// A waker is called, and goes.
    pub(crate) fn wake_and_release_later(
        self,
        token: WakerToken<F, T, W>,
    ) -> Option<Due<F, T, S, M, W, R>>
        ensures { IfSome result (IsDueBy self) }
    {
        match self.wake() {
            Ok(woken) => {
                match self.release(token) {
                    // A task has one Runnable, so this is none: that two tokens are of one cell is not seen here.
                    Rest::Queue(woken) => self.give_back(woken),
                    Rest::Drop(kept) => Self::let_go_quietly(self.rt, self.realm, kept),
                    Rest::Nothing => {}
                }
                Some(self.due(woken))
            }
            Err(_) => self.release_later(token),
        }
    }

    /// A waker that a cell of this realm kept, as a list keeps it.
    fn kept_waker(realm: &'static Realm<F, T, S, M, W>, waker: KeptWaker) -> StoredWaker {
        let (place, stored) = waker.open();
        StoredWaker::at(&realm.returns, place, stored)
    }

    /// Drops a waker that a cell of this realm kept, or was to keep. The answer is what then has to be passed to a schedule value.
    #[inline(always)]
    pub(crate) fn let_go(
        rt: R,
        realm: &'static Realm<F, T, S, M, W>,
        kept: Kept<W>,
    ) -> Option<Due<F, T, S, M, W, R>>
        ensures { IfSome result (λ due. WasIdle due.info) }
    {
        match kept {
            Kept::Task(waker) => Self::let_go_one(rt, realm, waker),
            Kept::Outside(waker) => {
                drop(waker);
                None
            }
            Kept::Nothing => None,
        }
    }

    /// The same of a waker of a task. Where it was the last of its task, whose cell kept a waker too, that goes next.
    #[inline(never)]
    fn let_go_one(
        rt: R,
        realm: &'static Realm<F, T, S, M, W>,
        waker: KeptWaker,
    ) -> Option<Due<F, T, S, M, W, R>>
        ensures { IfSome result (λ due. WasIdle due.info) }
    {
        let mut waker = waker;
        for _ in rt.forever() {
            match Self::kept_waker(realm, waker).find(rt, realm) {
                Ok((site, token)) => match site.release(token) {
                    Rest::Queue(woken) => return Some(site.due(woken)),
                    Rest::Drop(Kept::Task(next)) => waker = next,
                    Rest::Drop(Kept::Outside(last)) => {
                        drop(last);
                        return None;
                    }
                    Rest::Drop(Kept::Nothing) | Rest::Nothing => return None,
                },
                Err(waker) => {
                    waker.go_back();
                    return None;
                }
            }
        }
        unreachable!()
    }

    /// The same where nobody is there to hand a task to: its Runnable goes back to its realm.
    pub(crate) fn let_go_quietly(rt: R, realm: &'static Realm<F, T, S, M, W>, kept: Kept<W>) {
        if let Some(Due { runnable, info: _ }) = Self::let_go(rt, realm, kept) {
            runnable.store().go_back();
        }
    }

    /// Calls a waker that a cell kept, which is gone then.
    fn call(
        rt: R,
        realm: &'static Realm<F, T, S, M, W>,
        kept: Kept<W>,
    ) -> Option<Due<F, T, S, M, W, R>>
        ensures { IfSome result (λ due. WasIdle due.info) }
    {
        match kept {
            Kept::Task(waker) => match Self::kept_waker(realm, waker).find(rt, realm) {
                Ok((site, token)) => site.wake_and_release_later(token),
                Err(waker) => {
                    waker.go_back();
                    None
                }
            },
            Kept::Outside(waker) => {
                waker.wake();
                None
            }
            Kept::Nothing => None,
        }
    }
}

impl<F, T: Output, S, M, W: OutsideWaker, R> Held<F, T, S, M, W, R>
where
    F: Drop + 'static,
    S: Drop + 'static,
    M: Copy + Drop + 'static,
    R: Wait + Copy + Drop,
{
    /// Calls a waker that a cell kept, where one was there.
    #[inline(always)]
    pub(crate) fn call_some(&self, kept: Option<Kept<W>>) -> Option<Due<F, T, S, M, W, R>>
        ensures { IfSome result (λ due. WasIdle due.info) }
    {
        match kept {
            Some(kept) => Site::call(self.rt, self.realm, kept),
            None => None,
        }
    }

    /// The end of a closing call: the awaiter is called, and then the reference given up. Two tasks may then have to be scheduled.
    /// The second goes back to its realm: who awaits a task after its last call is dropped with it.
    pub(crate) fn leave_later(
        &self,
        run: Result<PastRun<F, T, Kept<W>>, OwingRun<F, T, Kept<W>>>,
    ) -> Option<Due<F, T, S, M, W, R>>
        ensures { IfSome result (λ due. WasIdle due.info) }
    {
        let (past, awaiter) = notified(&self.rt, run);
        let due = self.call_some(awaiter);
        match self.site().give_up(past) {
            // The move that gives a reference up leaves no Runnable to be scheduled.
            Rest::Queue(woken) => self.site().give_back(woken),
            Rest::Drop(kept) => Site::let_go_quietly(self.rt, self.realm, kept),
            Rest::Nothing => {}
        }
        due
    }
}

impl<F, T: Output, S, M, W: OutsideWaker, R> Held<F, T, S, M, W, R>
where
    F: Drop + 'static,
    S: Schedule<Scheduled<F, T, S, M, W, R>> + Drop + 'static,
    M: Copy + Drop + 'static,
    R: Wait + Copy + Drop,
{
    /// Does what is left to be done.
    #[inline(always)]
    pub(crate) fn pay(&self, rest: Rest<F, T, W>) {
        match rest {
            Rest::Queue(woken) => self.queue(Some(woken)),
            Rest::Drop(kept) => pay_due(Site::let_go(self.rt, self.realm, kept)),
            Rest::Nothing => {}
        }
    }

    /// The end of a run or of a closing call: the awaiter is called, and then the reference given up.
    #[inline(always)]
    pub(crate) fn leave(&self, run: Result<PastRun<F, T, Kept<W>>, OwingRun<F, T, Kept<W>>>) {
        let (past, awaiter) = notified(&self.rt, run);
        pay_due(self.call_some(awaiter));
        self.pay(self.site().give_up(past));
    }

    /// A wake, which schedules the task where that has to be done.
    #[inline(always)]
    pub(crate) fn wake_and_queue(&self) {
        match self.site().wake_once() {
            Some(Ok(Woken { token, info })) => {
                let held = self.share();
                self.hand_over_apart(Scheduled { held, token }, info);
            }
            Some(Err(_)) => {}
            None => self.wake_and_queue_apart(),
        }
    }

    /// A wake that one try didn't make.
    #[cold]
    #[inline(never)]
    fn wake_and_queue_apart(&self) {
        if let Ok(Woken { token, info }) = self.site().wake_apart() {
            let held = self.share();
            self.hand_over(Scheduled { held, token }, info);
        }
    }

    /// A waker goes.
    #[inline(always)]
    pub(crate) fn release(&self, token: WakerToken<F, T, W>) {
        match token.release_once() {
            Ok(_) => {}
            Err(token) => self.release_last(token),
        }
    }

    /// A waker goes, which may be the last.
    #[inline(never)]
    fn release_last(&self, token: WakerToken<F, T, W>) {
        self.pay(self.site().release(token));
    }

    /// One more waker, or None where the task has 2^40 references already.
    #[inline(always)]
    pub(crate) fn one_more(&self) -> Option<TaskWaker<F, T, S, M, W, R>>
        ensures { IfSome result (λ copy. copy ≡ self.now) }
    {
        match self.hold() {
            Ok(token) => Some(TaskWaker::of(self.share(), token)),
            Err(_) => None,
        }
    }

    /// Hands the task to its schedule value, where it has to be scheduled.
    #[inline(always)]
    pub(crate) fn queue(&self, woken: Option<Woken<F, T, W>>) {
        if let Some(Woken { token, info }) = woken {
            let held = self.share();
            self.hand_over(Scheduled { held, token }, info);
        }
    }

    /// Hands the task to its schedule value, which a claim keeps where it is meanwhile.
    #[inline(always)]
    pub(crate) fn hand_over(&self, runnable: Scheduled<F, T, S, M, W, R>, info: ScheduleInfo) {
        let claim = claim_present(&self.rt, &self.cell.fixed);
        read(&claim).schedule.schedule(runnable, info);
        self.site().leave_slot(claim);
    }

    /// The same, in code of its own, for who seldom has to.
    #[inline(never)]
    fn hand_over_apart(&self, runnable: Scheduled<F, T, S, M, W, R>, info: ScheduleInfo) {
        self.hand_over(runnable, info);
    }
}

/// Hands a task to its schedule value.
#[inline(always)]
pub fn pay_due<F, T: Output, S, M, W: OutsideWaker, R>(due: Option<Due<F, T, S, M, W, R>>)
where
    F: Drop + 'static,
    S: Schedule<Scheduled<F, T, S, M, W, R>> + Drop + 'static,
    M: Copy + Drop + 'static,
    R: Wait + Copy + Drop,
{
    if let Some(Due { runnable, info }) = due {
        let task = runnable.held.share();
        task.hand_over_apart(runnable, info);
    }
}
