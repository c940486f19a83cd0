//! The steps of a task's word that a handle, a waker or a Runnable takes. What a step leaves to be done is the answer.
ghost use Rattle.std.proofs.Props.{props};
ghost use Rattle.std.specs.Prelude.{◌≡◌, false, is_some, is_ok, Some, None, IfOk, IfSome, MatchOption};
ghost use Rattle.async_task.specs.Due.{WasIdle};
ghost use Rattle.async_task.specs.Polls.{IsTold};
ghost use Rattle.async_task.specs.Rests.{info_of, was_woken_by};
ghost use Rattle.task_word.specs.Handles.{IsHandleOf};

use crate::bounds::Output;
use crate::cell::{Held, Kept, RunnableToken, Site, TaskToken, WakerToken};
use crate::look::{Look, StaysAwake, TooManyReferences};
use crate::schedule::ScheduleInfo;
use std::sync::Wait;
use task_moves::moves::Owed;
use task_word::tokens::{Debt, Left, OwingRun, OwingTask, PastRun, Trace};

/// A Runnable that has to be scheduled, with the information that is passed to its task's schedule value.
pub(crate) struct Woken<F: 'static, T: 'static, W: 'static> {
    pub token: RunnableToken<F, T, W>,
    pub info: ScheduleInfo,
}

/// What is left to be done where a reference or the handle went.
pub(crate) enum Rest<F: 'static, T: 'static, W: 'static> {
    Queue(Woken<F, T, W>),
    /// The awaiter that is left, which is dropped.
    Drop(Kept<W>),
    Nothing,
}

/// What is left of a task that nobody can reach any more, while its future is being dropped.
pub(crate) struct Remains<F: 'static, T: 'static, W: 'static> {
    pub owed: Owed,
    pub left: Left<F, T, Kept<W>>,
    ghost paid: { is_ok left.runnable ≡ is_some owed.schedule },
    ghost alone: { IfSome left.awaiter (λ _. is_ok left.runnable ≡ false) } by { Prim.hlevel props },
}

/// The Runnable that has to be scheduled.
#[inline(always)]
pub(crate) fn owed_runnable<F, T, W>(
    owed: Owed,
    runnable: Result<RunnableToken<F, T, W>, Trace>,
) -> Option<Woken<F, T, W>>
where
    F: 'static,
    T: 'static,
    W: 'static,
    requires { is_ok runnable ≡ is_some owed.schedule }
    ensures { MatchOption result (is_some owed.schedule ≡ false)
        (λ woken. owed.schedule ≡ Some woken.info) }
{
    match runnable {
        Ok(token) => match owed.schedule {
            Some(info) => Some(Woken { token, info }),
            None => unreachable!(),
        },
        Err(_) => None,
    }
}

impl<F, T: Output, S, M, W, R> Held<F, T, S, M, W, R>
where
    F: Drop + 'static,
    S: Drop + 'static,
    M: Copy + Drop + 'static,
    W: Drop + 'static,
    R: Wait + Copy + Drop,
{
    /// One reference more, where that is allowed.
    #[inline(always)]
    pub(crate) fn hold(&self) -> Result<WakerToken<F, T, W>, TooManyReferences> {
        match self.cell.word.copy_once() {
            Some(tried) => match tried.1 {
                Ok(token) => Ok(token),
                Err(trace) => Err(TooManyReferences { trace }),
            },
            None => self.hold_apart(),
        }
    }

    /// One reference more, that one try didn't take.
    #[cold]
    #[inline(never)]
    fn hold_apart(&self) -> Result<WakerToken<F, T, W>, TooManyReferences> {
        match self.cell.word.copy(&self.rt).1 {
            Ok(token) => Ok(token),
            Err(trace) => Err(TooManyReferences { trace }),
        }
    }

    /// How the task stands at this moment.
    pub(crate) fn look(&self) -> Look {
        let (state, trace) = self.cell.word.look();
        Look { state, trace }
    }
}

impl<F, T: Output, S, M, W, R> Site<F, T, S, M, W, R>
where
    F: Drop + 'static,
    S: Drop + 'static,
    M: Copy + Drop + 'static,
    W: Drop + 'static,
    R: Wait + Copy + Drop,
{
    /// A wake: the answer is a Runnable where one has to be scheduled, and else what shows that none had to be.
    #[inline(always)]
    pub(crate) fn wake(&self) -> Result<Woken<F, T, W>, StaysAwake>
        ensures { IfOk result (λ woken. WasIdle woken.info) }
    {
        match self.wake_once() {
            Some(tried) => tried,
            None => self.wake_apart(),
        }
    }

    /// One try of a wake. None where somebody else stepped meanwhile.
    #[inline(always)]
    pub(crate) fn wake_once(&self) -> Option<Result<Woken<F, T, W>, StaysAwake>>
        ensures { IfSome result (λ tried. IfOk tried (λ woken. WasIdle woken.info)) }
    {
        match self.cell.word.wake_once() {
            Some((owed, Ok(token))) => match owed.schedule {
                Some(info) => Some(Ok(Woken { token, info })),
                None => unreachable!(),
            },
            Some((_, Err(trace))) => Some(Err(StaysAwake { trace })),
            None => None,
        }
    }

    /// A wake that one try didn't make.
    #[cold]
    #[inline(never)]
    pub(crate) fn wake_apart(&self) -> Result<Woken<F, T, W>, StaysAwake>
        ensures { IfOk result (λ woken. WasIdle woken.info) }
    {
        let (owed, runnable) = self.cell.word.wake(&self.rt);
        match runnable {
            Ok(token) => match owed.schedule {
                Some(info) => Ok(Woken { token, info }),
                None => unreachable!(),
            },
            Err(trace) => Err(StaysAwake { trace }),
        }
    }

    /// A reference goes.
    #[inline(always)]
    pub(crate) fn release(&self, token: WakerToken<F, T, W>) -> Rest<F, T, W>
        ensures { IfSome (info_of result) WasIdle }
    {
        let (owed, left) = token.release(&self.rt);
        self.left(owed, left)
    }

    /// A run gives its reference up.
    #[inline(always)]
    pub(crate) fn give_up(&self, past: PastRun<F, T, Kept<W>>) -> Rest<F, T, W>
        ensures { IfSome (info_of result) WasIdle }
    {
        let (owed, left) = past.give_up(&self.rt);
        self.left(owed, left)
    }

    /// What is left where a reference or the handle went. Where it was the last of all, the place is free.
    #[inline(always)]
    pub(crate) fn left(&self, owed: Owed, left: Left<F, T, Kept<W>>) -> Rest<F, T, W>
        requires paid { is_ok left.runnable ≡ is_some owed.schedule }
        requires alone { IfSome left.awaiter (λ _. is_ok left.runnable ≡ false) }
        ensures told { IfSome (info_of result) (λ info. owed.schedule ≡ Some info) }
        ensures queued { is_some (info_of result) ≡ is_some owed.schedule }
    {
        if owed.empty_cell {
            Self::empty(self.rt, self.realm, self.place, self.cell);
        }
        let Left { runnable, awaiter } = left;
        match awaiter {
            Some(awaiter) => match runnable {
                Ok(_) => unreachable!(),
                Err(_) => Rest::Drop(awaiter.pay()),
            },
            None => match owed_runnable(owed, runnable) {
                Some(woken) => Rest::Queue(woken),
                None => Rest::Nothing,
            },
        }
    }
}

/// The value that has to be called or dropped.
#[inline(always)]
pub(crate) fn paid<X>(debt: Option<Debt<X>>) -> Option<X>
    ensures { result ≡ debt }
{
    match debt {
        Some(debt) => Some(debt.pay()),
        None => None,
    }
}

/// The awaiter comes out, to be called, where it has to be woken.
#[inline(always)]
pub(crate) fn notified<F: Drop + 'static, T: Output, W: Drop + 'static, R: Wait>(
    rt: &R,
    run: Result<PastRun<F, T, Kept<W>>, OwingRun<F, T, Kept<W>>>,
) -> (PastRun<F, T, Kept<W>>, Option<Kept<W>>) {
    match run {
        Ok(past) => (past, None),
        Err(owing) => {
            let (_, past, awaiter) = owing.notify(rt);
            (past, paid(awaiter))
        }
    }
}

/// The same of a handle.
#[inline(always)]
pub(crate) fn told<F: Drop + 'static, T: Output, W: Drop + 'static, R: Wait>(
    rt: &R,
    task: Result<TaskToken<F, T, W>, OwingTask<F, T, Kept<W>>>,
) -> (TaskToken<F, T, W>, Option<Kept<W>>)
    ensures same { IsHandleOf result.0.cell.now task.entry }
    ensures told { IsTold task.entry result.0.claim }
{
    match task {
        Ok(task) => (task, None),
        Err(owing) => {
            let (_, task, awaiter) = owing.notify(rt);
            (task, paid(awaiter))
        }
    }
}

/// Whether the task was woken while it was polled.
#[inline(always)]
pub(crate) fn was_woken<F, T, W>(rest: &Rest<F, T, W>) -> bool
where
    F: 'static,
    T: 'static,
    W: 'static,
    ensures { result ≡ was_woken_by (info_of rest.now) }
{
    match rest {
        Rest::Queue(woken) => woken.info.woken_while_running,
        _ => false,
    }
}
