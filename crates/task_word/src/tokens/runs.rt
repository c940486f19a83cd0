//! What is done with a Runnable that is taken up or let go, up to the end of its poll.
ghost use Rattle.std.specs.Prelude.{◌≡◌, false, Some, is_some, is_ok, not, IfOk, IfErr, IfSome, MatchOption, MatchResult};
ghost use Rattle.task_moves.specs.Moves as moves;
ghost use Rattle.task_word.specs.Once.{begins};
ghost use Rattle.task_word.specs.Steps.{IsSeatOf, HasPlace};
ghost use Rattle.task_word.specs.Tokens.{Shows, ShowsSeat, Owes};
ghost use Rattle.task_word.specs.declared.rule.Hold.TheVariants.{Running, Closing, Ending};

use crate::cell::Cell;
use crate::slot::{put_future, take_future};
use crate::steps::runs::Pause;
use crate::steps::{Pass, closing, runs};
use crate::tokens::{Debt, Left, OwingRun, PastRun, Runnable, Trace, take_left};
use std::sync::Wait;
use task_moves::moves::Owed;

/// A run, whose future is to be polled.
pub struct Run<F: 'static, T: 'static, W: 'static> {
    cell: &'static Cell<F, T, W>,
    pass: Pass<F, T, W>,
    pub future: F,
    ghost seat: { IsSeatOf cell.now.board.shared pass },
    ghost right: { HasPlace Running pass },
}

/// A run whose poll gave an output. Its future was handed out, and is dropped before the output is stored.
pub struct ReadyRun<F: 'static, T: 'static, W: 'static> {
    cell: &'static Cell<F, T, W>,
    pass: Pass<F, T, W>,
    ghost seat: { IsSeatOf cell.now.board.shared pass },
    ghost right: { HasPlace Running pass },
}

/// A Runnable of a closed task. Its future was handed out, and is dropped before it is settled.
pub struct ClosedRunnable<F: 'static, T: 'static, W: 'static> {
    cell: &'static Cell<F, T, W>,
    pass: Pass<F, T, W>,
    ghost seat: { IsSeatOf cell.now.board.shared pass },
    ghost right: { HasPlace Closing pass },
}

/// The same of a run that ended its poll with no output.
pub struct ClosedRun<F: 'static, T: 'static, W: 'static> {
    cell: &'static Cell<F, T, W>,
    pass: Pass<F, T, W>,
    ghost seat: { IsSeatOf cell.now.board.shared pass },
    ghost right: { HasPlace Ending pass },
}

impl<F: 'static, T: 'static, W: 'static> Runnable<F, T, W> {
    /// It becomes a run; or, where the task is closed, its future is to be dropped.
    #[inline(always)]
    pub fn take_up<R: Wait>(
        self,
        rt: &R,
    ) -> (
        Owed,
        Result<Run<F, T, W>, (ClosedRunnable<F, T, W>, Debt<F>)>,
    )
        ensures made { MatchResult result.1
            (λ run. ShowsSeat self.entry.cell.now.board.shared moves.take_up result.0 run.pass)
            (λ closed. ShowsSeat self.entry.cell.now.board.shared moves.take_up result.0 closed.0.pass) }
        ensures polls { is_ok result.1 ≡ not (is_some result.0.next) }
    {
        let (cell, mut pass) = self.open();
        let owed = runs::take_up(rt, cell.board(), &mut pass);
        match owed.next {
            None => {
                let future = take_future(cell.board(), &mut pass);
                (owed, Ok(Run { cell, pass, future }))
            }
            Some(_) => {
                let future = take_future(cell.board(), &mut pass);
                (owed, Err((ClosedRunnable { cell, pass }, Debt::of(future))))
            }
        }
    }

    /// One try of the take-up of an open task. It comes back where the task is closed, or somebody else stepped meanwhile.
    #[inline(always)]
    pub fn take_up_once(self) -> Result<Run<F, T, W>, Self>
        ensures made { IfOk result (λ run. ShowsSeat self.entry.cell.now.board.shared moves.take_up begins run.pass) }
        ensures same { MatchResult result (λ run. run.cell.now ≡ self.entry.cell.now) (λ back. back.cell.now ≡ self.entry.cell.now) }
    {
        let (cell, mut pass) = self.open();
        if runs::take_up_once(cell.board(), &mut pass) {
            let future = take_future(cell.board(), &mut pass);
            Ok(Run { cell, pass, future })
        } else {
            Err(Runnable::of(cell, pass))
        }
    }

    /// It is let go: the task is closed, and its future is to be dropped.
    #[inline(always)]
    pub fn let_go<R: Wait>(self, rt: &R) -> (Owed, ClosedRunnable<F, T, W>, Debt<F>)
        ensures made { ShowsSeat self.entry.cell.now.board.shared moves.drop_runnable result.0 result.1.pass }
    {
        let (cell, mut pass) = self.open();
        let owed = closing::drop_runnable(rt, cell.board(), &mut pass);
        let future = take_future(cell.board(), &mut pass);
        (owed, ClosedRunnable { cell, pass }, Debt::of(future))
    }
}

impl<F: 'static, T: 'static, W: 'static> ClosedRunnable<F, T, W> {
    /// The future was dropped.
    #[inline(always)]
    pub fn settle<R: Wait>(self, rt: &R) -> (Owed, Result<PastRun<F, T, W>, OwingRun<F, T, W>>)
        ensures made { MatchResult result.1
            (λ run. Shows self.cell.now.board.shared moves.settle_closed result.0 run.claim)
            (λ owing. Shows self.cell.now.board.shared moves.settle_closed result.0 owing.run.claim) }
        ensures calls { is_ok result.1 ≡ not (is_some result.0.awaiter) }
    {
        let ClosedRunnable { cell, mut pass } = self;
        let owed = runs::settle_closed(rt, cell.board(), &mut pass);
        (owed, PastRun::of(cell, pass).owing(owed))
    }
}

impl<F: 'static, T: 'static, W: 'static> ClosedRun<F, T, W> {
    /// The future was dropped.
    #[inline(always)]
    pub fn settle<R: Wait>(self, rt: &R) -> (Owed, Result<PastRun<F, T, W>, OwingRun<F, T, W>>)
        ensures made { MatchResult result.1
            (λ run. Shows self.cell.now.board.shared moves.end_closed result.0 run.claim)
            (λ owing. Shows self.cell.now.board.shared moves.end_closed result.0 owing.run.claim) }
        ensures calls { is_ok result.1 ≡ not (is_some result.0.awaiter) }
    {
        let ClosedRun { cell, mut pass } = self;
        let owed = runs::end_closed(rt, cell.board(), &mut pass);
        (owed, PastRun::of(cell, pass).owing(owed))
    }
}

impl<F: 'static, T: 'static, W: 'static> Run<F, T, W> {
    /// One try of the end of a poll without output, with the Runnable, where one is owed. The run comes back where the task is
    /// closed, nobody can reach it any more, or somebody else stepped meanwhile.
    #[inline(always)]
    pub fn pend_once(self) -> Result<(Owed, Result<Runnable<F, T, W>, Trace>), Self>
        ensures made { IfOk result (λ r. MatchResult r.1
            (λ q. Shows self.cell.now.board.shared moves.end_pending r.0 q.claim)
            (λ t. Shows self.cell.now.board.shared moves.end_pending r.0 t.claim)) }
        ensures paid { IfOk result (λ r. is_ok r.1 ≡ is_some r.0.schedule) }
        ensures back { IfErr result (λ back. (back.cell.now ≡ self.cell.now) × (back.future ≡ self.future)) }
    {
        let Run {
            cell,
            mut pass,
            future,
        } = self;
        put_future(cell.board(), &mut pass, future);
        match runs::end_pending_once(cell.board(), &mut pass) {
            Some(owed) => match owed.schedule {
                Some(_) => Ok((owed, Ok(Runnable::of(cell, pass)))),
                None => Ok((owed, Err(Trace::of(pass)))),
            },
            None => {
                let future = take_future(cell.board(), &mut pass);
                Err(Run { cell, pass, future })
            }
        }
    }

    /// The poll gave no output. The future goes back into the cell; or it is to be dropped, where the task was closed meanwhile,
    /// and where nobody can reach it any more.
    #[inline(always)]
    pub fn pend<R: Wait>(
        self,
        rt: &R,
    ) -> (
        Owed,
        Result<Left<F, T, W>, ClosedRun<F, T, W>>,
        Option<Debt<F>>,
    )
        ensures made { MatchResult result.1
            (λ left. MatchOption left.awaiter
            (MatchResult left.runnable
            (λ r. Shows self.cell.now.board.shared moves.end_pending result.0 r.claim)
            (λ t. Shows self.cell.now.board.shared moves.end_pending result.0 t.claim))
            (λ _. Owes moves.end_pending result.0))
            (λ closed. ShowsSeat self.cell.now.board.shared moves.end_pending result.0 closed.pass) }
        ensures ends { is_ok result.1 ≡ not (is_some result.0.next) }
        ensures paid { IfOk result.1 (λ left. is_ok left.runnable ≡ is_some result.0.schedule) }
        ensures alone { IfOk result.1 (λ left. IfSome left.awaiter (λ _. is_ok left.runnable ≡ false)) }
        ensures owes { Owes moves.end_pending result.0 }
        ensures same { IfSome result.2 (λ f. f ≡ self.future) }
        ensures future { is_some result.2 ≡ is_some result.0.future }
    {
        let Run {
            cell,
            mut pass,
            future,
        } = self;
        put_future(cell.board(), &mut pass, future);
        let Pause {
            owed,
            future,
            leaves_awaiter,
        } = runs::end_pending(rt, cell.board(), &mut pass);
        match future {
            Some(future) => {
                let left = take_left(cell, pass, owed.schedule, leaves_awaiter);
                (owed, Ok(left), Some(Debt::of(future)))
            }
            None => match owed.next {
                Some(_) => {
                    let future = take_future(cell.board(), &mut pass);
                    (owed, Err(ClosedRun { cell, pass }), Some(Debt::of(future)))
                }
                None => {
                    let left = take_left(cell, pass, owed.schedule, leaves_awaiter);
                    (owed, Ok(left), None)
                }
            },
        }
    }

    /// The poll gave an output. The future comes out, to be dropped; `store` follows.
    #[inline(always)]
    pub fn ready(self) -> (ReadyRun<F, T, W>, Debt<F>)
        ensures { (result.0.cell.now ≡ self.cell.now) × (result.0.pass ≡ self.pass) × (result.1 ≡ self.future) }
    {
        let Run { cell, pass, future } = self;
        (ReadyRun { cell, pass }, Debt::of(future))
    }
}

impl<F: 'static, T: 'static, W: 'static> ReadyRun<F, T, W> {
    /// The run with the future that its poll had, which gave no output.
    #[inline(always)]
    pub fn give_back(self, future: F) -> Run<F, T, W>
        ensures { (result.cell.now ≡ self.cell.now) × (result.pass ≡ self.pass) × (result.future ≡ future) }
    {
        let ReadyRun { cell, pass } = self;
        Run { cell, pass, future }
    }

    /// The future was dropped. The output is stored, or comes back to be dropped, where nobody wants it.
    #[inline(always)]
    pub fn store<R: Wait>(
        self,
        rt: &R,
        output: T,
    ) -> (
        Owed,
        Result<PastRun<F, T, W>, OwingRun<F, T, W>>,
        Option<Debt<T>>,
    )
        ensures made { MatchResult result.1
            (λ run. Shows self.cell.now.board.shared moves.end_ready result.0 run.claim)
            (λ owing. Shows self.cell.now.board.shared moves.end_ready result.0 owing.run.claim) }
        ensures calls { is_ok result.1 ≡ not (is_some result.0.awaiter) }
        ensures output { is_some result.2 ≡ result.0.drop_output }
    {
        let ReadyRun { cell, mut pass } = self;
        let (owed, back) = runs::end_ready(rt, cell.board(), &mut pass, output);
        (
            owed,
            PastRun::of(cell, pass).owing(owed),
            Debt::of_some(back),
        )
    }
}
