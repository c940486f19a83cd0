//! What is done with a waker that is a reference: copy, redeem, store, release.
ghost use Rattle.std.specs.Prelude.{◌≡◌, false, is_some, is_ok, not, IfSome, IfOk, IfErr, MatchOption, MatchResult};
ghost use Rattle.task_moves.specs.Moves as moves;
ghost use Rattle.task_word.specs.Steps as steps;
ghost use Rattle.task_word.specs.Tokens.{Shows, Owes, FindsNoneStored};

use crate::cell::Cell;
use crate::steps::{stored, wakers};
use crate::tokens::{Left, Trace, Waker, take_left};
use std::sync::Wait;
use task_moves::moves::Owed;

impl<F: 'static, T: 'static, W: 'static> Cell<F, T, W> {
    /// One reference more, unless it is refused: where there are too many, or nobody has the task.
    #[inline(always)]
    pub fn copy<R: Wait>(&'static self, rt: &R) -> (Owed, Result<Waker<F, T, W>, Trace>)
        ensures made { MatchResult result.1
            (λ w. Shows self.now.board.shared steps.copy result.0 w.claim)
            (λ t. Shows self.now.board.shared steps.copy result.0 t.claim) }
        ensures paid { is_ok result.1 ≡ not (is_some result.0.answer) }
    {
        let mut pass = self.pass();
        let owed = wakers::copy(rt, self.board(), &mut pass);
        match owed.answer {
            Some(_) => (owed, Err(Trace::of(pass))),
            None => (owed, Ok(Waker::of(self, pass))),
        }
    }

    /// One try of a copy. None where somebody else stepped meanwhile: nothing has changed then.
    #[inline(always)]
    pub fn copy_once(&'static self) -> Option<(Owed, Result<Waker<F, T, W>, Trace>)>
        ensures made { IfSome result (λ r. MatchResult r.1
            (λ w. Shows self.now.board.shared steps.copy r.0 w.claim)
            (λ t. Shows self.now.board.shared steps.copy r.0 t.claim)) }
        ensures paid { IfSome result (λ r. is_ok r.1 ≡ not (is_some r.0.answer)) }
    {
        let mut pass = self.pass();
        match wakers::copy_once(self.board(), &mut pass) {
            Some(owed) => match owed.answer {
                Some(_) => Some((owed, Err(Trace::of(pass)))),
                None => Some((owed, Ok(Waker::of(self, pass)))),
            },
            None => {
                drop(Trace::of(pass));
                None
            }
        }
    }

    /// Takes the reference of a waker that was stored, where one rests in the cell.
    #[inline(always)]
    pub fn redeem<R: Wait>(&'static self, rt: &R) -> Result<Waker<F, T, W>, Trace>
        ensures { IfErr result (λ t. FindsNoneStored self.now.board.shared t.claim) }
    {
        let mut pass = self.pass();
        if stored::redeem(rt, self.board(), &mut pass) {
            Ok(Waker::of(self, pass))
        } else {
            Err(Trace::of(pass))
        }
    }
}

impl<F: 'static, T: 'static, W: 'static> Waker<F, T, W> {
    /// Its reference rests in the cell, as the cell's number stands in a list. It takes one add, and the same seat has nothing then.
    #[inline(always)]
    pub fn store(self) -> Trace
        ensures { (result.claim.badge.table_id ≡ self.entry.claim.badge.table_id) × (result.claim.badge.id ≡ self.entry.claim.badge.id) }
    {
        let (cell, mut pass) = self.open();
        stored::store(cell.board(), &mut pass);
        Trace::of(pass)
    }

    /// One try of its release. It comes back where it is the last of a task without handle, or somebody else stepped meanwhile.
    #[inline(always)]
    pub fn release_once(self) -> Result<Trace, Self>
        ensures made { IfOk result (λ t. Shows self.entry.cell.now.board.shared moves.release moves.nothing t.claim) }
        ensures back { IfErr result (λ back. back.cell.now ≡ self.entry.cell.now) }
    {
        let (cell, mut pass) = self.open();
        if wakers::release_once(cell.board(), &mut pass) {
            Ok(Trace::of(pass))
        } else {
            Err(Waker::of(cell, pass))
        }
    }

    /// It goes. Where it was the last of an open task, a Runnable has to be scheduled, and is there.
    #[inline(always)]
    pub fn release<R: Wait>(self, rt: &R) -> (Owed, Left<F, T, W>)
        ensures made { MatchOption result.1.awaiter
            (MatchResult result.1.runnable
            (λ r. Shows self.entry.cell.now.board.shared moves.release result.0 r.claim)
            (λ t. Shows self.entry.cell.now.board.shared moves.release result.0 t.claim))
            (λ _. Owes moves.release result.0) }
        ensures paid { is_ok result.1.runnable ≡ is_some result.0.schedule }
        ensures alone { IfSome result.1.awaiter (λ _. is_ok result.1.runnable ≡ false) }
        ensures owes { Owes moves.release result.0 }
    {
        let (cell, mut pass) = self.open();
        let (owed, is_left) = wakers::release(rt, cell.board(), &mut pass);
        (owed, take_left(cell, pass, owed.schedule, is_left))
    }
}
