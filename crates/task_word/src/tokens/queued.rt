//! What is done with a Runnable, and with a cell whose word one rests in: wake, resume, rest.
ghost use Rattle.std.specs.Prelude.{◌≡◌, is_some, is_ok, IfErr, IfSome, MatchResult};
ghost use Rattle.task_moves.specs.Moves as moves;
ghost use Rattle.task_word.specs.Tokens.{Shows, Owes, FindsNoRunnable};

use crate::cell::Cell;
use crate::steps::{making, wakers};
use crate::tokens::{Runnable, Trace};
use std::sync::Wait;
use task_moves::moves::Owed;

impl<F: 'static, T: 'static, W: 'static> Cell<F, T, W> {
    /// A wake by reference, of whoever is lent a waker of this cell's task. A Runnable is there where one has to be scheduled.
    #[inline(always)]
    pub fn wake<R: Wait>(&'static self, rt: &R) -> (Owed, Result<Runnable<F, T, W>, Trace>)
        ensures made { MatchResult result.1
            (λ r. Shows self.now.board.shared moves.wake_by_reference result.0 r.claim)
            (λ t. Shows self.now.board.shared moves.wake_by_reference result.0 t.claim) }
        ensures paid { is_ok result.1 ≡ is_some result.0.schedule }
        ensures owes { Owes moves.wake_by_reference result.0 }
    {
        let mut pass = self.pass();
        let owed = wakers::wake(rt, self.board(), &mut pass);
        match owed.schedule {
            Some(_) => (owed, Ok(Runnable::of(self, pass))),
            None => (owed, Err(Trace::of(pass))),
        }
    }

    /// One try of a wake. None where somebody else stepped meanwhile: nothing has changed then.
    #[inline(always)]
    pub fn wake_once(&'static self) -> Option<(Owed, Result<Runnable<F, T, W>, Trace>)>
        ensures made { IfSome result (λ r. MatchResult r.1
            (λ q. Shows self.now.board.shared moves.wake_by_reference r.0 q.claim)
            (λ t. Shows self.now.board.shared moves.wake_by_reference r.0 t.claim)) }
        ensures paid { IfSome result (λ r. is_ok r.1 ≡ is_some r.0.schedule) }
        ensures owes { IfSome result (λ r. Owes moves.wake_by_reference r.0) }
    {
        let mut pass = self.pass();
        match wakers::wake_once(self.board(), &mut pass) {
            Some(owed) => match owed.schedule {
                Some(_) => Some((owed, Ok(Runnable::of(self, pass)))),
                None => Some((owed, Err(Trace::of(pass)))),
            },
            None => {
                drop(Trace::of(pass));
                None
            }
        }
    }

    /// One try of a resume. None where no Runnable rests in the word, or somebody else stepped meanwhile.
    #[inline(always)]
    pub fn resume_once(&'static self) -> Option<Runnable<F, T, W>> {
        let mut pass = self.pass();
        if making::resume_once(self.board(), &mut pass) {
            Some(Runnable::of(self, pass))
        } else {
            drop(Trace::of(pass));
            None
        }
    }

    /// Takes the Runnable that rests in the word, where one does.
    #[inline(always)]
    pub fn resume<R: Wait>(&'static self, rt: &R) -> Result<Runnable<F, T, W>, Trace>
        ensures { IfErr result (λ t. FindsNoRunnable self.now.board.shared t.claim) }
    {
        let mut pass = self.pass();
        if making::resume(rt, self.board(), &mut pass) {
            Ok(Runnable::of(self, pass))
        } else {
            Err(Trace::of(pass))
        }
    }
}

impl<F: 'static, T: 'static, W: 'static> Runnable<F, T, W> {
    /// It rests in the word, as the cell's number stands in a queue. The same seat has nothing then.
    #[inline(always)]
    pub fn rest(self) -> Trace
        ensures { (result.claim.badge.table_id ≡ self.entry.claim.badge.table_id) × (result.claim.badge.id ≡ self.entry.claim.badge.id) }
    {
        let (cell, mut pass) = self.open();
        making::rest(cell.board(), &mut pass);
        Trace::of(pass)
    }
}
