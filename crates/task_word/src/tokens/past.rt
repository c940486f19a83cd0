//! What is left of a run or of a closing call: its reference, and before that, maybe, a call of the awaiter.
ghost use Rattle.std.specs.Prelude.{◌≡◌, [], ◌∷◌, false, is_some, is_ok, not, IfSome, IsFalse, IsNone, MatchOption, MatchResult};
ghost use Rattle.task_moves.specs.Moves as moves;
ghost use Rattle.task_word.specs.Awaiter.{needs_slot};
ghost use Rattle.task_word.specs.Badges.{holds};
ghost use Rattle.task_word.specs.Steps.{Has, IsSeatOf};
ghost use Rattle.task_word.specs.Tokens.{IsClaimOf, Shows, Owes, Notifies};
ghost use Rattle.task_word.specs.declared.rule.Hold.TheVariants.{Leaving};

use crate::cell::Cell;
use crate::slot::take_awaiter;
use crate::steps::{Pass, awaiter, needs_slot, wakers};
use crate::tokens::claim::Claim;
use crate::tokens::{Debt, Left, take_left};
use std::sync::Wait;
use task_moves::moves::Owed;

/// A run that is over, or a call that dropped a closed task's future: its reference, to be given up.
pub struct PastRun<F: 'static, T: 'static, W: 'static> {
    cell: &'static Cell<F, T, W>,
    claim: Claim,
    ghost of: { claim.badge.table_id ≡ cell.now.board.shared.table_id },
    ghost past: { holds claim.badge.views ≡ Leaving ∷ [] },
}

/// The same, which has to call the awaiter before.
pub struct OwingRun<F: 'static, T: 'static, W: 'static> {
    run: PastRun<F, T, W>,
}

impl<F: 'static, T: 'static, W: 'static> PastRun<F, T, W> {
    #[inline(always)]
    pub(crate) fn of(cell: &'static Cell<F, T, W>, pass: Pass<F, T, W>) -> Self
        requires seat { IsSeatOf cell.now.board.shared pass }
        requires has { Has Leaving pass }
        ensures { IsClaimOf pass result.claim }
    {
        PastRun {
            cell,
            claim: Claim::of(pass.into_badge()),
        }
    }

    #[inline(always)]
    pub(crate) fn open(self) -> (&'static Cell<F, T, W>, Pass<F, T, W>)
        ensures { (result.0.now ≡ self.entry.cell.now) × IsSeatOf result.0.now.board.shared result.1 × Has Leaving result.1 }
    {
        let PastRun { cell, claim } = self;
        (cell, claim.into_seat())
    }

    /// The awaiter has to be called before, where the step says so.
    #[inline(always)]
    pub(crate) fn owing(self, owed: Owed) -> Result<Self, OwingRun<F, T, W>>
        ensures { (is_ok result ≡ not (is_some owed.awaiter)) × MatchResult result (λ r. r ≡ self.entry) (λ r. r.run ≡ self.entry) }
    {
        match owed.awaiter {
            Some(_) => Err(OwingRun { run: self }),
            None => Ok(self),
        }
    }

    /// It gives its reference up.
    #[inline(always)]
    pub fn give_up<R: Wait>(self, rt: &R) -> (Owed, Left<F, T, W>)
        ensures made { MatchOption result.1.awaiter
            (MatchResult result.1.runnable
            (λ r. Shows self.entry.cell.now.board.shared moves.give_up result.0 r.claim)
            (λ t. Shows self.entry.cell.now.board.shared moves.give_up result.0 t.claim))
            (λ _. Owes moves.give_up result.0) }
        ensures paid { is_ok result.1.runnable ≡ is_some result.0.schedule }
        ensures alone { IfSome result.1.awaiter (λ _. is_ok result.1.runnable ≡ false) }
        ensures owes { Owes moves.give_up result.0 }
    {
        let (cell, mut pass) = self.open();
        let (owed, is_left) = wakers::give_up(rt, cell.board(), &mut pass);
        (owed, take_left(cell, pass, owed.schedule, is_left))
    }
}

impl<F: 'static, T: 'static, W: 'static> OwingRun<F, T, W> {
    /// The awaiter comes out, to be called, unless somebody else is at it, who will call it.
    #[inline(always)]
    pub fn notify<R: Wait>(self, rt: &R) -> (Owed, PastRun<F, T, W>, Option<Debt<W>>)
        ensures made { Notifies self.entry.run.cell.now.board.shared result.0 result.1.claim }
        ensures other { IsFalse (needs_slot result.0.awaiter) → IsNone result.2 }
    {
        let OwingRun { run } = self;
        let (cell, mut pass) = run.open();
        let owed = awaiter::notify(rt, cell.board(), &mut pass);
        if needs_slot(owed) {
            let taken = take_awaiter(cell.board(), &mut pass);
            awaiter::end_notify(rt, cell.board(), &mut pass);
            (owed, PastRun::of(cell, pass), Debt::of_some(taken))
        } else {
            (owed, PastRun::of(cell, pass), None)
        }
    }
}
