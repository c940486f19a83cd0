//! What a thread has of a task, as values that can't be dropped. A Runnable is made of the right to the future alone, a waker of
//! one reference, a task of its handle. Each names its cell, and shows by its view the step that it came of.
ghost use Rattle.std.specs.Prelude.{◌≡◌, [], ◌∷◌, false, is_some, is_ok, IfSome, MatchOption, MatchResult, ⊤};
ghost use Rattle.task_word.specs.Badges.{holds};
ghost use Rattle.task_word.specs.Steps.{Has, HasLeft, IsSeatOf};
ghost use Rattle.task_word.specs.Tokens.{IsClaimOf};
ghost use Rattle.task_word.specs.declared.rule.Hold.TheVariants.{Nothing, Reference, Handle, Queued};

mod claim;
mod debt;
mod given;
mod handles;
mod past;
mod place;
mod polls;
mod queued;
mod references;
mod runs;

use crate::cell::Cell;
use crate::slot::take_awaiter;
use crate::steps::{Pass, awaiter};
use crate::tokens::claim::Claim;
pub use debt::Debt;
pub use given::Given;
pub use handles::{DetachingTask, Found, OwingTask};
pub use past::{OwingRun, PastRun};
pub use place::TaskPlace;
pub use polls::{Polled, Registered, RegisteredTask, WaitingTask};
pub use runs::{ClosedRun, ClosedRunnable, ReadyRun, Run};
use task_moves::ScheduleInfo;

/// A Runnable, to be put to rest, run, or let go.
pub struct Runnable<F: 'static, T: 'static, W: 'static> {
    cell: &'static Cell<F, T, W>,
    claim: Claim,
    ghost of: { claim.badge.table_id ≡ cell.now.board.shared.table_id },
    ghost right: { holds claim.badge.views ≡ Queued ∷ [] },
}

impl<F: 'static, T: 'static, W: 'static> Runnable<F, T, W> {
    #[inline(always)]
    pub(crate) fn of(cell: &'static Cell<F, T, W>, pass: Pass<F, T, W>) -> Self
        requires seat { IsSeatOf cell.now.board.shared pass }
        requires has { Has Queued pass }
        ensures { IsClaimOf pass result.claim × (result.cell.now ≡ cell.now) }
    {
        Runnable {
            cell,
            claim: Claim::of(pass.into_badge()),
        }
    }

    #[inline(always)]
    pub(crate) fn open(self) -> (&'static Cell<F, T, W>, Pass<F, T, W>)
        ensures { (result.1.table_id ≡ self.entry.claim.badge.table_id) × (result.1.id ≡ self.entry.claim.badge.id)
            × (result.0.now ≡ self.entry.cell.now) × IsSeatOf result.0.now.board.shared result.1 × Has Queued result.1 }
    {
        let Runnable { cell, claim } = self;
        (cell, claim.into_seat())
    }
}

/// A waker: one reference, to be released.
pub struct Waker<F: 'static, T: 'static, W: 'static> {
    cell: &'static Cell<F, T, W>,
    claim: Claim,
    ghost of: { claim.badge.table_id ≡ cell.now.board.shared.table_id },
    ghost one: { holds claim.badge.views ≡ Reference ∷ [] },
}

impl<F: 'static, T: 'static, W: 'static> Waker<F, T, W> {
    #[inline(always)]
    pub(crate) fn of(cell: &'static Cell<F, T, W>, pass: Pass<F, T, W>) -> Self
        requires seat { IsSeatOf cell.now.board.shared pass }
        requires has { Has Reference pass }
        ensures { IsClaimOf pass result.claim × (result.cell.now ≡ cell.now) }
    {
        Waker {
            cell,
            claim: Claim::of(pass.into_badge()),
        }
    }

    #[inline(always)]
    pub(crate) fn open(self) -> (&'static Cell<F, T, W>, Pass<F, T, W>)
        ensures { (result.1.table_id ≡ self.entry.claim.badge.table_id) × (result.1.id ≡ self.entry.claim.badge.id)
            × (result.0.now ≡ self.entry.cell.now) × IsSeatOf result.0.now.board.shared result.1 × Has Reference result.1 }
    {
        let Waker { cell, claim } = self;
        (cell, claim.into_seat())
    }
}

/// The handle of a task, to be detached.
pub struct Task<F: 'static, T: 'static, W: 'static> {
    cell: &'static Cell<F, T, W>,
    claim: Claim,
    ghost of: { claim.badge.table_id ≡ cell.now.board.shared.table_id },
    ghost handle: { holds claim.badge.views ≡ Handle ∷ [] },
}

impl<F: 'static, T: 'static, W: 'static> Task<F, T, W> {
    #[inline(always)]
    pub(crate) fn of(cell: &'static Cell<F, T, W>, pass: Pass<F, T, W>) -> Self
        requires seat { IsSeatOf cell.now.board.shared pass }
        requires has { Has Handle pass }
        ensures { IsClaimOf pass result.claim × (result.cell.now ≡ cell.now) }
    {
        Task {
            cell,
            claim: Claim::of(pass.into_badge()),
        }
    }

    #[inline(always)]
    pub(crate) fn open(self) -> (&'static Cell<F, T, W>, Pass<F, T, W>)
        ensures { (result.1.table_id ≡ self.entry.claim.badge.table_id) × (result.1.id ≡ self.entry.claim.badge.id)
            × (result.0.now ≡ self.entry.cell.now) × IsSeatOf result.0.now.board.shared result.1 × Has Handle result.1 }
    {
        let Task { cell, claim } = self;
        (cell, claim.into_seat())
    }
}

/// A step whose seat has nothing of the task: what it found and what it left.
#[derive(Drop)]
pub struct Trace {
    claim: Claim,
    ghost nothing: { holds claim.badge.views ≡ Nothing ∷ [] },
}

impl Trace {
    #[inline(always)]
    pub(crate) fn of<F, T, W>(pass: Pass<F, T, W>) -> Self
        requires has { Has Nothing pass }
        ensures { IsClaimOf pass result.claim }
    {
        Trace {
            claim: Claim::of(pass.into_badge()),
        }
    }
}

/// What is left where a reference or the handle went: a Runnable, where one has to be scheduled, or the awaiter that nobody can
/// reach any more. The cell may be taken for another task then.
pub struct Left<F: 'static, T: 'static, W: 'static> {
    pub runnable: Result<Runnable<F, T, W>, Trace>,
    pub awaiter: Option<Debt<W>>,
}

#[inline(always)]
pub(crate) fn take_left<F: 'static, T: 'static, W: 'static>(
    cell: &'static Cell<F, T, W>,
    mut pass: Pass<F, T, W>,
    schedule: Option<ScheduleInfo>,
    is_left: bool,
) -> Left<F, T, W>
    requires seat { IsSeatOf cell.now.board.shared pass }
    requires has { HasLeft schedule is_left pass }
    ensures paid { is_ok result.runnable ≡ is_some schedule }
    ensures alone { IfSome result.awaiter (λ _. is_ok result.runnable ≡ false) }
    ensures shows { MatchOption result.awaiter
        (MatchResult result.runnable (λ r. IsClaimOf pass r.claim) (λ t. IsClaimOf pass t.claim))
        (λ _. ⊤) }
{
    match schedule {
        Some(_) => Left {
            runnable: Ok(Runnable::of(cell, pass)),
            awaiter: None,
        },
        None if is_left => {
            let awaiter = take_awaiter(cell.board(), &mut pass);
            awaiter::empty(cell.board(), &mut pass);
            Left {
                runnable: Err(Trace::of(pass)),
                awaiter: Debt::of_some(awaiter),
            }
        }
        None => Left {
            runnable: Err(Trace::of(pass)),
            awaiter: None,
        },
    }
}
