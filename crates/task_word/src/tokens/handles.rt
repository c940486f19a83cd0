//! What is done with a task's handle beside its polls: make, park, unpark, cancel, detach,
//! `is_finished`.
ghost use Rattle.std.specs.Prelude.{◌≡◌, false, is_some, is_ok, not, IfOk, IfErr, IfSome, IsFalse, IsNone, MatchOption, MatchResult};
ghost use Rattle.task_moves.specs.Moves as moves;
ghost use Rattle.task_moves.specs.Moves.{is_over};
ghost use Rattle.task_word.specs.Awaiter.{needs_slot};
ghost use Rattle.task_word.specs.Handles.{IsHandleOf};
ghost use Rattle.task_word.specs.Tokens.{Shows, Owes, Finds, FindsTask, FindsNotParked, Notifies};

use crate::cell::Cell;
use crate::layout::decode;
use crate::slot::{put_future, take_awaiter, take_output};
use crate::steps::{awaiter, closing, handle, look, making, needs_slot, parked};
use crate::tokens::{Debt, Left, Runnable, Task, Trace, take_left};
use std::sync::Wait;
use task_moves::moves::Owed;

/// A handle that has to call the awaiter before anything else.
pub struct OwingTask<F: 'static, T: 'static, W: 'static> {
    task: Task<F, T, W>,
}

/// A handle that goes, once the output that lay in the cell is dropped.
pub struct DetachingTask<F: 'static, T: 'static, W: 'static> {
    task: Task<F, T, W>,
}

/// The output that lay in the cell. It is to be dropped, and then the handle goes.
pub struct Found<F: 'static, T: 'static, W: 'static> {
    pub task: DetachingTask<F, T, W>,
    pub output: Debt<T>,
}

impl<F: 'static, T: 'static, W: 'static> Cell<F, T, W> {
    /// A new task, with its Runnable. The future comes back exactly where the cell isn't empty.
    #[inline(always)]
    pub fn make<R: Wait>(
        &'static self,
        rt: &R,
        future: F,
    ) -> Result<(Runnable<F, T, W>, Task<F, T, W>), (F, Trace)>
        ensures { IfErr result (λ back. (back.0 ≡ future) × FindsTask self.now.board.shared back.1.claim) }
    {
        let mut pass = self.pass();
        if making::reserve(rt, self.board(), &mut pass) {
            put_future(self.board(), &mut pass, future);
            let handle = making::make(self.board(), &mut pass);
            Ok((Runnable::of(self, pass), Task::of(self, handle)))
        } else {
            Err((future, Trace::of(pass)))
        }
    }

    /// Takes the handle that was stored, where it rests in the cell.
    #[inline(always)]
    pub fn unpark<R: Wait>(&'static self, rt: &R) -> Result<Task<F, T, W>, Trace>
        ensures { IfErr result (λ t. FindsNotParked self.now.board.shared t.claim) }
    {
        let mut pass = self.pass();
        if parked::unpark(rt, self.board(), &mut pass) {
            Ok(Task::of(self, pass))
        } else {
            Err(Trace::of(pass))
        }
    }
}

impl<F: 'static, T: 'static, W: 'static> Task<F, T, W> {
    /// The awaiter has to be called before anything else, where the step says so.
    #[inline(always)]
    pub(crate) fn owing(self, owed: Owed) -> Result<Self, OwingTask<F, T, W>>
        ensures { (is_ok result ≡ not (is_some owed.awaiter)) × MatchResult result (λ t. t ≡ self.entry) (λ t. t.task ≡ self.entry) }
    {
        match owed.awaiter {
            Some(_) => Err(OwingTask { task: self }),
            None => Ok(self),
        }
    }

    /// The handle rests in the cell, as the cell's number stands in a list. It takes one add, and the same seat has nothing then.
    #[inline(always)]
    pub fn park(self) -> Trace
        ensures { (result.claim.badge.table_id ≡ self.entry.claim.badge.table_id) × (result.claim.badge.id ≡ self.entry.claim.badge.id) }
    {
        let (cell, mut pass) = self.open();
        parked::park(cell.board(), &mut pass);
        Trace::of(pass)
    }

    /// Whether the task is over. It takes one load.
    #[inline(always)]
    pub fn is_finished(&self) -> (bool, Trace)
        ensures { Finds self.now.cell.now.board.shared is_over result.0 result.1.claim }
    {
        let mut pass = self.cell.pass();
        let state = decode(look(self.cell.board(), &mut pass)).state;
        (state.completed || state.closed, Trace::of(pass))
    }

    /// The task is cancelled. A Runnable is there where one has to be scheduled.
    #[inline(always)]
    pub fn cancel<R: Wait>(
        self,
        rt: &R,
    ) -> (
        Owed,
        Result<Runnable<F, T, W>, Trace>,
        Result<Self, OwingTask<F, T, W>>,
    )
        ensures made { MatchResult result.1
            (λ r. Shows self.entry.cell.now.board.shared moves.cancel result.0 r.claim)
            (λ t. Shows self.entry.cell.now.board.shared moves.cancel result.0 t.claim) }
        ensures paid { is_ok result.1 ≡ is_some result.0.schedule }
        ensures owes { Owes moves.cancel result.0 }
        ensures calls { is_ok result.2 ≡ not (is_some result.0.awaiter) }
        ensures same { IsHandleOf self.entry.cell.now result.2 }
    {
        let mut pass = self.cell.pass();
        let owed = closing::cancel(rt, self.cell.board(), &mut pass);
        let runnable = match owed.schedule {
            Some(_) => Ok(Runnable::of(self.cell, pass)),
            None => Err(Trace::of(pass)),
        };
        (owed, runnable, self.owing(owed))
    }

    /// It goes, once the output is dropped that lies in the cell.
    #[inline(always)]
    pub fn detach<R: Wait>(self, rt: &R) -> (Owed, Result<Left<F, T, W>, Found<F, T, W>>)
        ensures made { MatchResult result.1
            (λ left. MatchOption left.awaiter
            (MatchResult left.runnable
            (λ r. Shows self.entry.cell.now.board.shared moves.detach result.0 r.claim)
            (λ t. Shows self.entry.cell.now.board.shared moves.detach result.0 t.claim))
            (λ _. Owes moves.detach result.0))
            (λ _. Owes moves.detach result.0) }
        ensures gone { is_ok result.1 ≡ not result.0.drop_output }
        ensures paid { IfOk result.1 (λ left. is_ok left.runnable ≡ is_some result.0.schedule) }
        ensures alone { IfOk result.1 (λ left. IfSome left.awaiter (λ _. is_ok left.runnable ≡ false)) }
        ensures owes { Owes moves.detach result.0 }
    {
        let (cell, mut pass) = self.open();
        let (owed, is_left) = handle::detach(rt, cell.board(), &mut pass);
        if owed.drop_output {
            let output = Debt::of(take_output(cell.board(), &mut pass));
            handle::spend(cell.board(), &mut pass);
            let task = DetachingTask {
                task: Task::of(cell, pass),
            };
            (owed, Err(Found { task, output }))
        } else {
            (owed, Ok(take_left(cell, pass, owed.schedule, is_left)))
        }
    }
}

impl<F: 'static, T: 'static, W: 'static> DetachingTask<F, T, W> {
    /// The output was dropped.
    #[inline(always)]
    pub fn detach<R: Wait>(self, rt: &R) -> (Owed, Result<Left<F, T, W>, Found<F, T, W>>)
        ensures made { MatchResult result.1
            (λ left. MatchOption left.awaiter
            (MatchResult left.runnable
            (λ r. Shows self.entry.task.cell.now.board.shared moves.detach result.0 r.claim)
            (λ t. Shows self.entry.task.cell.now.board.shared moves.detach result.0 t.claim))
            (λ _. Owes moves.detach result.0))
            (λ _. Owes moves.detach result.0) }
        ensures gone { is_ok result.1 ≡ not result.0.drop_output }
        ensures paid { IfOk result.1 (λ left. is_ok left.runnable ≡ is_some result.0.schedule) }
        ensures alone { IfOk result.1 (λ left. IfSome left.awaiter (λ _. is_ok left.runnable ≡ false)) }
        ensures owes { Owes moves.detach result.0 }
    {
        let DetachingTask { task } = self;
        task.detach(rt)
    }
}

impl<F: 'static, T: 'static, W: 'static> OwingTask<F, T, W> {
    /// The awaiter comes out, to be called, unless somebody else is at it, who will call it.
    #[inline(always)]
    pub fn notify<R: Wait>(self, rt: &R) -> (Owed, Task<F, T, W>, Option<Debt<W>>)
        ensures made { Notifies self.entry.task.cell.now.board.shared result.0 result.1.claim }
        ensures other { IsFalse (needs_slot result.0.awaiter) → IsNone result.2 }
        ensures same { result.1.cell.now ≡ self.entry.task.cell.now }
    {
        let OwingTask { task } = self;
        let (cell, mut pass) = task.open();
        let owed = awaiter::notify(rt, cell.board(), &mut pass);
        if needs_slot(owed) {
            let taken = take_awaiter(cell.board(), &mut pass);
            awaiter::end_notify(rt, cell.board(), &mut pass);
            (owed, Task::of(cell, pass), Debt::of_some(taken))
        } else {
            (owed, Task::of(cell, pass), None)
        }
    }
}
