//! Where a handle lies between its calls, which leave it behind a reference.
ghost use Rattle.std.specs.Prelude.{◌≡◌, true, false};
ghost use Rattle.task_word.specs.Tokens.{IsThere};

use crate::cell::Cell;
use crate::tokens::claim::Claim;
use crate::tokens::{Given, Task};
use std::mem::replace;

/// A handle in its place, or that place while the handle is taking a step. It takes no atomic step to take the handle out, or to
/// put it back.
pub struct TaskPlace<F: 'static, T: 'static, W: 'static> {
    cell: &'static Cell<F, T, W>,
    claim: Claim,
    /// Whether the output was given from here.
    given: bool,
}

impl<F: 'static, T: 'static, W: 'static> TaskPlace<F, T, W> {
    /// A place with this handle.
    #[inline(always)]
    pub fn of(task: Task<F, T, W>) -> Self
        ensures there { IsThere result.cell.now.board.shared result.claim }
        ensures cell { result.cell.now ≡ task.entry.cell.now }
        ensures claim { result.claim ≡ task.entry.claim }
        ensures given { result.given ≡ false }
    {
        let Task { cell, claim } = task;
        TaskPlace {
            cell,
            claim,
            given: false,
        }
    }

    /// The handle, which is to be put back.
    #[inline(always)]
    pub fn take(&mut self) -> Task<F, T, W>
        requires { IsThere self.old.cell.now.board.shared self.old.claim }
        ensures cell { result.cell.now ≡ self.old.cell.now }
        ensures claim { result.claim ≡ self.old.claim }
        ensures stays { self.new.cell.now ≡ self.old.cell.now }
        ensures given { self.new.given ≡ self.old.given }
    {
        let claim = replace(&mut self.claim, Claim::blank());
        Task {
            cell: self.cell,
            claim,
        }
    }

    /// The handle is there again.
    #[inline(always)]
    pub fn put(&mut self, task: Task<F, T, W>)
        ensures there { IsThere self.new.cell.now.board.shared self.new.claim }
        ensures cell { self.new.cell.now ≡ task.entry.cell.now }
        ensures claim { self.new.claim ≡ task.entry.claim }
        ensures given { self.new.given ≡ self.old.given }
    {
        let Task { cell, claim } = task;
        self.cell = cell;
        self.claim = claim;
    }

    /// The output is given, and the place notes that.
    #[inline(always)]
    pub fn give(&mut self, output: Given<T>) -> T
        ensures output { result ≡ output }
        ensures given { self.new.given ≡ true }
        ensures cell { self.new.cell.now ≡ self.old.cell.now }
        ensures claim { self.new.claim ≡ self.old.claim }
    {
        self.given = true;
        output.open()
    }

    /// The handle. Its place goes.
    #[inline(always)]
    pub fn open(self) -> Task<F, T, W>
        requires { IsThere self.cell.now.board.shared self.claim }
        ensures cell { result.cell.now ≡ self.entry.cell.now }
        ensures claim { result.claim ≡ self.entry.claim }
    {
        let TaskPlace {
            cell,
            claim,
            given: _,
        } = self;
        Task { cell, claim }
    }
}
