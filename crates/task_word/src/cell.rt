//! A cell, whose table is made once and serves one task after another.
ghost use Rattle.std.specs.Prelude.{◌≡◌};
ghost use Rattle.task_word.specs.Steps.{Has, IsSeatOf};
ghost use Rattle.task_word.specs.Tokens.{FindsState};
ghost use Rattle.task_word.specs.declared.rule.Hold.TheVariants.{Nothing};

use crate::layout::{EMPTY, decode};
use crate::rule::{Arrive, CellRule, Slot, View};
use crate::steps::{Board, Pass, look};
use crate::tokens::Trace;
use atomic_table::Table;
use std::alloc::{AllocError, Global};
use std::boxed::Box;
use task_moves::moves::State;

/// The place of a task: its words, a slot of its future or output, and one of its awaiter.
#[derive(Drop)]
pub struct Cell<F, T, W> {
    pub board: Table<Slot<F, T, W>, View, (), CellRule, Global>,
    ghost sized: { (board.shared.table_id.words ≡ 3) × (board.shared.table_id.slots ≡ 2) },
}

impl<F, T, W> Cell<F, T, W> {
    /// Makes a cell with no task.
    pub fn new(alloc: Global) -> Result<Self, AllocError> {
        match Table::vacant(alloc, &[EMPTY, 0, 0], 2, &()) {
            Ok((board, _)) => Ok(Cell { board }),
            Err(_) => Err(AllocError),
        }
    }

    /// Makes a cell with no task for as long as the program runs: whatever has something of its task has a reference to it.
    pub fn leak<'r>(alloc: Global) -> Result<&'r Self, AllocError>
    where
        F: Drop + 'r,
        T: Drop + 'r,
        W: Drop + 'r,
    {
        let Ok(cell) = Box::new(alloc, Cell::new(alloc)?) else {
            return Err(AllocError);
        };
        Ok(Box::leak(cell))
    }

    /// The board that steps are lent.
    #[inline(always)]
    pub fn board(&self) -> &Board<F, T, W>
        ensures { result.now ≡ self.now.board.shared }
    {
        &self.board.shared
    }

    /// Makes a seat with nothing.
    #[inline(always)]
    pub fn pass(&self) -> Pass<F, T, W>
        ensures { IsSeatOf self.now.board.shared result × Has Nothing result }
    {
        self.board.shared.load_new_seat::<Arrive>(0).1
    }

    /// The state at this moment. It takes one load.
    #[inline(always)]
    pub fn look(&self) -> (State, Trace)
        ensures { FindsState self.now.board.shared result.0 result.1.claim }
    {
        let mut pass = self.pass();
        let state = decode(look(self.board(), &mut pass)).state;
        (state, Trace::of(pass))
    }
}
