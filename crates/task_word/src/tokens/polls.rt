//! A poll of the handle: a look, and where that answers nothing, a waker to register and another look.
ghost use Rattle.std.specs.Prelude.{◌≡◌, is_some, is_ok, not, IfOk, MatchBool, MatchOption, MatchResult, ⊤};
ghost use Rattle.task_moves.specs.Moves as moves;
ghost use Rattle.task_word.specs.Awaiter.{needs_slot};
ghost use Rattle.task_word.specs.Given.{is_given};
ghost use Rattle.task_word.specs.Handles.{IsHandleOf};
ghost use Rattle.task_word.specs.Steps.{HasOutput, IsSeatOf};
ghost use Rattle.task_word.specs.Tokens.{IsClaimOf, Shows, Owes, Registers};

use crate::cell::Cell;
use crate::slot::{take_awaiter, take_output};
use crate::steps::{Pass, awaiter, handle, needs_slot};
use crate::tokens::{Debt, Given, OwingTask, Task};
use std::sync::Wait;
use task_moves::moves::{Answer, Owed};

/// A handle whose poll has no answer yet: its waker is to be registered.
pub struct WaitingTask<F: 'static, T: 'static, W: 'static> {
    task: Task<F, T, W>,
}

/// A handle whose poll has registered its waker: it looks again.
pub struct RegisteredTask<F: 'static, T: 'static, W: 'static> {
    task: Task<F, T, W>,
}

/// What a look came to: the handle, and the output where it is given.
pub struct Polled<F: 'static, T: 'static, W: 'static> {
    pub task: Result<Task<F, T, W>, OwingTask<F, T, W>>,
    pub output: Option<Given<T>>,
}

/// What a poll's waker came to.
pub struct Registered<F: 'static, T: 'static, W: 'static> {
    pub task: RegisteredTask<F, T, W>,
    /// The waker, which isn't stored: it is to be called.
    pub to_call: Option<Debt<W>>,
    /// The awaiter that was stored before, which is to be dropped.
    pub to_drop: Option<Debt<W>>,
}

#[inline(always)]
fn gives_output(owed: Owed) -> bool
    ensures { result ≡ is_given owed.answer }
{
    matches!(owed.answer, Some(Answer::Output))
}

/// The output is taken out, where it is given.
#[inline(always)]
fn take_answer<F: 'static, T: 'static, W: 'static>(
    cell: &'static Cell<F, T, W>,
    mut pass: Pass<F, T, W>,
    owed: Owed,
) -> Polled<F, T, W>
    requires seat { IsSeatOf cell.now.board.shared pass }
    requires has { HasOutput owed.answer pass }
    ensures { (is_some result.output ≡ is_given owed.answer) × (is_ok result.task ≡ not (is_some owed.awaiter))
        × MatchOption result.output
        (MatchResult result.task (λ t. IsClaimOf pass t.claim) (λ t. IsClaimOf pass t.task.claim)) (λ _. ⊤)
        × IsHandleOf cell.now result.task }
{
    if gives_output(owed) {
        let output = Given::of(take_output(cell.board(), &mut pass));
        handle::spend(cell.board(), &mut pass);
        Polled {
            task: Task::of(cell, pass).owing(owed),
            output: Some(output),
        }
    } else {
        Polled {
            task: Task::of(cell, pass).owing(owed),
            output: None,
        }
    }
}

impl<F: 'static, T: 'static, W: 'static> Task<F, T, W> {
    /// It looks at the task. Where there is no answer yet, a waker is to be registered.
    #[inline(always)]
    pub fn poll<R: Wait>(self, rt: &R) -> (Owed, Result<Polled<F, T, W>, WaitingTask<F, T, W>>)
        ensures made { MatchResult result.1
            (λ polled. MatchOption polled.output
            (MatchResult polled.task
            (λ t. Shows self.entry.cell.now.board.shared moves.poll result.0 t.claim)
            (λ t. Shows self.entry.cell.now.board.shared moves.poll result.0 t.task.claim))
            (λ _. Owes moves.poll result.0))
            (λ t. Shows self.entry.cell.now.board.shared moves.poll result.0 t.task.claim) }
        ensures answers { is_ok result.1 ≡ is_some result.0.answer }
        ensures gives { IfOk result.1 (λ polled. is_some polled.output ≡ is_given result.0.answer) }
        ensures calls { IfOk result.1 (λ polled. is_ok polled.task ≡ not (is_some result.0.awaiter)) }
        ensures same { MatchResult result.1
            (λ polled. IsHandleOf self.entry.cell.now polled.task)
            (λ t. t.task.cell.now ≡ self.entry.cell.now) }
    {
        let (cell, mut pass) = self.open();
        let owed = handle::poll(rt, cell.board(), &mut pass);
        match owed.answer {
            Some(_) => (owed, Ok(take_answer(cell, pass, owed))),
            None => {
                let task = Task::of(cell, pass);
                (owed, Err(WaitingTask { task }))
            }
        }
    }
}

impl<F: 'static, T: 'static, W: 'static> WaitingTask<F, T, W> {
    /// The handle as it was, where no waker can be had.
    #[inline(always)]
    pub fn refuse(self) -> Task<F, T, W>
        ensures { result ≡ self.entry.task }
    {
        let WaitingTask { task } = self;
        task
    }

    /// The waker is stored; or it comes back to be called, where somebody notifies.
    #[inline(always)]
    pub fn register<R: Wait>(self, rt: &R, waker: W) -> (Owed, Registered<F, T, W>)
        ensures made { Registers self.entry.task.cell.now.board.shared result.0 result.1.task.task.claim (is_some result.1.to_call) }
        ensures same { result.1.task.task.cell.now ≡ self.entry.task.cell.now }
    {
        let WaitingTask { task } = self;
        let (cell, mut pass) = task.open();
        let owed = awaiter::register(rt, cell.board(), &mut pass);
        if needs_slot(owed) {
            let before = take_awaiter(cell.board(), &mut pass);
            let (_, back) = awaiter::end_register(rt, cell.board(), &mut pass, waker);
            let registered = Registered {
                task: RegisteredTask {
                    task: Task::of(cell, pass),
                },
                to_call: Debt::of_some(back),
                to_drop: Debt::of_some(before),
            };
            (owed, registered)
        } else {
            let registered = Registered {
                task: RegisteredTask {
                    task: Task::of(cell, pass),
                },
                to_call: Some(Debt::of(waker)),
                to_drop: None,
            };
            (owed, registered)
        }
    }
}

impl<F: 'static, T: 'static, W: 'static> RegisteredTask<F, T, W> {
    /// It looks again.
    #[inline(always)]
    pub fn look_again<R: Wait>(self, rt: &R) -> (Owed, Polled<F, T, W>)
        ensures made { MatchOption result.1.output
            (MatchResult result.1.task
            (λ t. Shows self.entry.task.cell.now.board.shared moves.look_again result.0 t.claim)
            (λ t. Shows self.entry.task.cell.now.board.shared moves.look_again result.0 t.task.claim))
            (λ _. Owes moves.look_again result.0) }
        ensures gives { is_some result.1.output ≡ is_given result.0.answer }
        ensures calls { is_ok result.1.task ≡ not (is_some result.0.awaiter) }
        ensures same { IsHandleOf self.entry.task.cell.now result.1.task }
    {
        let RegisteredTask { task } = self;
        let (cell, mut pass) = task.open();
        let owed = handle::look_again(rt, cell.board(), &mut pass);
        (owed, take_answer(cell, pass, owed))
    }
}
