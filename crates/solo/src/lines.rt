//! The executor's two queues, by the marks of the tasks in them, and the turns that say at which one a search looks first.
ghost use Rattle.std.specs.Prelude.{◌≡◌, ◌<◌, IfOk, length};
ghost use Rattle.solo.specs.Line.{accepts};
ghost use Rattle.solo.specs.Lines as lines;

use crate::line::Line;
use crate::names::Task;
use executor_parts::Mark;
use queue_steps::NoMemory;
use std::alloc::Global;
use std::marker::Model;

/// Of so many turns the last looks at the plain queue first.
const TURNS: u64 = 8;

/// What a look at both queues has found.
#[derive(Clone, Copy)]
pub struct FromLines {
    /// The first task of the queue that was looked at last.
    pub task: Option<Task>,
    /// The mark of that queue.
    pub mark: Mark,
}

/// A queue for each mark, of which each has as many places as the limit says.
#[derive(Drop)]
pub struct Lines {
    urgent: Line,
    plain: Line,
    // The number of the next turn. It wraps, as 2^64 is a multiple of 8.
    turn: u64,
}

impl Model for Lines {
    ghost use Rattle.solo.specs.Lines.{LinesValue};

    ghost Value = { LinesValue };

    ghost view = { λ l. record { urgent = l.urgent; plain = l.plain; turn = l.turn } };
}

impl Lines {
    /// Two empty queues, for at most `limit` tasks each.
    pub fn new(alloc: Global, limit: usize) -> Result<Lines, NoMemory>
        requires { 0 < limit }
        ensures { IfOk result (λ l. l ≡ lines.new_lines limit) }
    {
        match Line::new(alloc, limit) {
            Ok(urgent) => match Line::new(alloc, limit) {
                Ok(plain) => Ok(Lines {
                    urgent,
                    plain,
                    turn: 0,
                }),
                Err(error) => Err(error),
            },
            Err(error) => Err(error),
        }
    }

    /// A task comes last in the queue of its mark. False where it is turned away, as the queue is closed or full.
    #[inline(always)]
    pub fn push(&mut self, mark: Mark, task: Task) -> bool
        ensures lines { self.new ≡ lines.pushed_in mark task self.old }
        ensures accepted { result ≡ accepts (lines.line_of mark self.old) }
    {
        match mark {
            Mark::Plain => self.plain.push(task),
            Mark::Urgent => self.urgent.push(task),
        }
    }

    /// The first task of one queue leaves it.
    #[inline(always)]
    pub fn pop(&mut self, mark: Mark) -> Option<Task>
        ensures first { result ≡ lines.first_of mark self.old }
        ensures lines { self.new ≡ lines.popped_from mark self.old }
    {
        match mark {
            Mark::Plain => self.plain.pop(),
            Mark::Urgent => self.urgent.pop(),
        }
    }

    /// The first task of this queue leaves it; where there is none, the first of the other one.
    #[inline(always)]
    pub fn take_from(&mut self, mark: Mark) -> FromLines
        ensures lines { self.new ≡ lines.taken_from mark self.old }
        ensures found { result ≡ lines.found_from mark self.old }
    {
        match self.pop(mark) {
            Some(task) => FromLines {
                task: Some(task),
                mark,
            },
            None => {
                let mark = mark.other();
                FromLines {
                    task: self.pop(mark),
                    mark,
                }
            }
        }
    }

    /// A turn is taken: the first task of the queue that it names leaves, or else the first of the other one.
    #[inline(always)]
    pub fn search(&mut self) -> FromLines
        ensures lines { self.new ≡ lines.searched self.old }
        ensures found { result ≡ lines.search_answer self.old }
    {
        let mark = mark_of_turn(self.turn);
        self.turn = self.turn.wrapping_add(1);
        self.take_from(mark)
    }

    /// No task comes any more, to the urgent queue and to the plain one.
    pub fn close(&mut self)
        ensures { self.new ≡ lines.shut_both self.old }
    {
        self.urgent.close();
        self.plain.close();
    }

    /// Whether no task waits in either queue.
    #[inline(always)]
    pub fn is_empty(&self) -> bool
        ensures { result ≡ lines.is_empty self.now }
    {
        self.urgent.len() == 0 && self.plain.len() == 0
    }

    /// How many wait in one queue.
    pub fn len(&self, mark: Mark) -> usize
        ensures { result ≡ length (lines.line_of mark self.now).items }
    {
        match mark {
            Mark::Plain => self.plain.len(),
            Mark::Urgent => self.urgent.len(),
        }
    }
}

/// At which queue the turn of this number looks first.
#[inline(always)]
fn mark_of_turn(turn: u64) -> Mark
    ensures { result ≡ lines.mark_of_turn turn }
{
    if turn % TURNS == TURNS - 1 {
        Mark::Plain
    } else {
        Mark::Urgent
    }
}
