//! What calls do. Each deed writes its record: a call's record shows that a thing was done only where a deed did it. The files are
//! by what a deed acts on.
ghost use Rattle.std.specs.Prelude.{◌≡◌, ◌∷◌, []};
ghost use Rattle.call_steps.specs.Begins.{begins, part_begins};
ghost use Rattle.call_steps.specs.Fitting.{Fits};
ghost use Rattle.call_steps.specs.Todo.{following, top};
ghost use Rattle.call_steps.specs.declared.step.CallStep.TheVariants as step;

use crate::entry::Entered;
use crate::task_name::TaskName;
use call_steps::{Asked, Call, Last, Part, Reply, Saw};
use std::marker::Model;

mod falling_asleep;
mod lists;
pub mod queues;
mod saying;
pub mod sections;
mod sleepers;
mod strays;
mod table;
pub mod task_run;
mod tasks;
mod users;

/// A call, or a part of one, that goes as the machine of `call_steps` does. Futures have the names of their tasks. The list of
/// sleepers knows no names of ticks and runs, so they have none here. A call is begun in `entry`, as the user's call begins. Only
/// the deeds write down what it saw.
#[must_use]
pub struct Steps {
    call: Call<TaskName, (), Entered>,
}

impl Model for Steps {
    ghost use Rattle.std.specs.Prelude.{List};
    ghost use Rattle.async_task.specs.declared.cell.Identity.{Identity};
    ghost use Rattle.call_steps.specs.declared.step.CallStep.{CallStep};

    ghost Value = { List (CallStep Identity (Unit {0})) };

    ghost view = { λ s. s.call };
}

impl Steps {
    /// Begins a call that is asked for this.
    #[inline(always)]
    pub fn begin(asked: Asked<TaskName, ()>, by: Entered) -> Steps
        ensures { result ≡ begins asked }
    {
        Steps {
            call: Call::begin(asked, by),
        }
    }

    /// Begins a part of a call that has to do this.
    #[inline(always)]
    pub fn part(part: Part<TaskName>) -> Steps
        ensures { result ≡ part_begins part }
    {
        Steps {
            call: Call::part(part),
        }
    }

    /// Ends the call with this answer, which is all that is left of it.
    #[inline(always)]
    pub fn end(self, reply: Reply) -> Last
        requires { self ≡ step.End reply ∷ [] }
        ensures { result ≡ reply }
    {
        let Steps { call } = self;
        call.end(reply)
    }

    /// Ends a part of a call that answers nothing, with nothing left to do.
    #[inline(always)]
    pub fn close(self)
        requires { self ≡ [] }
    {
        let Steps { call } = self;
        call.close();
    }

    /// What had to be done next is done here, and this was seen.
    #[inline(always)]
    fn follow(&mut self, saw: Saw<TaskName, ()>)
        requires { Fits (top self.old) saw }
        ensures { self.new ≡ following saw self.old }
    {
        self.call.follow(saw);
    }
}
