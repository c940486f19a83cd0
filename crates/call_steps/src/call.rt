//! A call in progress, as contracts follow it. It has no bytes.
ghost use Rattle.std.specs.Prelude.{◌≡◌};
ghost use Rattle.call_steps.specs.Begins.{begins, part_begins};
ghost use Rattle.call_steps.specs.Todo.{todo_of};

use crate::asked::Asked;
use crate::part::Part;
use crate::reply::Reply;
use crate::saw::Saw;
use std::marker::{Model, PhantomData};
use std::mem;
use std::snapshot::Snapshot;

/// How a call has gone so far.
#[derive(Drop)]
pub enum Past<F, T> {
    /// It began, and was asked for this.
    Begun(Snapshot<Asked<F, T>>),
    /// It is a part of a call that is to do this.
    Apart(Snapshot<Part<F>>),
    /// It did what was to be done next, and saw this.
    Did(Snapshot<Saw<F, T>>, Snapshot<Past<F, T>>),
}

/// A call in progress. Contracts see what it has still to do, the next thing first. Who begins one has a `B`: by who can make
/// such a value a crate says where its calls begin.
#[must_use]
pub struct Call<F, T, B> {
    past: Snapshot<Past<F, T>>,
    begun_by: PhantomData<B>,
}

impl<F, T, B> Model for Call<F, T, B> {
    ghost use Rattle.std.specs.Prelude.{List};
    ghost use Rattle.call_steps.specs.declared.step.CallStep.{CallStep};
    ghost use Rattle.call_steps.specs.Todo.{todo_of};

    ghost Value = { List (CallStep F T) };

    ghost view = { λ c. todo_of c.past.value };
}

/// How a call ended, which that call alone can say. Only contracts read it, so it has no bytes.
#[derive(Drop)]
pub struct Last {
    reply: Snapshot<Reply>,
}

impl Model for Last {
    ghost use Rattle.call_steps.specs.declared.reply.Reply.{Reply};

    ghost Value = { Reply };

    ghost view = { λ l. l.reply.value };
}

impl<F: Drop, T: Drop, B: Drop> Call<F, T, B> {
    ghost use Rattle.std.specs.Prelude.{◌≡◌, [], ◌∷◌};
    ghost use Rattle.call_steps.specs.declared.step.CallStep.TheVariants as step;
    ghost use Rattle.call_steps.specs.Begins.{begins, part_begins};
    ghost use Rattle.call_steps.specs.Fitting.{Fits};
    ghost use Rattle.call_steps.specs.Todo.{following, top};

    /// A call that is asked for this.
    #[inline(always)]
    pub fn begin(asked: Asked<F, T>, by: B) -> Self
        ensures { result ≡ begins asked }
    {
        let _ = by;
        Call {
            past: begun(&asked),
            begun_by: PhantomData,
        }
    }

    /// A part of a call that is to do this.
    #[inline(always)]
    pub fn part(part: Part<F>) -> Self
        ensures { result ≡ part_begins part }
    {
        Call {
            past: Snapshot::of(&Past::Apart(Snapshot::of(&part))),
            begun_by: PhantomData,
        }
    }

    /// What was to be done next is done, and this was seen, which is of the kind that it sees.
    #[inline(always)]
    pub fn follow(&mut self, saw: Saw<F, T>)
        requires { Fits (top self.old) saw }
        ensures { self.new ≡ following saw self.old }
    {
        let past = mem::replace(&mut self.past, begun(&Asked::TryTick));
        self.past = Snapshot::of(&Past::Did(Snapshot::of(&saw), past));
    }

    /// The call ends with this answer, which is all that is left of it.
    #[inline(always)]
    pub fn end(self, reply: Reply) -> Last
        requires { self ≡ step.End reply ∷ [] }
        ensures { result ≡ reply }
    {
        let Call {
            past: _,
            begun_by: _,
        } = self;
        Last {
            reply: Snapshot::of(&reply),
        }
    }

    /// A part of a call ends that answers nothing, with nothing left to do.
    #[inline(always)]
    pub fn close(self)
        requires { self ≡ [] }
    {
        let Call {
            past: _,
            begun_by: _,
        } = self;
    }
}

#[inline(always)]
fn begun<F: Drop, T: Drop>(asked: &Asked<F, T>) -> Snapshot<Past<F, T>>
    ensures { todo_of result.value ≡ begins asked.now }
{
    Snapshot::of(&Past::Begun(Snapshot::of(asked)))
}
