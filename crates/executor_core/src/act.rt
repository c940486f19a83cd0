//! One thing that a party has to do is done, in the file of its group. `tick` also has what ticks
//! and runs both do, `run` what a run alone does.
ghost use Rattle.std.specs.Prelude.{◌≡◌, ◌≢◌, ℕ, ◌+◌, ◌-◌, ◌^◌, ◌<◌, ◌≤◌, true, false, not, Some, None};
ghost use Rattle.std.specs.Prelude.{List, [], ◌∷◌, ◌++◌, length};
ghost use Rattle.std.specs.Prelude.{reverse, vec_len, vec_capacity};
ghost use Rattle.task_moves.specs.Moves as moves;
ghost use Rattle.executor_model.specs.Acts as acts;
ghost use Rattle.executor_model.specs.Doing as doing;
ghost use Rattle.executor_model.specs.Carried as carried;
ghost use Rattle.executor_model.specs.World.{task, without, among, awaiter_of};
ghost use Rattle.executor_model.specs.Good.{IsKnown, CanGrow, IsHeld, HasPlace, KeepsAwaiter, IsKnownWaker, CanWake};
ghost use Rattle.executor_core.specs.Views.{world_of, HasRoom, HasRoomToEnd, HasSpace, Does};
ghost use Rattle.executor_model.specs.Good.{Needs, Fits};

pub mod closing;
pub mod handle;
pub mod list;
pub mod queue;
pub mod run;
pub mod sleeper;
pub mod steal;
pub mod table;
pub mod task;
pub mod tick;
pub mod user;
pub mod waker;

use crate::store::Store;
use executor_model::{Event, Hint, Op};

/// The party does this, and is told this from outside.
pub fn act(store: &mut Store, todo: &mut Vec<Op>, party: u32, hint: Hint, op: Op)
    requires fits { Fits (world_of store.old) }
    requires room { HasRoom store.old }
    requires space { HasSpace todo.old }
    requires needs { Needs (world_of store.old) op }
    ensures { Does (doing.act party hint op (world_of store.old)) store.new todo.old.items todo.new.items }
{
    match op {
        Op::Move(kind, f) => task::move_task(store, todo, party, kind, f),
        Op::Table(op) => table::act(store, todo, party, hint, op),
        Op::Queue(op) => queue::act(store, todo, party, op),
        Op::User(op) => user::act(store, todo, party, op),
        Op::Waker(op) => waker::act(store, todo, party, hint, op),
        Op::Handle(op) => handle::act(store, todo, party, hint, op),
        Op::Sleeper(op) => sleeper::act(store, todo, party, op),
        Op::Tick(op) => tick::act(store, todo, party, hint, op),
        Op::List(op) => list::act(store, todo, hint, op),
        Op::Steal(op) => steal::act(store, todo, party, op),
        Op::Run(op) => run::act(store, todo, party, hint, op),
        Op::Closing(op) => closing::act(store, todo, party, op),
        Op::End(reply, _) => store.trace.push_reserved(Event::CallEnded { party, reply }),
    }
}
