//! User code, and what leads to it.
ghost use Rattle.std.specs.Prelude.{◌≡◌, ◌≢◌, ℕ, ◌+◌, ◌-◌, ◌^◌, ◌<◌, ◌≤◌, true, false, not, Some, None};
ghost use Rattle.std.specs.Prelude.{List, [], ◌∷◌, ◌++◌, length};
ghost use Rattle.std.specs.Prelude.{reverse, vec_len, vec_capacity};
ghost use Rattle.task_moves.specs.Moves as moves;
ghost use Rattle.executor_model.specs.Acts as acts;
ghost use Rattle.executor_model.specs.Doing as doing;
ghost use Rattle.executor_model.specs.Carried as carried;
ghost use Rattle.executor_model.specs.World.{task, without, among, awaiter_of};
ghost use Rattle.executor_model.specs.Good.{IsKnown, CanGrow, IsHeld, HasPlace, KeepsAwaiter, IsKnownWaker, CanWake};
ghost use Rattle.executor_core.specs.Views.{world_of, HasRoom, HasRoomToEnd, HasSpace, Does};

use crate::store::Store;
use executor_model::{Event, Op, TableOp, UserOp};

/// The party does this. What waits for user code to answer stays.
pub fn act(store: &mut Store, todo: &mut Vec<Op>, party: u32, op: UserOp)
    requires room { HasRoom store.old }
    requires space { HasSpace todo.old }
    ensures { Does (doing.user_act party op (world_of store.old)) store.new todo.old.items todo.new.items }
{
    match op {
        UserOp::BeginDrop(f) => begin_drop(store, todo, party, f),
        UserOp::BeginDropOutput(f) => begin_drop_output(store, todo, party, f),
        _ => todo.push_reserved(Op::User(op)),
    }
}

/// The drop of a future begins.
fn begin_drop(store: &mut Store, todo: &mut Vec<Op>, party: u32, f: u64)
    requires room { HasRoom store.old }
    requires space { HasSpace todo.old }
    ensures { Does (acts.begin_drop party (world_of store.old) f) store.new todo.old.items todo.new.items }
{
    store
        .trace
        .push_reserved(Event::Dropped { party, future: f });
    todo.push_reserved(Op::Table(TableOp::LeaveTable(f)));
    todo.push_reserved(Op::User(UserOp::Drop(f)));
}

/// The drop of an output begins.
fn begin_drop_output(store: &mut Store, todo: &mut Vec<Op>, party: u32, f: u64)
    requires room { HasRoom store.old }
    requires space { HasSpace todo.old }
    ensures { Does (acts.begin_drop_output party (world_of store.old) f) store.new todo.old.items todo.new.items }
{
    store
        .trace
        .push_reserved(Event::OutputDropped { party, future: f });
    todo.push_reserved(Op::User(UserOp::DropOutput(f)));
}
