//! The sections of the table.
ghost use Rattle.std.specs.Prelude.{◌≡◌, ◌≢◌, ℕ, ◌+◌, ◌-◌, ◌^◌, ◌<◌, ◌≤◌, true, false, not, Some, None};
ghost use Rattle.std.specs.Prelude.{List, [], ◌∷◌, ◌++◌, length};
ghost use Rattle.std.specs.Prelude.{reverse, vec_len, vec_capacity};
ghost use Rattle.task_moves.specs.Moves as moves;
ghost use Rattle.executor_model.specs.Acts as acts;
ghost use Rattle.executor_model.specs.Doing as doing;
ghost use Rattle.executor_model.specs.Carried as carried;
ghost use Rattle.executor_model.specs.World.{task, without, among, awaiter_of};
ghost use Rattle.executor_model.specs.Good.{IsKnown, CanGrow, IsHeld, HasPlace, KeepsAwaiter};
ghost use Rattle.executor_model.specs.Good.{IsKnownWaker, CanWake, Fits, TableNeeds};
ghost use Rattle.executor_core.specs.Views.{world_of, HasRoom, HasRoomToEnd, HasSpace, Does};

use crate::store::Store;
use executor_model::{Event, Hint, Hold, Op, QueueOp, Reply, TableOp, UserOp};
use executor_parts::{Mark, SpawnRefused};
use task_moves::moves::{Move, State};

/// The party does this with the table.
pub fn act(store: &mut Store, todo: &mut Vec<Op>, party: u32, hint: Hint, op: TableOp)
    requires fits { Fits (world_of store.old) }
    requires room { HasRoom store.old }
    requires space { HasSpace todo.old }
    requires needs { TableNeeds (world_of store.old) op }
    ensures { Does (doing.table_act party hint op (world_of store.old)) store.new todo.old.items todo.new.items }
{
    match op {
        TableOp::Enter(mark) => enter(store, todo, mark, party, hint),
        TableOp::LookAtTable => look_at_table(store, todo),
        TableOp::TakeToPoll(f) => take_to_poll(store, todo, f),
        TableOp::PutBack(f) => put_back(store, todo, f),
        TableOp::TakeToDrop(f) => take_to_drop(store, todo, f),
        TableOp::LeaveTable(f) => leave_table(store, todo, f),
    }
}

/// A new future of this mark is taken in, where there are not too many and memory is not refused.
fn enter(store: &mut Store, todo: &mut Vec<Op>, mark: Mark, party: u32, hint: Hint)
    requires fits { Fits (world_of store.old) }
    requires room { HasRoom store.old }
    requires space { HasSpace todo.old }
    ensures { Does (acts.enter mark party hint (world_of store.old)) store.new todo.old.items todo.new.items }
{
    let vacancy = match store.entries.vacancy() {
        Ok(vacancy) => vacancy,
        Err(SpawnRefused::Full) => {
            todo.push_reserved(Op::End(Reply::Full, Hold::Executor));
            return;
        }
        Err(SpawnRefused::NoMemory) => {
            todo.push_reserved(Op::End(Reply::NoMemory, Hold::Executor));
            return;
        }
    };
    if hint.refused {
        vacancy.give_back();
        todo.push_reserved(Op::End(Reply::NoMemory, Hold::Executor));
        return;
    }
    let f = store.tasks.len() as u64;
    store.tasks.push_reserved(entered(store.is_static));
    store.awaiters.push_reserved(None);
    store.marks.push_reserved(mark);
    store.entries.enter(vacancy, f);
    store
        .trace
        .push_reserved(Event::Accepted { party, future: f });
    todo.push_reserved(Op::End(Reply::Made, Hold::Spawned(f)));
    todo.push_reserved(Op::Queue(QueueOp::Append(f)));
}

/// A new task, of which the table has a waker, unless it is static.
fn entered(is_static: bool) -> State
    ensures { result ≡ acts.entered is_static }
{
    State {
        scheduled: true,
        running: false,
        completed: false,
        closed: false,
        handle: true,
        awaiter: false,
        registering: false,
        notifying: false,
        references: if is_static { 1 } else { 2 },
    }
}

/// The table is asked whether it is empty.
fn look_at_table(store: &mut Store, todo: &mut Vec<Op>)
    requires room { HasRoom store.old }
    requires space { HasSpace todo.old }
    ensures { Does (acts.look_at_table (world_of store.old)) store.new todo.old.items todo.new.items }
{
    let reply = if store.entries.is_empty() {
        Reply::Yes
    } else {
        Reply::No
    };
    todo.push_reserved(Op::End(reply, Hold::Executor));
}

/// The future is taken out, to be polled.
fn take_to_poll(store: &mut Store, todo: &mut Vec<Op>, f: u64)
    requires room { HasRoom store.old }
    requires space { HasSpace todo.old }
    requires needs { HasPlace (world_of store.old) f }
    ensures { Does (acts.take_to_poll (world_of store.old) f) store.new todo.old.items todo.new.items }
{
    store.entries.take(f);
    todo.push_reserved(Op::User(UserOp::Poll(f)));
}

/// The future is put back.
fn put_back(store: &mut Store, todo: &mut Vec<Op>, f: u64)
    requires room { HasRoom store.old }
    requires space { HasSpace todo.old }
    requires needs { HasPlace (world_of store.old) f }
    ensures { Does (acts.put_back (world_of store.old) f) store.new todo.old.items todo.new.items }
{
    store.entries.put_back(f);
    todo.push_reserved(Op::Move(Move::EndPending, f));
}

/// The future is taken out, to be dropped.
fn take_to_drop(store: &mut Store, todo: &mut Vec<Op>, f: u64)
    requires room { HasRoom store.old }
    requires space { HasSpace todo.old }
    requires needs { HasPlace (world_of store.old) f }
    ensures { Does (acts.take_to_drop (world_of store.old) f) store.new todo.old.items todo.new.items }
{
    store.entries.take(f);
    todo.push_reserved(Op::User(UserOp::BeginDrop(f)));
}

/// The future's entry is taken out, where it is there, and its waker goes, where it has one.
fn leave_table(store: &mut Store, todo: &mut Vec<Op>, f: u64)
    requires room { HasRoom store.old }
    requires space { HasSpace todo.old }
    ensures { Does (acts.leave_table (world_of store.old) f) store.new todo.old.items todo.new.items }
{
    if store.entries.leave(f) && !store.is_static {
        todo.push_reserved(Op::Move(Move::Release, f));
    }
}
