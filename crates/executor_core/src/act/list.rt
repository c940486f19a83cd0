//! The list of the runs' own queues, under its lock.
ghost use Rattle.std.specs.Prelude.{◌≡◌, ◌+◌, ◌%◌, ◌<◌, ◌≤◌, ◌++◌, reverse, vec_len, vec_capacity};
ghost use Rattle.executor_model.specs.ActsOfRuns as runs;
ghost use Rattle.executor_model.specs.Doing as doing;
ghost use Rattle.executor_core.specs.Views.{world_of, HasRoom, HasSpace, Does};

use crate::search::push_walk;
use crate::store::Store;
use executor_model::{Hint, Hold, ListOp, Op, Reply, RunOp, RunPoll, Section, UserOp};

/// The party does this with the list of queues. It waits for no lock: a step that would isn't possible.
pub fn act(store: &mut Store, todo: &mut Vec<Op>, hint: Hint, op: ListOp)
    requires room { HasRoom store.old }
    requires space { HasSpace todo.old }
    ensures { Does (doing.list_act hint op (world_of store.old)) store.new todo.old.items todo.new.items }
{
    match op {
        ListOp::LockWrite(section) => {
            store.ticks_and_runs.runs.lock_write();
            todo.push_reserved(Op::List(ListOp::Write(section)));
        }
        ListOp::Write(section) => write(store, todo, hint, section),
        ListOp::UnlockWrite => store.ticks_and_runs.runs.unlock_write(),
        ListOp::LockRead(x) => lock_read(store, todo, hint, x),
        ListOp::UnlockRead => store.ticks_and_runs.runs.unlock_read(),
    }
}

/// This is done under the write lock, which is then to be given back.
fn write(store: &mut Store, todo: &mut Vec<Op>, hint: Hint, section: Section)
    requires room { HasRoom store.old }
    requires space { HasSpace todo.old }
    ensures { Does (runs.write hint section (world_of store.old)) store.new todo.old.items todo.new.items }
{
    match section {
        Section::MakeRun => make_run(store, todo, hint),
        Section::Register(x) => {
            store.ticks_and_runs.runs.register(x.run);
            todo.push_reserved(Op::User(UserOp::PollOwn(x)));
            todo.push_reserved(Op::List(ListOp::UnlockWrite));
        }
        Section::Unregister(r, reply) => {
            store.ticks_and_runs.runs.unregister(r);
            todo.push_reserved(Op::Run(RunOp::Reschedule(r, reply)));
            todo.push_reserved(Op::List(ListOp::UnlockWrite));
        }
    }
}

/// A run is made, where memory is not refused. Refused, the room that was made for it is to be given back.
fn make_run(store: &mut Store, todo: &mut Vec<Op>, hint: Hint)
    requires room { HasRoom store.old }
    requires space { HasSpace todo.old }
    ensures { Does (runs.make_run_by hint.refused (world_of store.old)) store.new todo.old.items todo.new.items }
{
    if hint.refused {
        todo.push_reserved(Op::End(Reply::NoMemory, Hold::Executor));
        todo.push_reserved(Op::Run(RunOp::ReturnRoom));
        todo.push_reserved(Op::List(ListOp::UnlockWrite));
        return;
    }
    let r = store.ticks_and_runs.runs.len();
    store.ticks_and_runs.runs.push();
    todo.push_reserved(Op::End(Reply::Made, Hold::Run(r)));
    todo.push_reserved(Op::List(ListOp::UnlockWrite));
}

/// Where a walk begins, by the starting word, in a list of so many.
fn starting_place(start: u64, count: u64) -> u64
    ensures { 0 < count → result ≡ start % count }
{
    if count == 0 { 0 } else { start % count }
}

/// The read lock is taken, and the run's walk begins at the place that the starting word gives.
fn lock_read(store: &mut Store, todo: &mut Vec<Op>, hint: Hint, x: RunPoll)
    requires room { HasRoom store.old }
    requires space { HasSpace todo.old }
    ensures { Does (runs.lock_read hint (world_of store.old) x) store.new todo.old.items todo.new.items }
{
    store.ticks_and_runs.runs.lock_read();
    let count = store.ticks_and_runs.runs.listed();
    let at = starting_place(hint.start, count);
    push_walk(store, todo, x, at, count);
}
