//! The making, the own waker and the leaving of runs.
ghost use Rattle.std.specs.Prelude.{◌≡◌, ◌+◌, ◌≤◌, ◌++◌, reverse, vec_len, vec_capacity};
ghost use Rattle.executor_model.specs.ActsOfRuns as runs;
ghost use Rattle.executor_model.specs.Doing as doing;
ghost use Rattle.executor_model.specs.Good.{CanWake, RunNeeds};
ghost use Rattle.executor_core.specs.Views.{world_of, HasRoom, HasSpace, Does};

use crate::act::waker::call_by_reference;
use crate::search::{look_own, search_common, take_turn_of_run};
use crate::store::Store;
use executor_model::{
    Event, Hint, Hold, ListOp, Op, Polled, QueueOp, Reply, RunOp, RunPoll, Section, TickOp,
    TickOrRun,
};

/// The party does this part of the making, of a poll or of the drop of a run.
pub fn act(store: &mut Store, todo: &mut Vec<Op>, party: u32, hint: Hint, op: RunOp)
    requires room { HasRoom store.old }
    requires space { HasSpace todo.old }
    requires needs { RunNeeds (world_of store.old) op }
    ensures { Does (doing.run_act party hint op (world_of store.old)) store.new todo.old.items todo.new.items }
{
    match op {
        RunOp::MakeRoom => make_room(store, todo, hint),
        RunOp::ReturnRoom => store.ticks_and_runs.flagged_sleepers.give_room_back(),
        RunOp::TakeTurn(x) => take_turn_of_run(store, todo, party, x),
        RunOp::SearchCommon(x, look) => search_common(store, todo, x, look),
        RunOp::LookOwn(x, at, left) => look_own(store, todo, x, at, left),
        RunOp::WakeOwn(x) => wake_own(store, todo, party, x),
        RunOp::Reschedule(r, reply) => reschedule(store, todo, r, reply),
    }
}

/// Room to fall asleep in is made for a run, where memory is not refused.
fn make_room(store: &mut Store, todo: &mut Vec<Op>, hint: Hint)
    requires room { HasRoom store.old }
    requires space { HasSpace todo.old }
    ensures { Does (runs.make_room_by hint.refused (world_of store.old)) store.new todo.old.items todo.new.items }
{
    if hint.refused {
        todo.push_reserved(Op::End(Reply::NoMemory, Hold::Executor));
        return;
    }
    store.ticks_and_runs.flagged_sleepers.add_room();
    todo.push_reserved(Op::List(ListOp::LockWrite(Section::MakeRun)));
}

/// The waker that the poll was given is called, and stays. Then the poll has nothing to answer yet.
fn wake_own(store: &mut Store, todo: &mut Vec<Op>, party: u32, x: RunPoll)
    requires room { HasRoom store.old }
    requires space { HasSpace todo.old }
    requires needs { CanWake (world_of store.old) x.waker }
    ensures { Does (runs.wake_own party (world_of store.old) x) store.new todo.old.items todo.new.items }
{
    store.trace.push_reserved(Event::WakerCalled {
        party,
        polled: Polled::Run(x.run),
        poll: x.poll,
        waker: x.waker,
    });
    todo.push_reserved(Op::End(Reply::Pending, Hold::Run(x.run)));
    call_by_reference(store, todo, party, x.waker);
}

/// The first Runnable that is left in the own queue is scheduled. Where none is left, the run leaves the sleepers.
fn reschedule(store: &mut Store, todo: &mut Vec<Op>, r: u64, reply: Reply)
    requires room { HasRoom store.old }
    requires space { HasSpace todo.old }
    ensures { Does (runs.reschedule (world_of store.old) r reply) store.new todo.old.items todo.new.items }
{
    match store.ticks_and_runs.runs.take(r) {
        Some(f) => {
            todo.push_reserved(Op::Run(RunOp::Reschedule(r, reply)));
            todo.push_reserved(Op::Queue(QueueOp::Append(f)));
        }
        None => {
            todo.push_reserved(Op::End(reply, Hold::Run(r)));
            todo.push_reserved(Op::Tick(TickOp::Leave(TickOrRun::Run(r))));
        }
    }
}
