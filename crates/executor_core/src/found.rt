//! What a run does with what it has found.
ghost use Rattle.std.specs.Prelude.{◌≡◌, ◌+◌, ◌≤◌, ◌++◌, reverse, vec_len, vec_capacity};
ghost use Rattle.executor_model.specs.ActsOfRuns as runs;
ghost use Rattle.executor_core.specs.WakingUp.{counted, onward};
ghost use Rattle.executor_core.specs.Views.{world_of, HasRoomToEnd, HasSpace, Does};

use crate::act::tick::push_wake_up;
use crate::store::Store;
use executor_model::{
    Op, RunOp, RunPoll, SleeperOp, Sleeping, Source, Steal, StealOp, Then, TickOp, TickOrRun,
};
use executor_parts::Mark;
use task_moves::moves::Move;

/// How a run falls asleep in this poll.
pub fn asleep(x: RunPoll) -> Sleeping
    ensures { result ≡ runs.asleep x }
{
    Sleeping {
        waker: x.waker,
        who: TickOrRun::Run(x.run),
        poll: x.poll,
    }
}

/// What follows a task that was run. After the 200th the run calls its own waker and lets others go first, else it
/// searches on.
fn push_onward(todo: &mut Vec<Op>, full: bool, x: RunPoll)
    requires space { vec_len todo.old + 2 ≤ vec_capacity todo.old }
    ensures items { todo.new.items ≡ todo.old.items ++ reverse (onward full x) }
    ensures capacity { vec_capacity todo.new ≡ vec_capacity todo.old }
    ensures len { vec_len todo.new ≡ vec_len todo.old + 1 }
{
    if full {
        todo.push_reserved(Op::Run(RunOp::WakeOwn(x)));
    } else {
        todo.push_reserved(Op::Tick(TickOp::Search(asleep(x))));
    }
}

/// What was found and counted is run.
pub fn push_run(store: &mut Store, todo: &mut Vec<Op>, x: RunPoll, f: u64)
    requires room { HasRoomToEnd store.old }
    requires space { vec_len todo.old + 2 ≤ vec_capacity todo.old }
    ensures does { Does (runs.run_found (world_of store.old) x f) store.new todo.old.items todo.new.items }
    ensures capacity { vec_capacity todo.new ≡ vec_capacity todo.old }
    ensures len { vec_len todo.new ≡ vec_len todo.old + 2 }
{
    let full = store.ticks_and_runs.runs.take_one(x.run);
    push_onward(todo, full, x);
    todo.push_reserved(Op::Move(Move::TakeUp, f));
}

/// The run counts what it has found, and runs that. At every 64th it steals from the executor's urgent queue
/// before, and then from the plain one.
fn push_counted(store: &mut Store, todo: &mut Vec<Op>, x: RunPoll, f: u64)
    requires room { HasRoomToEnd store.old }
    requires space { vec_len todo.old + 2 ≤ vec_capacity todo.old }
    ensures does { Does (counted (world_of store.old) x f) store.new todo.old.items todo.new.items }
    ensures capacity { vec_capacity todo.new ≡ vec_capacity todo.old }
    ensures len { vec_len todo.new ≤ vec_len todo.old + 2 }
{
    let full = store.ticks_and_runs.runs.count(x.run);
    if full {
        todo.push_reserved(Op::Steal(StealOp::Length(Steal {
            poll: x,
            from: Source::Common(Mark::Urgent),
            then: Then::StealPlain(f),
        })));
    } else {
        push_run(store, todo, x, f);
    }
}

/// The run wakes up if it sleeps, tells a sleeper and counts what it has found.
pub fn push_found(store: &mut Store, todo: &mut Vec<Op>, x: RunPoll, f: u64)
    requires room { HasRoomToEnd store.old }
    requires space { vec_len todo.old + 4 ≤ vec_capacity todo.old }
    ensures does { Does (runs.found (world_of store.old) x f) store.new todo.old.items todo.new.items }
    ensures capacity { vec_capacity todo.new ≡ vec_capacity todo.old }
    ensures len { vec_len todo.new ≤ vec_len todo.old + 4 }
{
    let sleeps = store.ticks_and_runs.sleeps(TickOrRun::Run(x.run));
    push_counted(store, todo, x, f);
    todo.push_reserved(Op::Sleeper(SleeperOp::ExchangeFlag));
    push_wake_up(todo, sleeps, TickOrRun::Run(x.run));
}
