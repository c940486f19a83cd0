//! How a run searches: its own queue, the executor's queues, and round the list of queues.
ghost use Rattle.std.specs.Prelude.{◌≡◌, ◌+◌, ◌≤◌, ◌++◌, reverse, vec_len, vec_capacity};
ghost use Rattle.executor_model.specs.ActsOfRuns as runs;
ghost use Rattle.executor_core.specs.Views.{world_of, HasRoom, HasSpace, Does};

use crate::act::queue::{mark_in, take_turn};
use crate::found::{asleep, push_found};
use crate::runs::Found;
use crate::store::Store;
use executor_model::{ListOp, Look, Op, RunOp, RunPoll, Source, Steal, StealOp, Then, TickOp};

/// The first Runnable of the own queue is taken, where there is one.
pub fn search_own(store: &mut Store, todo: &mut Vec<Op>, x: RunPoll)
    requires room { HasRoom store.old }
    requires space { HasSpace todo.old }
    ensures { Does (runs.search_own (world_of store.old) x) store.new todo.old.items todo.new.items }
{
    match store.ticks_and_runs.runs.take(x.run) {
        Some(f) => push_found(store, todo, x, f),
        None => todo.push_reserved(Op::Run(RunOp::TakeTurn(x))),
    }
}

/// A turn is taken, and the executor's queue is looked at that it names.
pub fn take_turn_of_run(store: &mut Store, todo: &mut Vec<Op>, party: u32, x: RunPoll)
    requires room { HasRoom store.old }
    requires space { HasSpace todo.old }
    ensures { Does (runs.take_turn_of_run party (world_of store.old) x) store.new todo.old.items todo.new.items }
{
    let look = take_turn(store, party);
    todo.push_reserved(Op::Run(RunOp::SearchCommon(x, look)));
}

/// The first Runnable of one of the executor's queues is taken, where there is one, and a steal from there follows. Else the other
/// one is looked at, where that was not done.
pub fn search_common(store: &mut Store, todo: &mut Vec<Op>, x: RunPoll, look: Look)
    requires room { HasRoom store.old }
    requires space { HasSpace todo.old }
    ensures { Does (runs.search_common (world_of store.old) x look) store.new todo.old.items todo.new.items }
{
    let mark = mark_in(look);
    match store.queues.take(mark) {
        Some(f) => todo.push_reserved(Op::Steal(StealOp::Length(Steal {
            poll: x,
            from: Source::Common(mark),
            then: Then::Found(f),
        }))),
        None => todo.push_reserved(match look {
            Look::First(mark) => Op::Run(RunOp::SearchCommon(x, Look::Second(mark.other()))),
            Look::Second(_) => Op::List(ListOp::LockRead(x)),
        }),
    }
}

/// The walk goes on at this place of the list, where so many queues are still to go to: it steals from the next that
/// isn't the run's own. Behind the last the run falls asleep.
pub fn push_walk(store: &Store, todo: &mut Vec<Op>, x: RunPoll, at: u64, left: u64)
    requires space { vec_len todo.old + 2 ≤ vec_capacity todo.old }
    ensures { todo.new.items
        ≡ todo.old.items ++ reverse (runs.walk x (world_of store.now).listed at left) }
{
    match store.ticks_and_runs.runs.next(x.run, at, left) {
        Some(Found { run, next, left }) => todo.push_reserved(Op::Steal(StealOp::Length(Steal {
            poll: x,
            from: Source::Own(run),
            then: Then::Walk(next, left),
        }))),
        None => {
            todo.push_reserved(Op::Tick(TickOp::CopyWaker(asleep(x))));
            todo.push_reserved(Op::List(ListOp::UnlockRead));
        }
    }
}

/// In a walk the first Runnable of the own queue is taken, where there is one, and the read lock is given back. Else the
/// walk goes on.
pub fn look_own(store: &mut Store, todo: &mut Vec<Op>, x: RunPoll, at: u64, left: u64)
    requires room { HasRoom store.old }
    requires space { HasSpace todo.old }
    ensures { Does (runs.look_own (world_of store.old) x at left) store.new todo.old.items todo.new.items }
{
    match store.ticks_and_runs.runs.take(x.run) {
        Some(f) => {
            push_found(store, todo, x, f);
            todo.push_reserved(Op::List(ListOp::UnlockRead));
        }
        None => push_walk(store, todo, x, at, left),
    }
}
