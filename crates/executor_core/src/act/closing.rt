//! The drop of the executor.
ghost use Rattle.std.specs.Prelude.{◌≡◌, ◌≢◌, ℕ, ◌+◌, ◌-◌, ◌^◌, ◌<◌, ◌≤◌, true, false, not, Some, None};
ghost use Rattle.std.specs.Prelude.{List, [], ◌∷◌, ◌++◌, length};
ghost use Rattle.std.specs.Prelude.{reverse, vec_len, vec_capacity};
ghost use Rattle.task_moves.specs.Moves as moves;
ghost use Rattle.executor_model.specs.Acts as acts;
ghost use Rattle.executor_model.specs.Doing as doing;
ghost use Rattle.executor_model.specs.Carried as carried;
ghost use Rattle.executor_model.specs.World.{task, without, among, awaiter_of};
ghost use Rattle.executor_model.specs.Good.{IsKnown, CanGrow, IsHeld, HasPlace, KeepsAwaiter};
ghost use Rattle.executor_model.specs.Good.{IsKnownWaker, CanWake, ClosingNeeds};
ghost use Rattle.executor_core.specs.Views.{world_of, HasRoom, HasRoomToEnd, HasSpace, Does};

use crate::act::task::{leak_task, move_task};
use crate::store::Store;
use executor_model::{ClosingOp, Event, Op, UserOp};
use executor_parts::Mark;
use task_moves::moves::Move;

/// The party does this part of the executor's drop.
pub fn act(store: &mut Store, todo: &mut Vec<Op>, party: u32, op: ClosingOp)
    requires room { HasRoom store.old }
    requires space { HasSpace todo.old }
    requires needs { ClosingNeeds (world_of store.old) op }
    ensures { Does (doing.closing_act party op (world_of store.old)) store.new todo.old.items todo.new.items }
{
    match op {
        ClosingOp::TakeOut => take_out(store, todo),
        ClosingOp::DropNext => drop_next(store, todo, party),
        ClosingOp::WakeNext => wake_next(store, todo, party),
        ClosingOp::Close(mark) => close(store, todo, mark),
        ClosingOp::Drain(mark) => drain(store, todo, party, mark),
        ClosingOp::LeakOut => leak_out(store, todo),
        ClosingOp::LeakNext => leak_next(store, todo, party),
    }
}

/// What the executor's drop does next: first each future, then each waker, then the queues.
fn next_closing(store: &Store) -> Op
    ensures { result ∷ [] ≡ acts.closing_ops store.now.entries.leaving store.now.waking.items }
{
    if !store.entries.has_none_leaving() {
        Op::Closing(ClosingOp::DropNext)
    } else if !store.waking.is_empty() {
        Op::Closing(ClosingOp::WakeNext)
    } else {
        Op::Closing(ClosingOp::Close(Mark::Urgent))
    }
}

/// All futures and wakers are taken out of the table.
fn take_out(store: &mut Store, todo: &mut Vec<Op>)
    requires room { HasRoom store.old }
    requires space { HasSpace todo.old }
    ensures { Does (acts.take_out (world_of store.old)) store.new todo.old.items todo.new.items }
{
    store.entries.take_out();
    let next = next_closing(store);
    todo.push_reserved(next);
}

/// The drop of the next future begins.
fn drop_next(store: &mut Store, todo: &mut Vec<Op>, party: u32)
    requires room { HasRoom store.old }
    requires space { HasSpace todo.old }
    ensures { Does (acts.drop_next party (world_of store.old)) store.new todo.old.items todo.new.items }
{
    let Some(f) = store.entries.leave_first() else {
        return;
    };
    store.waking.push_back_reserved(f);
    store
        .trace
        .push_reserved(Event::Dropped { party, future: f });
    let next = next_closing(store);
    todo.push_reserved(next);
    todo.push_reserved(Op::User(UserOp::Drop(f)));
}

/// The next waker is woken.
fn wake_next(store: &mut Store, todo: &mut Vec<Op>, party: u32)
    requires room { HasRoom store.old }
    requires space { HasSpace todo.old }
    requires needs { (f : ℕ) (rest : List ℕ) → store.old.waking.items ≡ f ∷ rest → CanGrow (world_of store.old) f }
    ensures { Does (acts.wake_next party (world_of store.old)) store.new todo.old.items todo.new.items }
{
    let Some(f) = store.waking.pop_front() else {
        return;
    };
    todo.push_reserved(if store.waking.is_empty() {
        Op::Closing(ClosingOp::Close(Mark::Urgent))
    } else {
        Op::Closing(ClosingOp::WakeNext)
    });
    move_task(store, todo, party, Move::Wake, f);
}

/// The table's wakers are to be woken, and it has none from now on.
fn leak_out(store: &mut Store, todo: &mut Vec<Op>)
    requires room { HasRoom store.old }
    requires space { HasSpace todo.old }
    ensures { Does (acts.leak_out (world_of store.old)) store.new todo.old.items todo.new.items }
{
    if store.is_static || store.gone {
        return;
    }
    store.entries.list_to(&mut store.waking);
    store.is_static = true;
    if !store.waking.is_empty() {
        todo.push_reserved(Op::Closing(ClosingOp::LeakNext));
    }
}

/// The leak wakes the next waker.
fn leak_next(store: &mut Store, todo: &mut Vec<Op>, party: u32)
    requires room { HasRoom store.old }
    requires space { HasSpace todo.old }
    requires needs { (f : ℕ) (rest : List ℕ) → store.old.waking.items ≡ f ∷ rest → CanGrow (world_of store.old) f }
    ensures { Does (acts.leak_next party (world_of store.old)) store.new todo.old.items todo.new.items }
{
    if store.gone {
        return;
    }
    let Some(f) = store.waking.pop_front() else {
        return;
    };
    if !store.waking.is_empty() {
        todo.push_reserved(Op::Closing(ClosingOp::LeakNext));
    }
    leak_task(store, todo, party, f);
}

/// The queue of this mark is closed: behind the urgent one the plain one; then both are drained.
fn close(store: &mut Store, todo: &mut Vec<Op>, mark: Mark)
    requires room { HasRoom store.old }
    requires space { HasSpace todo.old }
    ensures { Does (acts.close (world_of store.old) mark) store.new todo.old.items todo.new.items }
{
    store.queues.close(mark);
    todo.push_reserved(Op::Closing(match mark {
        Mark::Urgent => ClosingOp::Close(Mark::Plain),
        Mark::Plain => ClosingOp::Drain(Mark::Urgent),
    }));
}

/// The next Runnable of this queue is taken to be dropped. Where there is none, the plain one follows the urgent one, and behind
/// that the drop has ended.
fn drain(store: &mut Store, todo: &mut Vec<Op>, party: u32, mark: Mark)
    requires room { HasRoom store.old }
    requires space { HasSpace todo.old }
    ensures { Does (acts.drain party (world_of store.old) mark) store.new todo.old.items todo.new.items }
{
    match store.queues.take(mark) {
        Some(f) => {
            todo.push_reserved(Op::Closing(ClosingOp::Drain(mark)));
            todo.push_reserved(Op::Move(Move::DropRunnable, f));
        }
        None => end_drain(store, todo, party, mark),
    }
}

/// Nothing is left in this queue.
fn end_drain(store: &mut Store, todo: &mut Vec<Op>, party: u32, mark: Mark)
    requires room { vec_len store.old.trace + 2 ≤ vec_capacity store.old.trace }
    requires space { HasSpace todo.old }
    ensures { Does (acts.drained party (world_of store.old) mark) store.new todo.old.items todo.new.items }
{
    match mark {
        Mark::Urgent => todo.push_reserved(Op::Closing(ClosingOp::Drain(Mark::Plain))),
        Mark::Plain => store.trace.push_reserved(Event::DropEnded { party }),
    }
}
