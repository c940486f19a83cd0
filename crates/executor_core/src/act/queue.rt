//! The queues: appends, turns and takes.
ghost use Rattle.std.specs.Prelude.{◌≡◌, ◌≢◌, ℕ, ◌+◌, ◌-◌, ◌^◌, ◌<◌, ◌≤◌, true, false, not, Some, None};
ghost use Rattle.std.specs.Prelude.{List, [], ◌∷◌, ◌++◌, length};
ghost use Rattle.std.specs.Prelude.{reverse, vec_len, vec_capacity};
ghost use Rattle.task_moves.specs.Moves as moves;
ghost use Rattle.executor_model.specs.Acts as acts;
ghost use Rattle.executor_model.specs.Doing as doing;
ghost use Rattle.executor_model.specs.Carried as carried;
ghost use Rattle.executor_parts.specs.Marks.{first_of};
ghost use Rattle.executor_model.specs.declared.op.Look.TheVariants.{First};
ghost use Rattle.executor_model.specs.World.{mark_of};
ghost use Rattle.executor_model.specs.Good.{IsKnown, CanGrow, IsHeld, HasPlace, KeepsAwaiter, IsKnownWaker, CanWake};
ghost use Rattle.executor_core.specs.Views.{world_of, HasRoom, HasRoomToEnd, HasSpace, Does};

use crate::store::Store;
use executor_model::{Event, Hold, Look, Op, QueueOp, Reply, SleeperOp};
use executor_parts::Mark;
use task_moves::moves::Move;

/// The party does this with the executor's queues.
pub fn act(store: &mut Store, todo: &mut Vec<Op>, party: u32, op: QueueOp)
    requires room { HasRoom store.old }
    requires space { HasSpace todo.old }
    ensures { Does (doing.queue_act party op (world_of store.old)) store.new todo.old.items todo.new.items }
{
    match op {
        QueueOp::TakeTurn => {
            let look = take_turn(store, party);
            todo.push_reserved(Op::Queue(QueueOp::Take(look)));
        }
        QueueOp::Take(look) => take_first(store, todo, look),
        QueueOp::Append(f) => append(store, todo, f),
    }
}

/// A turn is taken, which names the queue that is looked at first, and is told of.
pub fn take_turn(store: &mut Store, party: u32) -> Look
    requires room { HasRoom store.old }
    ensures look { result ≡ First (first_of store.old.urgent_turns) }
    ensures world { world_of store.new ≡ acts.turned party (world_of store.old) }
    ensures room { HasRoomToEnd store.new }
{
    let mark = if store.urgent_turns == 0 {
        store.urgent_turns = 7;
        Mark::Plain
    } else {
        store.urgent_turns -= 1;
        Mark::Urgent
    };
    store.trace.push_reserved(Event::Looked { party, mark });
    Look::First(mark)
}

/// The mark of the queue that is looked at.
pub fn mark_in(look: Look) -> Mark
    ensures { result ≡ acts.mark_in look }
{
    match look {
        Look::First(mark) => mark,
        Look::Second(mark) => mark,
    }
}

/// A Runnable goes to the queue of its future's mark, and a sleeper is told; or it comes back and is dropped.
fn append(store: &mut Store, todo: &mut Vec<Op>, f: u64)
    requires room { HasRoom store.old }
    requires space { HasSpace todo.old }
    ensures { Does (acts.append (world_of store.old) f) store.new todo.old.items todo.new.items }
{
    let mark = mark_of(store, f);
    if !store.queues.is_closed(mark) && store.queues.len(mark) < store.entries.limit() {
        store.queues.append(mark, f);
        todo.push_reserved(Op::Sleeper(SleeperOp::ExchangeFlag));
    } else {
        todo.push_reserved(Op::Move(Move::DropRunnable, f));
    }
}

/// The mark of this future.
fn mark_of(store: &Store, f: u64) -> Mark
    ensures { result ≡ mark_of (world_of store.now) f }
{
    match store.marks.get(f as usize) {
        Some(mark) => *mark,
        None => Mark::Plain,
    }
}

/// The first Runnable is taken, where there is one, and another sleeper is told before it is run. Else the other queue is looked
/// at, where that was not done.
fn take_first(store: &mut Store, todo: &mut Vec<Op>, look: Look)
    requires room { HasRoom store.old }
    requires space { HasSpace todo.old }
    ensures { Does (acts.take_first (world_of store.old) look) store.new todo.old.items todo.new.items }
{
    match store.queues.take(mark_in(look)) {
        Some(f) => {
            todo.push_reserved(Op::End(Reply::Yes, Hold::Executor));
            todo.push_reserved(Op::Move(Move::TakeUp, f));
            todo.push_reserved(Op::Sleeper(SleeperOp::ExchangeFlag));
        }
        None => todo.push_reserved(match look {
            Look::First(mark) => Op::Queue(QueueOp::Take(Look::Second(mark.other()))),
            Look::Second(_) => Op::End(Reply::No, Hold::Executor),
        }),
    }
}
