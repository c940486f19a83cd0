//! What a move of a task owes becomes what the party has still to do.
ghost use Rattle.std.specs.Prelude.{◌≡◌, ◌≢◌, ℕ, ◌+◌, ◌-◌, ◌^◌, ◌<◌, ◌≤◌, ◌&&◌, true, false, not, Some, None};
ghost use Rattle.std.specs.Prelude.{List, [], ◌∷◌, ◌++◌, length};
ghost use Rattle.std.specs.Prelude.{reverse, vec_len, vec_capacity};
ghost use Rattle.task_moves.specs.Moves as moves;
ghost use Rattle.executor_model.specs.Carried as carried;
ghost use Rattle.executor_model.specs.World.{task, without, among, awaiter_of};
ghost use Rattle.executor_model.specs.Good.{IsKnown, CanGrow, IsHeld, HasPlace, KeepsAwaiter, IsKnownWaker, CanWake};
ghost use Rattle.executor_core.specs.Views.{world_of, HasRoom, HasRoomToEnd, HasSpace, Does};

use crate::store::Store;
use crate::table::Entries;
use executor_model::{HandleOp, Op, QueueOp, TableOp, UserOp};
use task_moves::ScheduleInfo;
use task_moves::moves::{self, AwaiterDebt, FutureDebt, Move, Moved, Owed, State};

fn push_schedule(todo: &mut Vec<Op>, f: u64, debt: Option<ScheduleInfo>)
    requires space { vec_len todo.old + 1 ≤ vec_capacity todo.old }
    ensures items { todo.new.items ≡ todo.old.items ++ reverse (carried.schedule_ops f debt) }
{
    match debt {
        Some(_) => todo.push_reserved(Op::Queue(QueueOp::Append(f))),
        None => {}
    }
}

fn push_future(todo: &mut Vec<Op>, entries: &Entries, f: u64, debt: Option<FutureDebt>)
    requires space { vec_len todo.old + 2 ≤ vec_capacity todo.old }
    ensures items { todo.new.items ≡ todo.old.items ++ reverse (carried.future_ops (among f entries.now.table) f debt) }
    ensures space { vec_len todo.new + 1 ≤ vec_capacity todo.new }
{
    match debt {
        Some(FutureDebt::PollFuture) => todo.push_reserved(Op::Table(TableOp::TakeToPoll(f))),
        Some(FutureDebt::DropFuture) => {
            if entries.contains(f) {
                todo.push_reserved(Op::Table(TableOp::TakeToDrop(f)));
            }
        }
        None => {}
    }
}

fn push_output(todo: &mut Vec<Op>, f: u64, dropped: bool)
    requires space { vec_len todo.old + 3 ≤ vec_capacity todo.old }
    ensures items { todo.new.items ≡ todo.old.items ++ reverse (carried.output_ops dropped f) }
    ensures space { vec_len todo.new + 2 ≤ vec_capacity todo.new }
{
    if dropped {
        todo.push_reserved(Op::User(UserOp::BeginDropOutput(f)));
    }
}

/// What is to do about the awaiter of a task that has moved.
pub fn push_awaiter(todo: &mut Vec<Op>, f: u64, debt: Option<AwaiterDebt>)
    requires space { vec_len todo.old + 4 ≤ vec_capacity todo.old }
    ensures items { todo.new.items ≡ todo.old.items ++ reverse (carried.awaiter_ops f debt) }
    ensures space { vec_len todo.new + 3 ≤ vec_capacity todo.new }
{
    match debt {
        Some(AwaiterDebt::NotifyAwaiter) => todo.push_reserved(Op::Handle(HandleOp::Notify(
            f, false,
        ))),
        Some(AwaiterDebt::NotifyOther) => todo.push_reserved(Op::Handle(HandleOp::Notify(f, true))),
        Some(AwaiterDebt::CallGiven) => {}
        Some(AwaiterDebt::StoreCopy) => {}
        Some(AwaiterDebt::CallStored) => {}
        Some(AwaiterDebt::TakeAwaiter) => {}
        Some(AwaiterDebt::CallTaken) => {}
        None => {}
    }
}

fn push_next(todo: &mut Vec<Op>, f: u64, kind: Option<Move>)
    requires space { vec_len todo.old + 5 ≤ vec_capacity todo.old }
    ensures items { todo.new.items ≡ todo.old.items ++ reverse (carried.next_ops f kind) }
    ensures space { vec_len todo.new + 4 ≤ vec_capacity todo.new }
{
    match kind {
        Some(Move::Release) => todo.push_reserved(Op::Move(Move::Release, f)),
        Some(Move::SettleClosed) => todo.push_reserved(Op::Move(Move::SettleClosed, f)),
        Some(Move::GiveUp) => todo.push_reserved(Op::Move(Move::GiveUp, f)),
        Some(Move::EndClosed) => todo.push_reserved(Op::Move(Move::EndClosed, f)),
        Some(Move::Detach) => todo.push_reserved(Op::Move(Move::Detach, f)),
        _ => {}
    }
}

/// The cell is emptied as the future is dropped, and its awaiter goes.
fn push_emptied(todo: &mut Vec<Op>, f: u64, owed: Owed)
    requires space { vec_len todo.old + 6 ≤ vec_capacity todo.old }
    ensures items { todo.new.items ≡ todo.old.items
        ++ reverse (carried.emptied_ops (owed.empty_cell && carried.drops owed.future) f) }
    ensures space { vec_len todo.new + 5 ≤ vec_capacity todo.new }
{
    match owed.future {
        Some(FutureDebt::DropFuture) => {
            if owed.empty_cell {
                todo.push_reserved(Op::Handle(HandleOp::LetGo(f)));
            }
        }
        Some(FutureDebt::PollFuture) => {}
        None => {}
    }
}

/// The task of this future has moved: its state is stored, and what the move owes is to do.
#[tactic(auto, using(crate::proofs::Owing::reverse_owed))]
pub fn carry_out(store: &mut Store, todo: &mut Vec<Op>, f: u64, moved: Moved)
    requires end { HasRoomToEnd store.old }
    requires space { vec_len todo.old + 6 ≤ vec_capacity todo.old }
    requires known { IsKnown (world_of store.old) f }
    ensures { Does (carried.carried (world_of store.old) f moved) store.new todo.old.items todo.new.items }
{
    store.tasks[f as usize] = moved.state;
    let owed = moved.owed;
    push_emptied(todo, f, owed);
    push_next(todo, f, owed.next);
    push_awaiter(todo, f, owed.awaiter);
    push_output(todo, f, owed.drop_output);
    push_future(todo, &store.entries, f, owed.future);
    push_schedule(todo, f, owed.schedule);
}
