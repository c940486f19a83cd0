//! Copies of wakers, and calls of awaiters.
ghost use Rattle.std.specs.Prelude.{◌≡◌, ◌≢◌, ℕ, ◌+◌, ◌-◌, ◌^◌, ◌<◌, ◌≤◌, true, false, not, Some, None};
ghost use Rattle.std.specs.Prelude.{List, [], ◌∷◌, ◌++◌, length};
ghost use Rattle.std.specs.Prelude.{reverse, vec_len, vec_capacity};
ghost use Rattle.task_moves.specs.Moves as moves;
ghost use Rattle.executor_model.specs.Acts as acts;
ghost use Rattle.executor_model.specs.ActsOfRuns as runs;
ghost use Rattle.executor_model.specs.Doing as doing;
ghost use Rattle.executor_model.specs.Carried as carried;
ghost use Rattle.executor_model.specs.World.{task, without, among, awaiter_of};
ghost use Rattle.executor_model.specs.Good.{IsKnown, CanGrow, IsHeld, HasPlace, KeepsAwaiter};
ghost use Rattle.executor_model.specs.Good.{IsKnownWaker, CanWake, WakerNeeds};
ghost use Rattle.executor_core.specs.Views.{world_of, HasRoom, HasRoomToEnd, HasSpace, Does};

use crate::act::task::move_task;
use crate::store::Store;
use executor_model::{Event, Hint, Hold, Op, Polled, Reply, UserOp, Waker, WakerOp};
use task_moves::moves::{MOST_REFERENCES, Move, State};

/// The party does this with a waker.
pub fn act(store: &mut Store, todo: &mut Vec<Op>, party: u32, hint: Hint, op: WakerOp)
    requires room { HasRoom store.old }
    requires space { HasSpace todo.old }
    requires needs { WakerNeeds (world_of store.old) op }
    ensures { Does (doing.waker_act party hint op (world_of store.old)) store.new todo.old.items todo.new.items }
{
    match op {
        WakerOp::CopyWaker(f, held) => copy_waker(store, todo, hint, f, held),
        WakerOp::CallAwaiter(f, waker, poll) => {
            call_waker(store, todo, party, Polled::Handle(f), waker, poll)
        }
    }
}

/// A copy is refused, or there are too many references.
fn is_refused(hint: Hint, state: State) -> bool
    ensures { result ≡ acts.is_refused hint state }
{
    hint.refused || state.references >= MOST_REFERENCES
}

/// The copy of a waker of a task is one more reference. Answers whether it was refused.
pub fn copy(store: &mut Store, hint: Hint, waker: Waker) -> bool
    requires { IsKnownWaker (world_of store.old) waker }
    ensures refused { result ≡ acts.is_copy_refused hint (world_of store.old) waker }
    ensures same { result ≡ true → world_of store.new ≡ world_of store.old }
    ensures copied { result ≡ false → world_of store.new ≡ acts.copied (world_of store.old) waker }
    ensures room { HasRoom store.old → HasRoom store.new }
{
    match waker {
        Waker::Task(g) => {
            let task = &mut store.tasks[g as usize];
            if is_refused(hint, *task) {
                return true;
            }
            task.references += 1;
            false
        }
        Waker::Outside(_) => hint.refused,
    }
}

/// A copy of a waker is asked for, and kept.
fn copy_waker(store: &mut Store, todo: &mut Vec<Op>, hint: Hint, f: u64, held: Hold)
    requires room { HasRoom store.old }
    requires space { HasSpace todo.old }
    requires needs { IsKnown (world_of store.old) f }
    ensures { Does (acts.copy_waker hint (world_of store.old) f held) store.new todo.old.items todo.new.items }
{
    let task = &mut store.tasks[f as usize];
    if is_refused(hint, *task) {
        todo.push_reserved(Op::End(Reply::NoMemory, held));
        return;
    }
    task.references += 1;
    store.wakers.push_reserved(Some(f));
    todo.push_reserved(Op::End(Reply::Made, held));
}

/// A waker that a poll was given, and that was taken out of where it was kept, is called.
pub fn call_waker(
    store: &mut Store,
    todo: &mut Vec<Op>,
    party: u32,
    polled: Polled,
    waker: Waker,
    poll: u64,
)
    requires room { HasRoom store.old }
    requires space { HasSpace todo.old }
    requires needs { CanWake (world_of store.old) waker }
    ensures { Does (acts.call_waker party (world_of store.old) polled waker poll)
        store.new todo.old.items todo.new.items }
{
    store.trace.push_reserved(Event::WakerCalled {
        party,
        polled,
        poll,
        waker,
    });
    match waker {
        Waker::Task(g) => move_task(store, todo, party, Move::Wake, g),
        Waker::Outside(x) => todo.push_reserved(Op::User(UserOp::CallOutside(x))),
    }
}

/// A waker is called, and stays.
pub fn call_by_reference(store: &mut Store, todo: &mut Vec<Op>, party: u32, waker: Waker)
    requires room { vec_len store.old.trace + 3 ≤ vec_capacity store.old.trace }
    requires space { vec_len todo.old + 6 ≤ vec_capacity todo.old }
    requires needs { CanWake (world_of store.old) waker }
    ensures { Does (runs.call_by_reference party (world_of store.old) waker) store.new todo.old.items todo.new.items }
{
    match waker {
        Waker::Task(g) => move_task(store, todo, party, Move::WakeByReference, g),
        Waker::Outside(x) => todo.push_reserved(Op::User(UserOp::CallOutside(x))),
    }
}

/// A waker goes that isn't called.
pub fn push_goes(todo: &mut Vec<Op>, waker: Waker)
    requires space { vec_len todo.old + 2 ≤ vec_capacity todo.old }
    ensures items { todo.new.items ≡ todo.old.items ++ reverse (acts.waker_goes waker) }
    ensures space { vec_len todo.new + 1 ≤ vec_capacity todo.new }
{
    match waker {
        Waker::Task(g) => todo.push_reserved(Op::Move(Move::Release, g)),
        Waker::Outside(_) => {}
    }
}
