//! Polls of a handle, with their registers and notifies.
ghost use Rattle.std.specs.Prelude.{◌≡◌, ◌≢◌, ℕ, ◌+◌, ◌-◌, ◌^◌, ◌<◌, ◌≤◌, true, false, not, Some, None};
ghost use Rattle.std.specs.Prelude.{List, [], ◌∷◌, ◌++◌, length};
ghost use Rattle.std.specs.Prelude.{reverse, vec_len, vec_capacity};
ghost use Rattle.task_moves.specs.Moves as moves;
ghost use Rattle.executor_model.specs.Acts as acts;
ghost use Rattle.executor_model.specs.Doing as doing;
ghost use Rattle.executor_model.specs.Carried as carried;
ghost use Rattle.executor_model.specs.World.{task, without, among, awaiter_of};
ghost use Rattle.executor_model.specs.Good.{IsKnown, CanGrow, IsHeld, HasPlace, KeepsAwaiter};
ghost use Rattle.executor_model.specs.Good.{IsKnownWaker, CanWake, HandleNeeds};
ghost use Rattle.executor_core.specs.Views.{world_of, HasRoom, HasRoomToEnd, HasSpace, Does};

use crate::act::waker::{copy, push_goes};
use crate::carry::push_awaiter;
use crate::store::Store;
use executor_model::{Awaiter, Event, HandleOp, Hint, Hold, Op, Reply, Waker, WakerOp};
use task_moves::moves::{self, Answer, Moved, State};

/// The party does this part of a poll of a handle, or of a notify.
pub fn act(store: &mut Store, todo: &mut Vec<Op>, party: u32, hint: Hint, op: HandleOp)
    requires room { HasRoom store.old }
    requires space { HasSpace todo.old }
    requires needs { HandleNeeds (world_of store.old) op }
    ensures { Does (doing.handle_act party hint op (world_of store.old)) store.new todo.old.items todo.new.items }
{
    match op {
        HandleOp::Look(f, waker) => look(store, todo, party, f, waker),
        HandleOp::CopyAwaiter(f, waker) => copy_awaiter(store, todo, party, hint, f, waker),
        HandleOp::Register(f, waker, poll) => register(store, todo, f, waker, poll),
        HandleOp::EndRegister(f, waker, poll) => end_register(store, todo, f, waker, poll),
        HandleOp::LookAgain(f) => look_again(store, todo, party, f),
        HandleOp::Notify(f, mine) => notify(store, todo, f, mine),
        HandleOp::EndNotify(f, mine) => end_notify(store, todo, hint, f, mine),
        HandleOp::LetGo(f) => let_go_emptied(store, todo, f),
    }
}

fn reply_of(answer: Answer) -> Reply
    ensures { result ≡ acts.reply_of answer }
{
    match answer {
        Answer::Refused => Reply::NoMemory,
        Answer::Pending => Reply::Pending,
        Answer::Closed => Reply::Cancelled,
        Answer::Output => Reply::Ready,
    }
}

/// The poll of a handle ends with this answer, and pays what it owes first.
fn answered(store: &mut Store, todo: &mut Vec<Op>, party: u32, f: u64, moved: Moved, answer: Answer)
    requires room { vec_len store.old.trace + 2 ≤ vec_capacity store.old.trace }
    requires space { HasSpace todo.old }
    requires known { IsKnown (world_of store.old) f }
    ensures { Does (acts.answered party (world_of store.old) f moved answer) store.new todo.old.items todo.new.items }
{
    store.tasks[f as usize] = moved.state;
    match answer {
        Answer::Output => store
            .trace
            .push_reserved(Event::OutputGiven { party, future: f }),
        Answer::Refused => {}
        Answer::Pending => {}
        Answer::Closed => {}
    }
    todo.push_reserved(Op::End(reply_of(answer), Hold::Handle(f)));
    push_awaiter(todo, f, moved.owed.awaiter);
}

/// A poll of the handle looks.
fn look(store: &mut Store, todo: &mut Vec<Op>, party: u32, f: u64, waker: Waker)
    requires room { HasRoom store.old }
    requires space { HasSpace todo.old }
    requires needs { IsKnown (world_of store.old) f }
    ensures { Does (acts.look party (world_of store.old) f waker) store.new todo.old.items todo.new.items }
{
    let moved = moves::poll(store.tasks[f as usize]);
    match moved.owed.answer {
        Some(answer) => {
            store
                .trace
                .push_reserved(Event::HandlePolled { party, future: f });
            answered(store, todo, party, f, moved, answer);
        }
        None => todo.push_reserved(Op::Handle(HandleOp::CopyAwaiter(f, waker))),
    }
}

/// The waker is copied, to be registered.
fn copy_awaiter(store: &mut Store, todo: &mut Vec<Op>, party: u32, hint: Hint, f: u64, waker: Waker)
    requires room { HasRoom store.old }
    requires space { HasSpace todo.old }
    requires needs { IsKnownWaker (world_of store.old) waker }
    ensures { Does (acts.copy_awaiter party hint (world_of store.old) f waker) store.new todo.old.items todo.new.items }
{
    if copy(store, hint, waker) {
        todo.push_reserved(Op::End(Reply::NoMemory, Hold::Handle(f)));
        return;
    }
    let poll = store.trace.len() as u64;
    store
        .trace
        .push_reserved(Event::HandlePolled { party, future: f });
    todo.push_reserved(Op::Handle(HandleOp::Register(f, waker, poll)));
}

/// The copy begins to be registered.
fn register(store: &mut Store, todo: &mut Vec<Op>, f: u64, waker: Waker, poll: u64)
    requires room { HasRoom store.old }
    requires space { HasSpace todo.old }
    requires needs { IsKnown (world_of store.old) f }
    ensures { Does (acts.register (world_of store.old) f waker poll) store.new todo.old.items todo.new.items }
{
    let task = &mut store.tasks[f as usize];
    let notifying = task.notifying;
    *task = moves::register(*task).state;
    if notifying {
        todo.push_reserved(Op::Handle(HandleOp::LookAgain(f)));
        todo.push_reserved(Op::Waker(WakerOp::CallAwaiter(f, waker, poll)));
    } else {
        todo.push_reserved(Op::Handle(HandleOp::EndRegister(f, waker, poll)));
    }
}

/// An awaiter goes that isn't called.
fn push_let_go(todo: &mut Vec<Op>, awaiter: Option<Awaiter>)
    requires space { vec_len todo.old + 2 ≤ vec_capacity todo.old }
    ensures items { todo.new.items ≡ todo.old.items ++ reverse (acts.let_go awaiter) }
    ensures space { vec_len todo.new + 1 ≤ vec_capacity todo.new }
{
    match awaiter {
        Some(awaiter) => push_goes(todo, awaiter.waker),
        None => {}
    }
}

/// The copy is stored, or called where somebody wanted to notify meanwhile. The old awaiter goes.
#[tactic(auto, using(crate::proofs::Owing::reverse_before))]
fn end_register(store: &mut Store, todo: &mut Vec<Op>, f: u64, waker: Waker, poll: u64)
    requires room { HasRoom store.old }
    requires space { HasSpace todo.old }
    requires needs { KeepsAwaiter (world_of store.old) f }
    ensures { Does (acts.end_register (world_of store.old) f waker poll) store.new todo.old.items todo.new.items }
{
    let task = &mut store.tasks[f as usize];
    let notifying = task.notifying;
    *task = moves::end_register(*task).state;
    let awaiter = &mut store.awaiters[f as usize];
    let old = *awaiter;
    *awaiter = if notifying {
        None
    } else {
        Some(Awaiter { waker, poll })
    };
    todo.push_reserved(Op::Handle(HandleOp::LookAgain(f)));
    push_let_go(todo, old);
    if notifying {
        todo.push_reserved(Op::Waker(WakerOp::CallAwaiter(f, waker, poll)));
    }
}

/// A poll of the handle looks again.
fn look_again(store: &mut Store, todo: &mut Vec<Op>, party: u32, f: u64)
    requires room { HasRoom store.old }
    requires space { HasSpace todo.old }
    requires needs { IsKnown (world_of store.old) f }
    ensures { Does (acts.look_again party (world_of store.old) f) store.new todo.old.items todo.new.items }
{
    let moved = moves::look_again(store.tasks[f as usize]);
    match moved.owed.answer {
        Some(answer) => answered(store, todo, party, f, moved, answer),
        None => {}
    }
}

/// The awaiter is notified, where nobody else is at it.
fn notify(store: &mut Store, todo: &mut Vec<Op>, f: u64, mine: bool)
    requires room { HasRoom store.old }
    requires space { HasSpace todo.old }
    requires needs { IsKnown (world_of store.old) f }
    ensures { Does (acts.notify (world_of store.old) f mine) store.new todo.old.items todo.new.items }
{
    let task = &mut store.tasks[f as usize];
    let busy = task.notifying || task.registering;
    *task = moves::notify(*task).state;
    if !busy {
        todo.push_reserved(Op::Handle(HandleOp::EndNotify(f, mine)));
    }
}

/// The cell of a task without handle is emptied, and its awaiter goes uncalled.
fn let_go_emptied(store: &mut Store, todo: &mut Vec<Op>, f: u64)
    requires room { HasRoom store.old }
    requires space { HasSpace todo.old }
    requires needs { KeepsAwaiter (world_of store.old) f }
    ensures { Does (acts.let_go_emptied (world_of store.old) f) store.new todo.old.items todo.new.items }
{
    let task = &mut store.tasks[f as usize];
    if task.handle {
        return;
    }
    *task = State {
        awaiter: false,
        ..*task
    };
    let awaiter = &mut store.awaiters[f as usize];
    let old = *awaiter;
    *awaiter = None;
    push_let_go(todo, old);
}

/// The awaiter is taken out, to be called.
fn end_notify(store: &mut Store, todo: &mut Vec<Op>, hint: Hint, f: u64, mine: bool)
    requires room { HasRoom store.old }
    requires space { HasSpace todo.old }
    requires needs { KeepsAwaiter (world_of store.old) f }
    ensures { Does (acts.end_notify hint (world_of store.old) f mine) store.new todo.old.items todo.new.items }
{
    let task = &mut store.tasks[f as usize];
    *task = moves::end_notify(*task).state;
    let awaiter = &mut store.awaiters[f as usize];
    let old = *awaiter;
    *awaiter = None;
    match old {
        Some(Awaiter { waker, poll }) => {
            if mine && hint.same {
                push_let_go(todo, old);
            } else {
                todo.push_reserved(Op::Waker(WakerOp::CallAwaiter(f, waker, poll)));
            }
        }
        None => {}
    }
}
