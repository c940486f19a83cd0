//! The moves of a task that stand alone.
ghost use Rattle.std.specs.Prelude.{◌≡◌, ◌≢◌, ℕ, ◌+◌, ◌-◌, ◌^◌, ◌<◌, ◌≤◌, true, false, not, Some, None};
ghost use Rattle.std.specs.Prelude.{List, [], ◌∷◌, ◌++◌, length};
ghost use Rattle.std.specs.Prelude.{reverse, vec_len, vec_capacity};
ghost use Rattle.task_moves.specs.Moves as moves;
ghost use Rattle.executor_model.specs.Acts as acts;
ghost use Rattle.executor_model.specs.Carried as carried;
ghost use Rattle.executor_model.specs.World.{task, without, among, awaiter_of};
ghost use Rattle.executor_model.specs.Good.{IsKnown, CanMove, CanGrow, IsHeld, HasPlace, KeepsAwaiter};
ghost use Rattle.executor_model.specs.Good.{IsKnownWaker, CanWake};
ghost use Rattle.executor_core.specs.Views.{world_of, HasRoom, HasRoomToEnd, HasSpace, Does};

use crate::carry::carry_out;
use crate::store::Store;
use executor_model::{Event, Op};
use task_moves::moves::{self, Move, State};

fn state_of(store: &Store, f: u64) -> State
    requires { IsKnown (world_of store.now) f }
    ensures { result ≡ task (world_of store.now) f }
{
    store.tasks[f as usize]
}

/// The moves that stand alone, and are no part of a poll of the handle or of a notify.
fn stands_alone(kind: Move) -> bool
    ensures { result ≡ acts.stands_alone kind }
{
    !matches!(
        kind,
        Move::Copy
            | Move::Poll
            | Move::LookAgain
            | Move::Register
            | Move::EndRegister
            | Move::Notify
            | Move::EndNotify
    )
}

/// Whether such a move of a task in this state is told of.
fn is_told(kind: Move, state: State) -> bool
    ensures { result ≡ acts.is_told kind state }
{
    match kind {
        Move::TakeUp => !state.closed,
        Move::WakeByReference | Move::Wake | Move::Cancel => !(state.completed || state.closed),
        Move::Detach => !(state.completed && !state.closed),
        _ => false,
    }
}

fn told_as(kind: Move, party: u32, future: u64) -> Event
    ensures { result ≡ acts.told_as kind party future }
{
    match kind {
        Move::TakeUp => Event::PollBegun { party, future },
        Move::Cancel => Event::Cancelled { party, future },
        Move::Detach => Event::Detached { party, future },
        _ => Event::Woken { party, future },
    }
}

/// Whether it closes an open task that nobody could wake any more.
fn is_last_waker(kind: Move, state: State) -> bool
    ensures { result ≡ acts.is_last_waker kind state }
{
    let last = state.references == 1 && !state.handle;
    match kind {
        Move::Release => last && !(state.completed || state.closed),
        Move::EndPending => !state.closed && !state.scheduled && last,
        Move::Detach => !(state.completed && !state.closed)
            && state.references == 0
            && !state.closed,
        _ => false,
    }
}

/// The task of this future moves.
pub fn move_task(store: &mut Store, todo: &mut Vec<Op>, party: u32, kind: Move, f: u64)
    requires room { vec_len store.old.trace + 3 ≤ vec_capacity store.old.trace }
    requires space { vec_len todo.old + 6 ≤ vec_capacity todo.old }
    requires needs { CanMove (world_of store.old) kind f }
    ensures { Does (acts.move_task kind party (world_of store.old) f) store.new todo.old.items todo.new.items }
{
    if !stands_alone(kind) {
        return;
    }
    let state = state_of(store, f);
    if is_told(kind, state) {
        store.trace.push_reserved(told_as(kind, party, f));
    }
    if is_last_waker(kind, state) {
        store
            .trace
            .push_reserved(Event::LastWaker { party, future: f });
    }
    carry_out(store, todo, f, moves::after(kind, state));
}

/// The leak calls the waker of this future, and it is told of behind the wake.
pub fn leak_task(store: &mut Store, todo: &mut Vec<Op>, party: u32, f: u64)
    requires room { vec_len store.old.trace + 3 ≤ vec_capacity store.old.trace }
    requires space { vec_len todo.old + 6 ≤ vec_capacity todo.old }
    requires needs { CanGrow (world_of store.old) f }
    ensures { Does (acts.leaked party f (acts.wake party (world_of store.old) f)) store.new todo.old.items todo.new.items }
{
    let state = state_of(store, f);
    if is_told(Move::Wake, state) {
        store.trace.push_reserved(Event::Woken { party, future: f });
    }
    store
        .trace
        .push_reserved(Event::Leaked { party, future: f });
    carry_out(store, todo, f, moves::after(Move::Wake, state));
}
