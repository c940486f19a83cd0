//! The making of ticks, and how ticks and runs search, fall asleep, wake up and leave.
ghost use Rattle.std.specs.Prelude.{◌≡◌, ◌+◌, ◌≤◌, ◌++◌, reverse, vec_len, vec_capacity};
ghost use Rattle.executor_model.specs.ActsOfSleepers as sleepers;
ghost use Rattle.executor_model.specs.Doing as doing;
ghost use Rattle.executor_model.specs.Good.{IsKnownWaker, TickNeeds};
ghost use Rattle.executor_core.specs.WakingUp.{passed_on, wakes_up};
ghost use Rattle.executor_core.specs.Views.{world_of, HasRoom, HasSpace, Does};

use crate::act::queue::{mark_in, take_turn};
use crate::act::waker::{copy, push_goes};
use crate::search::search_own;
use crate::store::Store;
use crate::ticks::FellAsleep;
use executor_model::{
    Hint, Hold, Look, Op, Reply, RunOp, RunPoll, SleeperOp, Sleeping, TickOp, TickOrRun,
};
use task_moves::moves::Move;

/// The party does this part of the making of a tick, or of a poll or the drop of a tick or run.
pub fn act(store: &mut Store, todo: &mut Vec<Op>, party: u32, hint: Hint, op: TickOp)
    requires room { HasRoom store.old }
    requires space { HasSpace todo.old }
    requires needs { TickNeeds (world_of store.old) op }
    ensures { Does (doing.tick_act party hint op (world_of store.old)) store.new todo.old.items todo.new.items }
{
    match op {
        TickOp::MakeTick => make_tick(store, todo, hint),
        TickOp::Search(s) => search(store, todo, party, s),
        TickOp::Look(s, look) => look_tick(store, todo, s, look),
        TickOp::CopyWaker(s) => copy_waker(store, todo, hint, s),
        TickOp::FallAsleep(s) => fall_asleep(store, todo, s),
        TickOp::WakeUp(who) => wake_up(store, todo, who),
        TickOp::Leave(who) => leave(store, todo, who),
    }
}

/// A tick is made, where memory is not refused.
fn make_tick(store: &mut Store, todo: &mut Vec<Op>, hint: Hint)
    requires room { HasRoom store.old }
    requires space { HasSpace todo.old }
    ensures { Does (sleepers.make_tick_by hint.refused (world_of store.old)) store.new todo.old.items todo.new.items }
{
    if hint.refused {
        todo.push_reserved(Op::End(Reply::NoMemory, Hold::Executor));
        return;
    }
    store.ticks_and_runs.ticks.push();
    store.ticks_and_runs.flagged_sleepers.add_room();
    todo.push_reserved(Op::End(Reply::Made, Hold::Executor));
}

/// Who is polled, and stays so until the call has ended.
fn held_as(who: TickOrRun) -> Hold
    ensures { result ≡ sleepers.held_as who }
{
    match who {
        TickOrRun::Tick(t) => Hold::Tick(t),
        TickOrRun::Run(r) => Hold::Run(r),
    }
}

/// Who has found something and sleeps wakes up first.
pub fn push_wake_up(todo: &mut Vec<Op>, sleeps: bool, who: TickOrRun)
    requires space { vec_len todo.old + 1 ≤ vec_capacity todo.old }
    ensures items { todo.new.items ≡ todo.old.items ++ reverse (wakes_up sleeps who) }
    ensures capacity { vec_capacity todo.new ≡ vec_capacity todo.old }
    ensures len { vec_len todo.new ≤ vec_len todo.old + 1 }
{
    if sleeps {
        todo.push_reserved(Op::Tick(TickOp::WakeUp(who)));
    }
}

/// It searches from the beginning: a tick takes a turn, and a run looks at its own queue.
fn search(store: &mut Store, todo: &mut Vec<Op>, party: u32, s: Sleeping)
    requires room { HasRoom store.old }
    requires space { HasSpace todo.old }
    ensures { Does (doing.search party (world_of store.old) s) store.new todo.old.items todo.new.items }
{
    match s.who {
        TickOrRun::Tick(_) => {
            let look = take_turn(store, party);
            todo.push_reserved(Op::Tick(TickOp::Look(s, look)));
        }
        TickOrRun::Run(r) => search_own(
            store,
            todo,
            RunPoll {
                run: r,
                waker: s.waker,
                poll: s.poll,
            },
        ),
    }
}

/// The poll of a tick takes the first Runnable, where there is one, tells another sleeper, and runs it. Else it looks at the
/// other queue, where that was not done, and then it falls asleep.
fn look_tick(store: &mut Store, todo: &mut Vec<Op>, s: Sleeping, look: Look)
    requires room { HasRoom store.old }
    requires space { HasSpace todo.old }
    ensures { Does (sleepers.look_tick (world_of store.old) s look) store.new todo.old.items todo.new.items }
{
    let Some(f) = store.queues.take(mark_in(look)) else {
        todo.push_reserved(match look {
            Look::First(mark) => Op::Tick(TickOp::Look(s, Look::Second(mark.other()))),
            Look::Second(_) => Op::Tick(TickOp::CopyWaker(s)),
        });
        return;
    };
    let sleeps = store.ticks_and_runs.sleeps(s.who);
    todo.push_reserved(Op::End(Reply::Ready, held_as(s.who)));
    todo.push_reserved(Op::Move(Move::TakeUp, f));
    todo.push_reserved(Op::Sleeper(SleeperOp::ExchangeFlag));
    push_wake_up(todo, sleeps, s.who);
}

/// The waker is copied, to fall asleep with.
fn copy_waker(store: &mut Store, todo: &mut Vec<Op>, hint: Hint, s: Sleeping)
    requires room { HasRoom store.old }
    requires space { HasSpace todo.old }
    requires needs { IsKnownWaker (world_of store.old) s.waker }
    ensures { Does (sleepers.copy_sleeper hint (world_of store.old) s) store.new todo.old.items todo.new.items }
{
    if copy(store, hint, s.waker) {
        todo.push_reserved(Op::End(Reply::NoMemory, held_as(s.who)));
        return;
    }
    todo.push_reserved(Op::Tick(TickOp::FallAsleep(s)));
}

/// The poll has nothing to answer yet.
fn push_pending(todo: &mut Vec<Op>, who: TickOrRun)
    requires space { vec_len todo.old + 3 ≤ vec_capacity todo.old }
    ensures items { todo.new.items ≡ todo.old.items ++ reverse (sleepers.pend_as who) }
    ensures space { vec_len todo.new + 2 ≤ vec_capacity todo.new }
{
    todo.push_reserved(Op::End(Reply::Pending, held_as(who)));
}

/// What one fell asleep with goes, and isn't called.
fn push_sleeper_goes(todo: &mut Vec<Op>, old: Option<Sleeping>)
    requires space { vec_len todo.old + 2 ≤ vec_capacity todo.old }
    ensures items { todo.new.items ≡ todo.old.items ++ reverse (sleepers.sleeper_goes old) }
    ensures space { vec_len todo.new + 1 ≤ vec_capacity todo.new }
{
    match old {
        Some(old) => push_goes(todo, old.waker),
        None => {}
    }
}

/// It falls asleep, or falls asleep again. Where it fell asleep anew, or had been told, the poll searches once more.
fn fall_asleep(store: &mut Store, todo: &mut Vec<Op>, s: Sleeping)
    requires room { HasRoom store.old }
    requires space { HasSpace todo.old }
    ensures { Does (sleepers.fall_asleep (world_of store.old) s) store.new todo.old.items todo.new.items }
{
    match store.ticks_and_runs.fall_asleep(s) {
        FellAsleep::Searches => todo.push_reserved(Op::Tick(TickOp::Search(s))),
        FellAsleep::Rests(old) => {
            push_pending(todo, s.who);
            push_sleeper_goes(todo, old);
        }
        FellAsleep::Nowhere => {
            push_pending(todo, s.who);
            todo.push_reserved(Op::Sleeper(SleeperOp::CallSleeper(s)));
        }
    }
}

/// It wakes up.
fn wake_up(store: &mut Store, todo: &mut Vec<Op>, who: TickOrRun)
    requires room { HasRoom store.old }
    requires space { HasSpace todo.old }
    ensures { Does (sleepers.wake_up (world_of store.old) who) store.new todo.old.items todo.new.items }
{
    let old = store.ticks_and_runs.wake_up(who);
    push_sleeper_goes(todo, old);
}

/// One that slept has left: another is told in its place, where it had been told, and then its room is given back.
fn push_passed_on(todo: &mut Vec<Op>, slept: bool, told: bool)
    requires space { vec_len todo.old + 4 ≤ vec_capacity todo.old }
    ensures items { todo.new.items ≡ todo.old.items ++ reverse (passed_on slept told) }
    ensures space { vec_len todo.new + 2 ≤ vec_capacity todo.new }
{
    if !slept {
        return;
    }
    todo.push_reserved(Op::Run(RunOp::ReturnRoom));
    if told {
        todo.push_reserved(Op::Sleeper(SleeperOp::ExchangeFlag));
    }
}

/// It leaves the sleepers. If it had been told, another is told in its place. Where it slept, its room is given back after that.
fn leave(store: &mut Store, todo: &mut Vec<Op>, who: TickOrRun)
    requires room { HasRoom store.old }
    requires space { HasSpace todo.old }
    ensures { Does (sleepers.leave_sleepers (world_of store.old) who) store.new todo.old.items todo.new.items }
{
    let slept = store.ticks_and_runs.sleeps(who);
    let (old, told) = store.ticks_and_runs.leave(who);
    push_passed_on(todo, slept, told);
    push_sleeper_goes(todo, old);
}
