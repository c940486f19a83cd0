//! How a sleeper is told.
ghost use Rattle.std.specs.Prelude.{◌≡◌};
ghost use Rattle.executor_model.specs.ActsOfSleepers as sleepers;
ghost use Rattle.executor_model.specs.Doing as doing;
ghost use Rattle.executor_model.specs.Good.{SleeperNeeds};
ghost use Rattle.executor_core.specs.Views.{world_of, HasRoom, HasSpace, Does};

use crate::act::waker::call_waker;
use crate::store::Store;
use executor_model::{Op, Polled, SleeperOp, TickOrRun};

/// The party does this to tell a sleeper that there is something to do.
pub fn act(store: &mut Store, todo: &mut Vec<Op>, party: u32, op: SleeperOp)
    requires room { HasRoom store.old }
    requires space { HasSpace todo.old }
    requires needs { SleeperNeeds (world_of store.old) op }
    ensures { Does (doing.sleeper_act party op (world_of store.old)) store.new todo.old.items todo.new.items }
{
    match op {
        SleeperOp::ExchangeFlag => exchange_flag(store, todo),
        SleeperOp::HandOut => hand_out(store, todo),
        SleeperOp::CallSleeper(s) => {
            call_waker(store, todo, party, polled_as(s.who), s.waker, s.poll)
        }
    }
}

/// What a poll was of in which someone fell asleep.
fn polled_as(who: TickOrRun) -> Polled
    ensures { result ≡ sleepers.polled_as who }
{
    match who {
        TickOrRun::Tick(t) => Polled::Tick(t),
        TickOrRun::Run(r) => Polled::Run(r),
    }
}

/// The flag is exchanged, and who has won hands out.
fn exchange_flag(store: &mut Store, todo: &mut Vec<Op>)
    requires room { HasRoom store.old }
    requires space { HasSpace todo.old }
    ensures { Does (sleepers.exchange_flag (world_of store.old)) store.new todo.old.items todo.new.items }
{
    if store.ticks_and_runs.flagged_sleepers.exchange_flag() {
        todo.push_reserved(Op::Sleeper(SleeperOp::HandOut));
    }
}

/// The waker that was added last is taken, to be called, where no sleeper is notified.
fn hand_out(store: &mut Store, todo: &mut Vec<Op>)
    requires room { HasRoom store.old }
    requires space { HasSpace todo.old }
    ensures { Does (sleepers.hand_out (world_of store.old)) store.new todo.old.items todo.new.items }
{
    match store.ticks_and_runs.flagged_sleepers.hand_out() {
        Some(sleeping) => todo.push_reserved(Op::Sleeper(SleeperOp::CallSleeper(sleeping))),
        None => {}
    }
}
