//! What a call changes as it begins.
ghost use Rattle.std.specs.Prelude.{◌≡◌, ◌≢◌, ℕ, ◌+◌, ◌-◌, ◌^◌, ◌<◌, ◌≤◌};
ghost use Rattle.std.specs.Prelude.{◌==◌, ◌++◌, true, false, not, Some, None};
ghost use Rattle.std.specs.Prelude.{List, [], ◌∷◌};
ghost use Rattle.std.specs.Prelude.{length, map, reverse, vec_len, vec_capacity};
ghost use Rattle.executor_model.specs.Steps as steps;
ghost use Rattle.executor_model.specs.Weights as weights;
ghost use Rattle.executor_model.specs.Weights.{weigh, weigh_all};
ghost use Rattle.executor_model.specs.World.{done, put_run, run_of, task};
ghost use Rattle.executor_model.specs.Good.{Needs, Fits};
ghost use Rattle.executor_core.specs.Kinds.{is_on_part, is_on_run, is_on_kept, is_on_handle};
ghost use Rattle.executor_core.specs.Views.{world_of, HasRoom, HasRoomToEnd, HasSpace, Does};

use crate::possible::kept;
use crate::runs::Stage;
use crate::store::Store;
use executor_model::{
    By, Call, ClosingOp, Event, HandleOp, Hold, ListOp, Op, QueueOp, Reply, RunOp, RunPoll,
    Section, Sleeping, TableOp, TickOp, TickOrRun, UserOp, Waker, WakerOp,
};
use task_moves::moves::Move;

fn waker_of(here: Option<Waker>, by: By) -> Waker
    ensures { result ≡ steps.waker_of here by }
{
    match by {
        By::Outside(x) => Waker::Outside(x),
        By::Mine => match here {
            Some(waker) => waker,
            None => Waker::Outside(0),
        },
    }
}

/// The kept waker is used up.
fn use_up(store: &mut Store, k: u64)
    ensures world { world_of store.new ≡ steps.used_up (world_of store.old) k }
    ensures room { HasRoom store.old → HasRoom store.new }
    ensures end { HasRoomToEnd store.old → HasRoomToEnd store.new }
{
    if k < store.wakers.len() as u64 {
        store.wakers[k as usize] = None;
    }
}

/// A call begins: first those on the executor, and on the waker of the poll in which the party stands.
pub fn begin(store: &mut Store, todo: &mut Vec<Op>, party: u32, here: Option<Waker>, call: Call)
    requires room { vec_len store.old.trace + 2 ≤ vec_capacity store.old.trace }
    requires space { HasSpace todo.old }
    ensures { Does (steps.begun party (world_of store.old) here call) store.new todo.old.items todo.new.items }
{
    match call {
        Call::Spawn(mark) => todo.push_reserved(Op::Table(TableOp::Enter(mark))),
        Call::TryTick => todo.push_reserved(Op::Queue(QueueOp::TakeTurn)),
        Call::IsEmpty => todo.push_reserved(Op::Table(TableOp::LookAtTable)),
        Call::Leak => {
            todo.push_reserved(Op::End(Reply::Done, Hold::Leaking));
            todo.push_reserved(Op::Closing(ClosingOp::LeakOut));
        }
        Call::DropExecutor => {
            store.gone = true;
            store.trace.push_reserved(Event::DropBegun { party });
            todo.push_reserved(Op::End(Reply::Done, Hold::Nothing));
            todo.push_reserved(Op::Closing(ClosingOp::TakeOut));
        }
        Call::Keep => {
            if let Some(Waker::Task(f)) = here {
                todo.push_reserved(Op::Waker(WakerOp::CopyWaker(f, Hold::Nothing)));
            }
        }
        Call::WakeSelf => {
            if let Some(Waker::Task(f)) = here {
                todo.push_reserved(Op::End(Reply::Done, Hold::Nothing));
                todo.push_reserved(Op::Move(Move::WakeByReference, f));
            }
        }
        _ => begin_on_tick(store, todo, party, here, call),
    }
}

/// A tick is to be made, or a call on a tick begins.
fn begin_on_tick(store: &mut Store, todo: &mut Vec<Op>, party: u32, here: Option<Waker>, call: Call)
    requires kind { is_on_part call ≡ true }
    requires room { vec_len store.old.trace + 2 ≤ vec_capacity store.old.trace }
    requires space { HasSpace todo.old }
    ensures { Does (steps.begun party (world_of store.old) here call) store.new todo.old.items todo.new.items }
{
    match call {
        Call::NewTick => todo.push_reserved(Op::Tick(TickOp::MakeTick)),
        Call::PollTick(t, by) => {
            let sleeping = Sleeping {
                waker: waker_of(here, by),
                who: TickOrRun::Tick(t),
                poll: store.trace.len() as u64,
            };
            store
                .trace
                .push_reserved(Event::TickPolled { party, tick: t });
            todo.push_reserved(Op::Tick(TickOp::Search(sleeping)));
        }
        Call::DropTick(t) => {
            store
                .trace
                .push_reserved(Event::TickDropped { party, tick: t });
            todo.push_reserved(Op::End(Reply::Done, Hold::Tick(t)));
            todo.push_reserved(Op::Tick(TickOp::Leave(TickOrRun::Tick(t))));
        }
        _ => begin_on_run(store, todo, party, here, call),
    }
}

/// A run is to be made, or a call on a run begins.
fn begin_on_run(store: &mut Store, todo: &mut Vec<Op>, party: u32, here: Option<Waker>, call: Call)
    requires kind { is_on_run call ≡ true }
    requires room { vec_len store.old.trace + 2 ≤ vec_capacity store.old.trace }
    requires space { HasSpace todo.old }
    ensures { Does (steps.begun party (world_of store.old) here call) store.new todo.old.items todo.new.items }
{
    match call {
        Call::NewRun => todo.push_reserved(Op::Run(RunOp::MakeRoom)),
        Call::PollRun(r, by) => {
            let polled = RunPoll {
                run: r,
                waker: waker_of(here, by),
                poll: store.trace.len() as u64,
            };
            store
                .trace
                .push_reserved(Event::RunPolled { party, run: r });
            begin_poll_of_run(store, todo, polled);
        }
        Call::DropRun(r) => {
            store
                .trace
                .push_reserved(Event::RunDropped { party, run: r });
            begin_drop_of_run(store, todo, r);
        }
        _ => begin_on_waker(store, todo, party, here, call),
    }
}

/// The first poll of a run registers its queue, and each polls its own future. One that was ready before has nothing to
/// do.
fn begin_poll_of_run(store: &Store, todo: &mut Vec<Op>, x: RunPoll)
    requires space { HasSpace todo.old }
    ensures { todo.new.items ≡ todo.old.items ++ reverse (steps.poll_run (run_of (world_of store.now) x.run).stage x) }
{
    match store.ticks_and_runs.runs.stage(x.run) {
        Stage::New => todo.push_reserved(Op::List(ListOp::LockWrite(Section::Register(x)))),
        Stage::Listed => todo.push_reserved(Op::User(UserOp::PollOwn(x))),
        Stage::Ended => todo.push_reserved(Op::End(Reply::Finished, Hold::Run(x.run))),
    }
}

/// A run that is dropped drops its own future, where that was not ready, takes its queue from the list, where it is
/// there, schedules what is left in it, and leaves the sleepers.
fn begin_drop_of_run(store: &mut Store, todo: &mut Vec<Op>, r: u64)
    requires room { HasRoomToEnd store.old }
    requires space { HasSpace todo.old }
    ensures { Does
        (done (put_run (world_of store.old) r (record (run_of (world_of store.old) r) { dropped = true }))
        (steps.drop_run (run_of (world_of store.old) r).stage r))
        store.new todo.old.items todo.new.items }
{
    let stage = store.ticks_and_runs.runs.stage(r);
    store.ticks_and_runs.runs.begin_drop(r);
    match stage {
        Stage::New => {
            todo.push_reserved(Op::Run(RunOp::Reschedule(r, Reply::Done)));
            todo.push_reserved(Op::User(UserOp::DropOwn(r)));
        }
        Stage::Listed => {
            let leaves = Section::Unregister(r, Reply::Done);
            todo.push_reserved(Op::List(ListOp::LockWrite(leaves)));
            todo.push_reserved(Op::User(UserOp::DropOwn(r)));
        }
        Stage::Ended => {
            todo.push_reserved(Op::End(Reply::Done, Hold::Run(r)));
            todo.push_reserved(Op::Tick(TickOp::Leave(TickOrRun::Run(r))));
        }
    }
}

/// A call on a kept waker begins, or one on a handle.
fn begin_on_waker(
    store: &mut Store,
    todo: &mut Vec<Op>,
    party: u32,
    here: Option<Waker>,
    call: Call,
)
    requires kind { is_on_kept call ≡ true }
    requires room { vec_len store.old.trace + 2 ≤ vec_capacity store.old.trace }
    requires space { HasSpace todo.old }
    ensures { Does (steps.begun party (world_of store.old) here call) store.new todo.old.items todo.new.items }
{
    match call {
        Call::Wake(k) => {
            if let Some(f) = kept(store, k) {
                use_up(store, k);
                todo.push_reserved(Op::End(Reply::Done, Hold::Nothing));
                todo.push_reserved(Op::Move(Move::Wake, f));
            }
        }
        Call::DropWaker(k) => {
            if let Some(f) = kept(store, k) {
                use_up(store, k);
                todo.push_reserved(Op::End(Reply::Done, Hold::Nothing));
                todo.push_reserved(Op::Move(Move::Release, f));
            }
        }
        Call::WakeByRef(k) => {
            if let Some(f) = kept(store, k) {
                todo.push_reserved(Op::End(Reply::Done, Hold::Waker(k)));
                todo.push_reserved(Op::Move(Move::WakeByReference, f));
            }
        }
        Call::Copy(k) => {
            if let Some(f) = kept(store, k) {
                todo.push_reserved(Op::Waker(WakerOp::CopyWaker(f, Hold::Waker(k))));
            }
        }
        _ => begin_on_handle(store, todo, party, here, call),
    }
}

/// A call on a handle begins.
fn begin_on_handle(
    store: &mut Store,
    todo: &mut Vec<Op>,
    party: u32,
    here: Option<Waker>,
    call: Call,
)
    requires kind { is_on_handle call ≡ true }
    requires room { vec_len store.old.trace + 2 ≤ vec_capacity store.old.trace }
    requires space { HasSpace todo.old }
    ensures { Does (steps.begun party (world_of store.old) here call) store.new todo.old.items todo.new.items }
{
    match call {
        Call::PollHandle(f, by) => todo.push_reserved(Op::Handle(HandleOp::Look(
            f,
            waker_of(here, by),
        ))),
        Call::Cancel(f) => {
            todo.push_reserved(Op::End(Reply::Done, Hold::Handle(f)));
            todo.push_reserved(Op::Move(Move::Cancel, f));
        }
        Call::Detach(f) => {
            todo.push_reserved(Op::End(Reply::Done, Hold::Handle(f)));
            todo.push_reserved(Op::Move(Move::Detach, f));
        }
        Call::DropHandle(f) => {
            todo.push_reserved(Op::End(Reply::Done, Hold::Handle(f)));
            todo.push_reserved(Op::Move(Move::Detach, f));
            todo.push_reserved(Op::Move(Move::Cancel, f));
        }
        _ => unreachable!(),
    }
}
