//! A party's part of a step: what a call changes as it begins, and what follows the end of user code.
ghost use Rattle.std.specs.Prelude.{◌≡◌, ◌≢◌, ℕ, ◌+◌, ◌-◌, ◌^◌, ◌<◌, ◌≤◌};
ghost use Rattle.std.specs.Prelude.{◌==◌, ◌++◌, true, false, not, Some, None};
ghost use Rattle.std.specs.Prelude.{List, [], ◌∷◌};
ghost use Rattle.std.specs.Prelude.{length, map, reverse, vec_len, vec_capacity};
ghost use Rattle.executor_model.specs.Steps as steps;
ghost use Rattle.executor_model.specs.Weights as weights;
ghost use Rattle.executor_model.specs.Weights.{weigh, weigh_all};
ghost use Rattle.executor_model.specs.World.{task};
ghost use Rattle.executor_model.specs.Good.{Needs, Fits};
ghost use Rattle.executor_core.specs.Kinds.{is_on_part, is_on_kept, is_on_handle};
ghost use Rattle.executor_core.specs.Views.{world_of, HasRoom, HasRoomToEnd, HasSpace, Does};

use crate::act::act;
use crate::begin::begin;
use crate::found::asleep;
use crate::possible::given;
use crate::store::Store;
use executor_model::{
    Answer, Event, ListOp, Op, Reply, RunPoll, Section, Step, TableOp, TickOp, UserEnd, UserOp,
};
use task_moves::moves::Move;

/// The poll of a future has ended.
fn react_polled(store: &mut Store, todo: &mut Vec<Op>, party: u32, f: u64, end: UserEnd)
    requires room { HasRoom store.old }
    requires space { HasSpace todo.old }
    ensures { Does (steps.react party (Op.User (UserOp.Poll f)) end (world_of store.old))
        store.new todo.old.items todo.new.items }
{
    match end {
        UserEnd::Polled(Answer::Pending) => {
            store.trace.push_reserved(Event::Answered {
                party,
                future: f,
                answer: Answer::Pending,
            });
            todo.push_reserved(Op::Table(TableOp::PutBack(f)));
        }
        UserEnd::Polled(Answer::Ready) => {
            store.trace.push_reserved(Event::Answered {
                party,
                future: f,
                answer: Answer::Ready,
            });
            todo.push_reserved(Op::Move(Move::EndReady, f));
            todo.push_reserved(Op::User(UserOp::BeginDrop(f)));
        }
        UserEnd::Done => {}
    }
}

/// The poll of a run's own future has ended: the run searches, or it leaves.
fn react_own(store: &mut Store, todo: &mut Vec<Op>, x: RunPoll, end: UserEnd)
    requires room { HasRoom store.old }
    requires space { HasSpace todo.old }
    ensures { (p : ℕ) → Does (steps.react p (Op.User (UserOp.PollOwn x)) end (world_of store.old))
        store.new todo.old.items todo.new.items }
{
    match end {
        UserEnd::Polled(Answer::Pending) => todo.push_reserved(Op::Tick(TickOp::Search(asleep(x)))),
        UserEnd::Polled(Answer::Ready) => {
            let leaves = Section::Unregister(x.run, Reply::Ready);
            todo.push_reserved(Op::List(ListOp::LockWrite(leaves)));
            todo.push_reserved(Op::User(UserOp::DropOwn(x.run)));
        }
        UserEnd::Done => {}
    }
}

/// User code has ended.
fn react(store: &mut Store, todo: &mut Vec<Op>, party: u32, op: Op, end: UserEnd)
    requires room { HasRoom store.old }
    requires space { HasSpace todo.old }
    ensures { Does (steps.react party op end (world_of store.old)) store.new todo.old.items todo.new.items }
{
    match op {
        Op::User(UserOp::Poll(f)) => react_polled(store, todo, party, f, end),
        Op::User(UserOp::PollOwn(x)) => react_own(store, todo, x, end),
        _ => {}
    }
}

/// A call whose end is all that is left of it ends.
fn settle(store: &mut Store, todo: &mut Vec<Op>, party: u32)
    requires { HasRoomToEnd store.old }
    ensures { record { world = world_of store.new; todo = todo.new.items } ≡ steps.settled party (world_of store.old) todo.old.items }
{
    if let Some(Op::End(reply, _)) = todo.last().copied() {
        todo.pop();
        store.trace.push_reserved(Event::CallEnded { party, reply });
    }
}

/// The party's part of a step that is possible.
pub fn take_part(store: &mut Store, todo: &mut Vec<Op>, step: Step)
    requires fits { Fits (world_of store.old) }
    requires room { HasRoom store.old }
    requires space { HasSpace todo.old }
    requires needs { (op : Op) → steps.top todo.old.items ≡ Some op → Needs (world_of store.old) op }
    ensures { record { world = world_of store.new; todo = todo.new.items } ≡ steps.part_after (world_of store.old) todo.old.items step }
{
    match step {
        Step::Begin { party, call } => {
            let here = given(todo.last().copied());
            store.trace.push_reserved(Event::CallBegun { party, call });
            begin(store, todo, party, here, call);
            settle(store, todo, party);
        }
        Step::Go { party, hint } => {
            if let Some(op) = todo.pop() {
                act(store, todo, party, hint, op);
                settle(store, todo, party);
            }
        }
        Step::Answer { party, end } => {
            if let Some(op) = todo.pop() {
                react(store, todo, party, op, end);
                settle(store, todo, party);
            }
        }
    }
}
