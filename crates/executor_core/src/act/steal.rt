//! How a run steals.
ghost use Rattle.std.specs.Prelude.{◌≡◌, ◌+◌, ◌≤◌, [], ◌∷◌, IfNone, IfSome, length, vec_len, vec_capacity};
ghost use Rattle.executor_model.specs.ActsOfRuns as runs;
ghost use Rattle.executor_model.specs.Doing as doing;
ghost use Rattle.executor_core.specs.Walks as walks;
ghost use Rattle.executor_core.specs.Views.{world_of, HasRoom, HasRoomToEnd, HasSpace, Does};

use crate::found::{asleep, push_found, push_run};
use crate::store::Store;
use executor_model::{Event, ListOp, Op, RunOp, Source, Steal, StealOp, Then, TickOp};
use executor_parts::Mark;
use task_moves::moves::Move;

/// The party does this part of a steal.
pub fn act(store: &mut Store, todo: &mut Vec<Op>, party: u32, op: StealOp)
    requires room { HasRoom store.old }
    requires space { HasSpace todo.old }
    ensures { Does (doing.steal_act party op (world_of store.old)) store.new todo.old.items todo.new.items }
{
    match op {
        StealOp::Length(s) => read_length(store, todo, s),
        StealOp::OwnLength(s, n) => own_length(store, todo, s, n),
        StealOp::Take(s, more) => take(store, todo, s, more),
        StealOp::Put(s, more, f) => put(store, todo, party, s, more, f),
    }
}

/// The steal has ended, and the run goes on.
fn end(store: &mut Store, todo: &mut Vec<Op>, s: Steal)
    requires room { HasRoomToEnd store.old }
    requires space { HasSpace todo.old }
    ensures does { Does (runs.stolen s.then (world_of store.old) s.poll) store.new todo.old.items todo.new.items }
    ensures capacity { vec_capacity todo.new ≡ vec_capacity todo.old }
    ensures len { vec_len todo.new ≤ vec_len todo.old + 4 }
{
    match s.then {
        Then::Found(f) => push_found(store, todo, s.poll, f),
        Then::StealPlain(f) => todo.push_reserved(Op::Steal(StealOp::Length(Steal {
            poll: s.poll,
            from: Source::Common(Mark::Plain),
            then: Then::Run(f),
        }))),
        Then::Run(f) => push_run(store, todo, s.poll, f),
        Then::Walk(at, left) => { todo.push_reserved(Op::Run(RunOp::LookOwn(s.poll, at, left))) }
    }
}

/// How many Runnables stand in the source.
fn source_len(store: &Store, from: Source) -> u64
    ensures { result ≡ length (runs.source_of (world_of store.now) from) }
{
    match from {
        Source::Common(mark) => store.queues.len(mark),
        Source::Own(r) => store.ticks_and_runs.runs.own_len(r),
    }
}

/// The first Runnable of the source is taken, where there is one.
fn take_first(store: &mut Store, from: Source) -> Option<u64>
    ensures none { IfNone result ((runs.source_of (world_of store.old) from ≡ [])
        × (world_of store.new ≡ world_of store.old)) }
    ensures some { IfSome result (λ f. runs.source_of (world_of store.old) from
        ≡ f ∷ runs.source_of (world_of store.new) from) }
    ensures rest { IfSome result (λ f. world_of store.new
        ≡ runs.without_first (world_of store.old) from (runs.source_of (world_of store.new) from)) }
    ensures room { HasRoomToEnd store.old → HasRoomToEnd store.new }
{
    match from {
        Source::Common(mark) => store.queues.take(mark),
        Source::Own(r) => store.ticks_and_runs.runs.take(r),
    }
}

/// The length of the source is read, and where that is 0 the steal has ended.
fn read_length(store: &mut Store, todo: &mut Vec<Op>, s: Steal)
    requires room { HasRoom store.old }
    requires space { HasSpace todo.old }
    ensures { Does (runs.steal_length (world_of store.old) s) store.new todo.old.items todo.new.items }
{
    let n = source_len(store, s.from);
    if n == 0 {
        end(store, todo, s);
    } else {
        todo.push_reserved(Op::Steal(StealOp::OwnLength(s, n)));
    }
}

/// About half of so many, at most as many as places are free.
fn share(n: u64, free: u64) -> u64
    ensures { result ≡ runs.share n free }
{
    let half = n / 2 + n % 2;
    if half < free { half } else { free }
}

/// So many are to be moved; where it is none the steal has ended.
fn go_on(store: &mut Store, todo: &mut Vec<Op>, s: Steal, left: u64)
    requires room { HasRoomToEnd store.old }
    requires space { HasSpace todo.old }
    ensures { Does (runs.steal_by left (world_of store.old) s) store.new todo.old.items todo.new.items }
{
    if left == 0 {
        end(store, todo, s);
    } else {
        todo.push_reserved(Op::Steal(StealOp::Take(s, left - 1)));
    }
}

/// The length of the own queue is read.
fn own_length(store: &mut Store, todo: &mut Vec<Op>, s: Steal, n: u64)
    requires room { HasRoom store.old }
    requires space { HasSpace todo.old }
    ensures { Does (runs.steal_own_length (world_of store.old) s n) store.new todo.old.items todo.new.items }
{
    let free = store.ticks_and_runs.runs.free_places(s.poll.run);
    go_on(store, todo, s, share(n, free));
}

/// The first Runnable of the source is taken; where there is none the steal has ended.
fn take(store: &mut Store, todo: &mut Vec<Op>, s: Steal, more: u64)
    requires room { HasRoom store.old }
    requires space { HasSpace todo.old }
    ensures { Does (runs.steal_take (world_of store.old) s more) store.new todo.old.items todo.new.items }
{
    match take_first(store, s.from) {
        Some(f) => todo.push_reserved(Op::Steal(StealOp::Put(s, more, f))),
        None => end(store, todo, s),
    }
}

/// It is appended to the own queue, where a place is free.
fn put(store: &mut Store, todo: &mut Vec<Op>, party: u32, s: Steal, more: u64, f: u64)
    requires room { HasRoom store.old }
    requires space { HasSpace todo.old }
    ensures { Does (runs.steal_put party (world_of store.old) s more f) store.new todo.old.items todo.new.items }
{
    let kept = store.ticks_and_runs.runs.append(s.poll.run, f);
    if kept {
        store.trace.push_reserved(Event::Kept {
            party,
            future: f,
            run: s.poll.run,
        });
        go_on(store, todo, s, more);
    } else {
        put_refused(store, todo, s, f);
    }
}

/// Whether the steal is part of a walk.
fn is_walk(then: Then) -> bool
    ensures { result ≡ walks.is_walk then }
{
    match then {
        Then::Walk(_, _) => true,
        Then::Found(_) => false,
        Then::StealPlain(_) => false,
        Then::Run(_) => false,
    }
}

/// A full own queue gave it back, which never happens: the steal ends, and it is dropped once no lock is held. A walk ends
/// with it, and the run searches anew.
fn put_refused(store: &mut Store, todo: &mut Vec<Op>, s: Steal, f: u64)
    requires room { HasRoomToEnd store.old }
    requires space { HasSpace todo.old }
    ensures { Does (runs.put_refused s.then (world_of store.old) s.poll f) store.new todo.old.items todo.new.items }
{
    let walks = is_walk(s.then);
    if walks {
        todo.push_reserved(Op::Tick(TickOp::Search(asleep(s.poll))));
        todo.push_reserved(Op::Move(Move::DropRunnable, f));
        todo.push_reserved(Op::List(ListOp::UnlockRead));
    } else {
        end(store, todo, s);
        todo.push_reserved(Op::Move(Move::DropRunnable, f));
    }
}
