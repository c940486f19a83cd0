//! What the calls in progress use.
ghost use Rattle.std.specs.Prelude.{◌≡◌, ◌≢◌, ℕ, ◌+◌, ◌-◌, ◌^◌, ◌<◌, ◌≤◌};
ghost use Rattle.std.specs.Prelude.{◌==◌, true, false, not, Some, None};
ghost use Rattle.std.specs.Prelude.{List, [], ◌∷◌, ◌++◌};
ghost use Rattle.std.specs.Prelude.{length, map, reverse, vec_len, vec_capacity};
ghost use Rattle.executor_model.specs.Steps as steps;
ghost use Rattle.executor_model.specs.Rows as rows;
ghost use Rattle.executor_model.specs.Weights as weights;
ghost use Rattle.executor_model.specs.Weights.{weigh, weigh_all};
ghost use Rattle.executor_model.specs.World.{task};
ghost use Rattle.executor_core.specs.Uses as uses;
ghost use Rattle.executor_core.specs.Views.{world_of, HasRoom, HasRoomToEnd, HasSpace, Does};

use executor_model::{
    HandleOp, Hold, ListOp, Op, QueueOp, RunOp, Section, StealOp, TableOp, TickOp, TickOrRun,
    UserOp, WakerOp,
};
use task_moves::moves::Move;

/// Something that a call may use, and another may not use meanwhile.
#[derive(Clone, Copy)]
pub enum Use {
    Executor,
    Handle(u64),
    Waker(u64),
    Tick(u64),
    Run(u64),
    /// The executor, which no other call may use meanwhile.
    Leak,
}

/// The call uses the executor.
fn holds_executor(held: Hold) -> bool
    ensures { result ≡ not (weights.holds_executor held == 0) }
{
    match held {
        Hold::Executor => true,
        Hold::Spawned(_) => true,
        Hold::Tick(_) => true,
        Hold::Run(_) => true,
        Hold::Leaking => false,
        Hold::Nothing => false,
        Hold::Handle(_) => false,
        Hold::Waker(_) => false,
    }
}

/// It uses the handle of this future.
#[tactic(auto, using(crate::proofs::Scans::same_test))]
fn holds_handle(held: Hold, f: u64) -> bool
    ensures { result ≡ not (weights.holds_handle f held == 0) }
{
    match held {
        Hold::Spawned(g) => f == g,
        Hold::Handle(g) => f == g,
        Hold::Nothing => false,
        Hold::Executor => false,
        Hold::Waker(_) => false,
        Hold::Tick(_) => false,
        Hold::Run(_) => false,
        Hold::Leaking => false,
    }
}

/// It uses this kept waker.
#[tactic(auto, using(crate::proofs::Scans::same_test))]
fn holds_waker(held: Hold, k: u64) -> bool
    ensures { result ≡ not (weights.holds_waker k held == 0) }
{
    match held {
        Hold::Waker(j) => k == j,
        Hold::Nothing => false,
        Hold::Executor => false,
        Hold::Spawned(_) => false,
        Hold::Handle(_) => false,
        Hold::Tick(_) => false,
        Hold::Run(_) => false,
        Hold::Leaking => false,
    }
}

/// It uses this tick.
#[tactic(auto, using(crate::proofs::Scans::same_test))]
fn holds_tick(held: Hold, t: u64) -> bool
    ensures { result ≡ not (weights.holds_tick t held == 0) }
{
    match held {
        Hold::Tick(u) => t == u,
        Hold::Nothing => false,
        Hold::Executor => false,
        Hold::Spawned(_) => false,
        Hold::Handle(_) => false,
        Hold::Waker(_) => false,
        Hold::Run(_) => false,
        Hold::Leaking => false,
    }
}

/// It uses this run.
#[tactic(auto, using(crate::proofs::Scans::same_test))]
fn holds_run(held: Hold, r: u64) -> bool
    ensures { result ≡ not (weights.holds_run r held == 0) }
{
    match held {
        Hold::Run(q) => r == q,
        Hold::Nothing => false,
        Hold::Executor => false,
        Hold::Spawned(_) => false,
        Hold::Handle(_) => false,
        Hold::Waker(_) => false,
        Hold::Tick(_) => false,
        Hold::Leaking => false,
    }
}

/// It is a leak.
fn is_leak(held: Hold) -> bool
    ensures { result ≡ not (weights.holds_leak held == 0) }
{
    match held {
        Hold::Leaking => true,
        Hold::Nothing => false,
        Hold::Executor => false,
        Hold::Spawned(_) => false,
        Hold::Handle(_) => false,
        Hold::Waker(_) => false,
        Hold::Tick(_) => false,
        Hold::Run(_) => false,
    }
}

/// It uses this.
fn holds(held: Hold, what: Use) -> bool
    ensures { result ≡ not (uses.held_of what held == 0) }
{
    match what {
        Use::Executor => holds_executor(held),
        Use::Handle(f) => holds_handle(held, f),
        Use::Waker(k) => holds_waker(held, k),
        Use::Tick(t) => holds_tick(held, t),
        Use::Run(r) => holds_run(held, r),
        Use::Leak => is_leak(held),
    }
}

fn borrows_in_tick(op: TickOp) -> bool
    ensures { result ≡ not ((rows.tick_row op).borrowing == 0) }
{
    match op {
        TickOp::MakeTick => true,
        TickOp::Search(_) => true,
        TickOp::Look(_, _) => true,
        TickOp::CopyWaker(_) => true,
        TickOp::FallAsleep(_) => true,
        TickOp::WakeUp(_) => false,
        TickOp::Leave(_) => false,
    }
}

fn borrows_in_section(section: Section) -> bool
    ensures { result ≡ not ((rows.section_row section).borrowing == 0) }
{
    match section {
        Section::MakeRun => true,
        Section::Register(_) => true,
        Section::Unregister(_, _) => true,
    }
}

fn borrows_in_list(op: ListOp) -> bool
    ensures { result ≡ not ((rows.list_row op).borrowing == 0) }
{
    match op {
        ListOp::LockWrite(section) => borrows_in_section(section),
        ListOp::Write(section) => borrows_in_section(section),
        ListOp::UnlockWrite => false,
        ListOp::LockRead(_) => true,
        ListOp::UnlockRead => false,
    }
}

fn borrows(op: Op) -> bool
    ensures { result ≡ not (rows.borrowing_of op == 0) }
{
    match op {
        Op::Table(TableOp::Enter(_)) => true,
        Op::Queue(QueueOp::TakeTurn) => true,
        Op::Queue(QueueOp::Take(_)) => true,
        Op::Table(TableOp::LookAtTable) => true,
        Op::Move(Move::TakeUp, _) => true,
        Op::Table(TableOp::TakeToPoll(_)) => true,
        Op::User(UserOp::Poll(_)) => true,
        Op::Table(TableOp::PutBack(_)) => true,
        Op::Move(Move::EndPending, _) => true,
        Op::Move(Move::EndReady, _) => true,
        Op::Waker(WakerOp::CopyWaker(_, held)) => holds(held, Use::Executor),
        Op::User(UserOp::PollOwn(_)) => true,
        Op::Tick(op) => borrows_in_tick(op),
        Op::List(op) => borrows_in_list(op),
        Op::Steal(_) => true,
        Op::Run(RunOp::ReturnRoom) => false,
        Op::Run(_) => true,
        Op::End(_, held) => holds(held, Use::Executor),
        _ => false,
    }
}

#[tactic(auto, using(crate::proofs::Scans::same_test))]
fn handles(op: Op, f: u64) -> bool
    ensures { result ≡ not (rows.handling_of f op == 0) }
{
    match op {
        Op::Handle(HandleOp::Look(g, _)) => f == g,
        Op::Handle(HandleOp::CopyAwaiter(g, _)) => f == g,
        Op::Handle(HandleOp::Register(g, _, _)) => f == g,
        Op::Handle(HandleOp::EndRegister(g, _, _)) => f == g,
        Op::Handle(HandleOp::LookAgain(g)) => f == g,
        Op::End(_, held) => holds(held, Use::Handle(f)),
        _ => false,
    }
}

fn lends(op: Op, k: u64) -> bool
    ensures { result ≡ not (rows.lending_of k op == 0) }
{
    match op {
        Op::Waker(WakerOp::CopyWaker(_, held)) => holds(held, Use::Waker(k)),
        Op::End(_, held) => holds(held, Use::Waker(k)),
        _ => false,
    }
}

/// Who is polled in this is the tick.
#[tactic(auto, using(crate::proofs::Scans::same_test))]
fn is_tick(who: TickOrRun, t: u64) -> bool
    ensures { result ≡ not (weights.is_tick t who == 0) }
{
    match who {
        TickOrRun::Tick(u) => t == u,
        TickOrRun::Run(_) => false,
    }
}

fn ticks(op: Op, t: u64) -> bool
    ensures { result ≡ not (rows.ticking_of t op == 0) }
{
    match op {
        Op::Tick(TickOp::Search(s)) => is_tick(s.who, t),
        Op::Tick(TickOp::Look(s, _)) => is_tick(s.who, t),
        Op::Tick(TickOp::CopyWaker(s)) => is_tick(s.who, t),
        Op::Tick(TickOp::FallAsleep(s)) => is_tick(s.who, t),
        Op::End(_, held) => holds(held, Use::Tick(t)),
        _ => false,
    }
}

/// Who is polled in this is the run.
#[tactic(auto, using(crate::proofs::Scans::same_test))]
fn is_run(who: TickOrRun, r: u64) -> bool
    ensures { result ≡ not (weights.is_run r who == 0) }
{
    match who {
        TickOrRun::Run(q) => r == q,
        TickOrRun::Tick(_) => false,
    }
}

/// The run's queue comes into the list or goes from it.
#[tactic(auto, using(crate::proofs::Scans::same_test))]
fn is_section_of(section: Section, r: u64) -> bool
    ensures { result ≡ not ((rows.section_row section).running r == 0) }
{
    match section {
        Section::MakeRun => false,
        Section::Register(x) => r == x.run,
        Section::Unregister(q, _) => r == q,
    }
}

/// The run does this with the list of queues.
#[tactic(auto, using(crate::proofs::Scans::same_test))]
fn lists(op: ListOp, r: u64) -> bool
    ensures { result ≡ not ((rows.list_row op).running r == 0) }
{
    match op {
        ListOp::LockWrite(section) => is_section_of(section, r),
        ListOp::Write(section) => is_section_of(section, r),
        ListOp::UnlockWrite => false,
        ListOp::LockRead(x) => r == x.run,
        ListOp::UnlockRead => false,
    }
}

/// It is the run that steals.
#[tactic(auto, using(crate::proofs::Scans::same_test))]
fn steals(op: StealOp, r: u64) -> bool
    ensures { result ≡ not ((rows.steal_row op).running r == 0) }
{
    match op {
        StealOp::Length(s) => r == s.poll.run,
        StealOp::OwnLength(s, _) => r == s.poll.run,
        StealOp::Take(s, _) => r == s.poll.run,
        StealOp::Put(s, _, _) => r == s.poll.run,
    }
}

/// This is what the run alone does.
#[tactic(auto, using(crate::proofs::Scans::same_test))]
fn is_of(op: RunOp, r: u64) -> bool
    ensures { result ≡ not ((rows.run_row op).running r == 0) }
{
    match op {
        RunOp::MakeRoom => false,
        RunOp::ReturnRoom => false,
        RunOp::TakeTurn(x) => r == x.run,
        RunOp::SearchCommon(x, _) => r == x.run,
        RunOp::LookOwn(x, _, _) => r == x.run,
        RunOp::WakeOwn(x) => r == x.run,
        RunOp::Reschedule(q, _) => r == q,
    }
}

#[tactic(auto, using(crate::proofs::Scans::same_test))]
fn runs(op: Op, r: u64) -> bool
    ensures { result ≡ not (rows.running_of r op == 0) }
{
    match op {
        Op::User(UserOp::PollOwn(x)) => r == x.run,
        Op::Tick(TickOp::Search(s)) => is_run(s.who, r),
        Op::Tick(TickOp::Look(s, _)) => is_run(s.who, r),
        Op::Tick(TickOp::CopyWaker(s)) => is_run(s.who, r),
        Op::Tick(TickOp::FallAsleep(s)) => is_run(s.who, r),
        Op::List(op) => lists(op, r),
        Op::Steal(op) => steals(op, r),
        Op::Run(op) => is_of(op, r),
        Op::End(_, held) => holds(held, Use::Run(r)),
        _ => false,
    }
}

fn leaks(op: Op) -> bool
    ensures { result ≡ not (rows.leaking_of op == 0) }
{
    match op {
        Op::End(_, held) => holds(held, Use::Leak),
        _ => false,
    }
}

fn uses(op: Op, what: Use) -> bool
    ensures { result ≡ not (uses.use_of what op == 0) }
{
    match what {
        Use::Executor => borrows(op),
        Use::Handle(f) => handles(op, f),
        Use::Waker(k) => lends(op, k),
        Use::Tick(t) => ticks(op, t),
        Use::Run(r) => runs(op, r),
        Use::Leak => leaks(op),
    }
}

fn is_unused_by(todo: &[Op], what: Use) -> bool
    ensures { result ≡ (weigh (uses.use_of what) todo.now == 0) }
{
    for op in todo {
        if uses(*op, what) {
            return false;
        }
    }
    true
}

/// Whether no call in progress uses it.
pub fn is_unused(parties: &[Vec<Op>], what: Use) -> bool
    ensures { result ≡ steps.is_unused (uses.use_of what) (map (λ v. v.items) parties.now) }
{
    for todo in parties {
        if !is_unused_by(todo, what) {
            return false;
        }
    }
    true
}
