//! Which steps are possible, and why one isn't.
ghost use Rattle.std.specs.Prelude.{◌≡◌, ◌≢◌, ℕ, ◌+◌, ◌-◌, ◌^◌, ◌<◌, ◌≤◌};
ghost use Rattle.std.specs.Prelude.{◌==◌, true, false, not, Some, None};
ghost use Rattle.std.specs.Prelude.{List, [], ◌∷◌, ◌++◌};
ghost use Rattle.std.specs.Prelude.{length, map, reverse, vec_len, vec_capacity};
ghost use Rattle.executor_model.specs.Steps as steps;
ghost use Rattle.executor_model.specs.Weights as weights;
ghost use Rattle.executor_model.specs.Weights.{weigh, weigh_all};
ghost use Rattle.executor_model.specs.World.{task};
ghost use Rattle.executor_core.specs.Refused.{waits_for_lock};
ghost use Rattle.executor_core.specs.Views.{world_of, HasRoom, HasRoomToEnd, HasSpace, Does};

use crate::store::Store;
use crate::uses::{Use, is_unused};
use executor_model::{By, Call, ListOp, Op, Step, StepError, UserEnd, UserOp, Waker};

/// User code, which must answer first.
pub fn waits(op: Op) -> bool
    ensures { result ≡ steps.waits op }
{
    match op {
        Op::User(UserOp::Poll(_)) => true,
        Op::User(UserOp::Drop(_)) => true,
        Op::User(UserOp::DropOutput(_)) => true,
        Op::User(UserOp::CallOutside(_)) => true,
        Op::User(UserOp::PollOwn(_)) => true,
        Op::User(UserOp::DropOwn(_)) => true,
        _ => false,
    }
}

fn is_free(top: Option<Op>) -> bool
    ensures { result ≡ steps.is_free top }
{
    match top {
        None => true,
        Some(op) => waits(op),
    }
}

/// The waker that the poll was given in which a party is, of a future or of a run's own.
pub fn given(top: Option<Op>) -> Option<Waker>
    ensures { result ≡ steps.mine top }
{
    match top {
        Some(Op::User(UserOp::Poll(f))) => Some(Waker::Task(f)),
        Some(Op::User(UserOp::PollOwn(x))) => Some(x.waker),
        _ => None,
    }
}

/// That waker is one of a task.
fn is_given_task(top: Option<Op>) -> bool
    ensures { result ≡ steps.is_some (steps.future_of (steps.mine top)) }
{
    match given(top) {
        Some(Waker::Task(_)) => true,
        Some(Waker::Outside(_)) => false,
        None => false,
    }
}

/// The future of a kept waker, where that is there.
pub fn kept(store: &Store, k: u64) -> Option<u64>
    ensures { result ≡ steps.kept (world_of store.now) k }
{
    if k < store.wakers.len() as u64 {
        store.wakers[k as usize]
    } else {
        None
    }
}

/// The handle of the future is there, and no call uses it.
pub fn has_handle(store: &Store, parties: &[Vec<Op>], f: u64) -> bool
    ensures { result ≡ steps.has_handle (world_of store.now) (map (λ v. v.items) parties.now) f }
{
    f < store.tasks.len() as u64
        && store.tasks[f as usize].handle
        && is_unused(parties, Use::Handle(f))
}

/// The tick was not dropped, and no call uses it.
fn has_tick(store: &Store, parties: &[Vec<Op>], t: u64) -> bool
    ensures { result ≡ steps.has_tick (world_of store.now) (map (λ v. v.items) parties.now) t }
{
    store.ticks_and_runs.ticks.has(t) && is_unused(parties, Use::Tick(t))
}

/// The run was not dropped, and no call uses it.
fn has_run(store: &Store, parties: &[Vec<Op>], r: u64) -> bool
    ensures { result ≡ steps.has_run (world_of store.now) (map (λ v. v.items) parties.now) r }
{
    store.ticks_and_runs.runs.has(r) && is_unused(parties, Use::Run(r))
}

fn is_known(top: Option<Op>, by: By) -> bool
    ensures { result ≡ steps.is_known top by }
{
    match by {
        By::Mine => given(top).is_some(),
        By::Outside(_) => true,
    }
}

/// What the call speaks of is there.
fn has_all(store: &Store, parties: &[Vec<Op>], top: Option<Op>, call: Call) -> bool
    ensures { result ≡ steps.has_all (world_of store.now) (map (λ v. v.items) parties.now) top call }
{
    match call {
        Call::Spawn(_) => true,
        Call::TryTick => true,
        Call::IsEmpty => true,
        Call::Wake(k) => kept(store, k).is_some() && is_unused(parties, Use::Waker(k)),
        Call::WakeByRef(k) => kept(store, k).is_some(),
        Call::Copy(k) => kept(store, k).is_some(),
        Call::DropWaker(k) => kept(store, k).is_some() && is_unused(parties, Use::Waker(k)),
        Call::Keep => is_given_task(top),
        Call::WakeSelf => is_given_task(top),
        Call::PollHandle(f, by) => has_handle(store, parties, f) && is_known(top, by),
        Call::Cancel(f) => has_handle(store, parties, f),
        Call::Detach(f) => has_handle(store, parties, f),
        Call::DropHandle(f) => has_handle(store, parties, f),
        Call::NewTick => true,
        Call::PollTick(t, by) => has_tick(store, parties, t) && is_known(top, by),
        Call::DropTick(t) => has_tick(store, parties, t),
        Call::NewRun => true,
        Call::PollRun(r, by) => has_run(store, parties, r) && is_known(top, by),
        Call::DropRun(r) => has_run(store, parties, r),
        Call::Leak => true,
        Call::DropExecutor => true,
    }
}

fn is_on_executor(call: Call) -> bool
    ensures { result ≡ steps.is_on_executor call }
{
    match call {
        Call::Spawn(_) => true,
        Call::TryTick => true,
        Call::IsEmpty => true,
        Call::NewTick => true,
        Call::PollTick(_, _) => true,
        Call::DropTick(_) => true,
        Call::NewRun => true,
        Call::PollRun(_, _) => true,
        Call::DropRun(_) => true,
        Call::Leak => true,
        Call::DropExecutor => true,
        _ => false,
    }
}

/// What the owner of the executor alone does.
fn is_owners(call: Call) -> bool
    ensures { result ≡ steps.is_owners call }
{
    match call {
        Call::Leak => true,
        Call::DropExecutor => true,
        _ => false,
    }
}

/// No call in progress uses the executor, and no tick or run lives.
fn is_unborrowed(store: &Store, parties: &[Vec<Op>]) -> bool
    ensures { result ≡ steps.is_unborrowed (world_of store.now) (map (λ v. v.items) parties.now) }
{
    is_unused(parties, Use::Executor)
        && !store.ticks_and_runs.ticks.has_any()
        && !store.ticks_and_runs.runs.has_any()
}

fn begin_refusal(
    store: &Store,
    parties: &[Vec<Op>],
    top: Option<Op>,
    call: Call,
) -> Option<StepError>
    ensures { result ≡ steps.begin_refusal (world_of store.now) (map (λ v. v.items) parties.now) top call }
{
    if !is_free(top) {
        return Some(StepError::Busy);
    }
    if !has_all(store, parties, top, call) {
        return Some(StepError::NoSuch);
    }
    if store.gone && is_on_executor(call) {
        return Some(StepError::Gone);
    }
    if is_on_executor(call) && !is_unused(parties, Use::Leak) {
        return Some(StepError::Gone);
    }
    if is_owners(call) && store.is_static {
        return Some(StepError::Gone);
    }
    if is_owners(call) && !is_unborrowed(store, parties) {
        return Some(StepError::Borrowed);
    }
    None
}

/// The next thing to do takes the lock of the list of queues, which others have.
pub fn go_waits(store: &Store, top: Option<Op>) -> bool
    ensures { result ≡ waits_for_lock (world_of store.now) top }
{
    match top {
        Some(Op::List(ListOp::LockWrite(_))) => store.ticks_and_runs.runs.is_locked(),
        Some(Op::List(ListOp::LockRead(_))) => store.ticks_and_runs.runs.is_locked_to_write(),
        _ => false,
    }
}

fn go_refusal(store: &Store, top: Option<Op>) -> Option<StepError>
    ensures { result ≡ steps.go_refusal (world_of store.now) top }
{
    match top {
        None => Some(StepError::Idle),
        Some(op) => {
            if waits(op) {
                Some(StepError::WrongAnswer)
            } else if go_waits(store, top) {
                Some(StepError::Waits)
            } else {
                None
            }
        }
    }
}

fn accepts(op: Op, end: UserEnd) -> bool
    ensures { result ≡ steps.accepts op end }
{
    match end {
        UserEnd::Polled(_) => match op {
            Op::User(UserOp::Poll(_)) => true,
            Op::User(UserOp::PollOwn(_)) => true,
            _ => false,
        },
        UserEnd::Done => match op {
            Op::User(UserOp::Drop(_)) => true,
            Op::User(UserOp::DropOutput(_)) => true,
            Op::User(UserOp::CallOutside(_)) => true,
            Op::User(UserOp::DropOwn(_)) => true,
            _ => false,
        },
    }
}

fn answer_refusal(top: Option<Op>, end: UserEnd) -> Option<StepError>
    ensures { result ≡ steps.answer_refusal top end }
{
    match top {
        None => Some(StepError::Idle),
        Some(op) => {
            if accepts(op, end) {
                None
            } else {
                Some(StepError::WrongAnswer)
            }
        }
    }
}

/// Why the party's part of the step isn't possible.
pub fn part_refusal(
    store: &Store,
    parties: &[Vec<Op>],
    todo: &[Op],
    step: Step,
) -> Option<StepError>
    ensures { result ≡ steps.part_refusal (world_of store.now) (map (λ v. v.items) parties.now) todo.now step }
{
    let top = todo.last().copied();
    match step {
        Step::Begin { call, .. } => begin_refusal(store, parties, top, call),
        Step::Go { .. } => go_refusal(store, top),
        Step::Answer { end, .. } => answer_refusal(top, end),
    }
}
