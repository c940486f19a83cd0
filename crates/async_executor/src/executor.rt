//! How an executor that isn't static is made and ends, and how it becomes a static one.
ghost use Rattle.std.specs.Prelude.{◌≡◌, ◌<◌, ◌≤◌, ◌-◌, [], ◌∷◌, ◌++◌, true, false, None, Some, IfOk, length, map};
ghost use Rattle.std.specs.VecDeque.{deque_capacity};
ghost use Rattle.std.specs.Arc.{arc_value};
ghost use Rattle.call_steps.specs.Closing.{closing, drained, leaking};
ghost use Rattle.call_steps.specs.declared.reply.Reply.TheVariants as reply;
ghost use Rattle.call_steps.specs.declared.step.CallStep.TheVariants as step;
ghost use Rattle.call_steps.specs.declared.step.table.ClosingStep.TheVariants as closing_step;
ghost use Rattle.executor_parts.specs.Places.{turned, unwoken};

use crate::body::Body;
use crate::deeds::Steps;
use crate::deeds::queues::At;
use crate::due::close_and_pay;
use crate::entry::{Executor, Unlocked};
use crate::leaving::Leaving;
use crate::locks::Guarded;
use crate::names::{ExRealm, ExWaker, TableWaker};
use crate::state::State;
use async_task::{Future, NoMemory, Output, OutsideWaker, Returning, Runtime, StoredWaker};
use call_steps::{Last, Reply};
use executor_parts::{Mark, Places};
use std::alloc::Global;
use std::collections::VecDeque;

impl<F, T: Output, W: OutsideWaker, R: Runtime> Executor<F, T, W, R>
where
    F: Future<ExWaker<T, W, R>, Output = T> + Drop,
{
    /// Makes an executor with places for this many futures, whose tasks lie in this realm. It keeps the runtime value, the
    /// allocator and the realm for its calls. It takes the memory for all places of its queues and its table.
    pub fn new(
        rt: R,
        alloc: Global,
        realm: &'static ExRealm<T, W, R>,
        limit: usize,
    ) -> Result<Self, NoMemory>
        requires { 0 < limit }
        ensures urgent { IfOk result (λ executor. (arc_value executor.body.state).queues.urgent.capacity ≡ Some limit) }
        ensures plain { IfOk result (λ executor. (arc_value executor.body.state).queues.plain.capacity ≡ Some limit) }
        ensures here { IfOk result (λ executor. executor.body.realm.now.number ≡ realm.now.number) }
        ensures kind { IfOk result (λ executor. executor.body.is_static ≡ false) }
    {
        let Ok(leaving) = VecDeque::with_capacity(alloc, limit) else {
            return Err(NoMemory);
        };
        match Body::new(rt, alloc, realm, false, limit) {
            Ok(body) => Ok(Executor::of(body, leaving, limit)),
            Err(NoMemory) => Err(NoMemory),
        }
    }

    /// Makes an executor from parts that have places for equally many futures.
    fn of(body: Body<F, T, W, R>, leaving: VecDeque<Returning<StoredWaker>>, limit: usize) -> Self
        requires owned { body.is_static ≡ false }
        requires urgent { (arc_value body.state).queues.urgent.capacity ≡ Some limit }
        requires plain { (arc_value body.state).queues.plain.capacity ≡ Some limit }
        requires leaving { (leaving.items ≡ []) × (limit ≤ deque_capacity leaving) }
        ensures { result.body ≡ body }
    {
        let _ = limit;
        Executor { body, leaving }
    }
}

/// Ends an executor.
///
/// 1. Takes all futures and wakers out of the table, and drops each future, in the order of acceptance.
/// 2. Wakes each waker, in that order: each task is queued, or was before.
/// 3. Closes the urgent queue, and then the plain one.
/// 4. Takes from the urgent queue until nothing is left, then from the plain one, and drops each Runnable. So each task is closed,
/// and its awaiter is called. A Runnable that a wake in progress still has comes back from the closed queue, and is dropped there.
/// 5. Closes what was let go of tasks in its realm.
pub fn end<F: Drop, T: Output, W: OutsideWaker, R: Runtime>(
    body: Body<F, T, W, R>,
    leaving: Leaving,
    steps: Steps,
    unlocked: &mut Unlocked,
) -> Last
    requires { steps ≡ step.Closing closing_step.TakeOut ∷ step.End reply.Done ∷ [] }
    ensures { result ≡ reply.Done }
{
    let Body {
        realm,
        state,
        table,
        is_static: _,
        returned,
        rt,
        alloc: _,
    } = body;
    let (mut leaving, mut steps) = (leaving, steps);
    let table = steps.take_out(table, &leaving);
    drop_futures(rt, realm, table, &mut leaving, &mut steps, unlocked);
    leaving.wake_all(rt, realm, &mut steps, unlocked);
    leaving.end();
    state.close(&rt, &mut steps);
    drain(rt, realm, &state, Mark::Urgent, &mut steps, unlocked);
    drain(rt, realm, &state, Mark::Plain, &mut steps, unlocked);
    returned.end(rt, realm, unlocked);
    steps.end(Reply::Done)
}

/// Leaks an executor: it becomes a static one, whose table keeps no waker. Each waker of the table is taken out and called, in the
/// order of acceptance. So each task is queued, or was before. It takes no memory.
pub fn leak<F: Drop, T: Output, W: OutsideWaker, R: Runtime>(
    body: Body<F, T, W, R>,
    steps: Steps,
    unlocked: &mut Unlocked,
) -> (Body<F, T, W, R>, Last)
    requires { steps ≡ step.Closing closing_step.LeakOut ∷ step.End reply.Done ∷ [] }
    ensures kind { result.0.is_static ≡ true }
    ensures here { result.0.realm.now.number ≡ body.realm.now.number }
    ensures state { result.0.state ≡ body.state }
    ensures answer { result.1 ≡ reply.Done }
{
    let Body {
        realm,
        state,
        table,
        is_static: _,
        returned,
        rt,
        alloc,
    } = body;
    let mut steps = steps;
    let mut table = steps.leak_out(table);
    call_wakers(rt, realm, &mut table, &mut steps, unlocked);
    let leaked = Body {
        realm,
        state,
        table: Guarded::new(table),
        is_static: true,
        returned,
        rt,
        alloc,
    };
    (leaked, steps.end(Reply::Done))
}

/// Takes each waker out of a table, and calls it, in the order of acceptance. Nothing else goes.
fn call_wakers<F: Drop, T: Output, W: OutsideWaker, R: Runtime>(
    rt: R,
    realm: &'static ExRealm<T, W, R>,
    table: &mut Places<F, TableWaker>,
    steps: &mut Steps,
    unlocked: &mut Unlocked,
)
    requires { steps.old ≡ leaking (length table.old.entries) ++ step.End reply.Done ∷ [] }
    ensures none { table.new.entries ≡ map unwoken table.old.entries }
    ensures rest { table.new ≡ record table.old { entries = table.new.entries } }
    ensures steps { steps.new ≡ step.End reply.Done ∷ [] }
{
    let entries = table.len();
    for nth in 0..entries {
        call_next(rt, realm, table, entries - nth, steps, unlocked);
    }
}

/// Takes the next waker out, where this many entries are still to come, and calls it. One without a waker counts as woken.
fn call_next<F: Drop, T: Output, W: OutsideWaker, R: Runtime>(
    rt: R,
    realm: &'static ExRealm<T, W, R>,
    table: &mut Places<F, TableWaker>,
    left: usize,
    steps: &mut Steps,
    unlocked: &mut Unlocked,
)
    requires some { 0 < left }
    requires leaks { steps.old ≡ leaking left ++ step.End reply.Done ∷ [] }
    ensures steps { steps.new ≡ leaking (left - 1) ++ step.End reply.Done ∷ [] }
    ensures turned { table.new.entries ≡ turned table.old.entries }
    ensures rest { table.new ≡ record table.old { entries = table.new.entries } }
{
    let left = (left - 1) as u64;
    match steps.turn(table, left) {
        Some(waker) => waker.call_and_pay(rt, realm, left, steps, unlocked),
        None => {}
    }
}

/// Drops each Runnable that is left in the executor's queue of this mark, which is closed.
fn drain<T: Output, W: OutsideWaker, R: Runtime>(
    rt: R,
    realm: &'static ExRealm<T, W, R>,
    state: &State<W>,
    mark: Mark,
    steps: &mut Steps,
    unlocked: &mut Unlocked,
)
    requires { steps.old ≡ step.Closing (closing_step.Drain mark) ∷ step.End reply.Done ∷ [] }
    ensures { steps.new ≡ drained mark ++ step.End reply.Done ∷ [] }
{
    for _ in rt.forever() {
        let Some(runnable) = steps.take(&At::common(&state.queues, mark), None, &rt) else {
            return;
        };
        close_and_pay(rt, realm, steps, runnable, unlocked);
    }
    unreachable!()
}

/// Drops each future of a table, in the order of acceptance. Their wakers go into a list that has room for them, in the same
/// order. A waker that found no room would be called after the drop of its future, as a part of its own.
fn drop_futures<F: Drop, T: Output, W: OutsideWaker, R: Runtime>(
    rt: R,
    realm: &'static ExRealm<T, W, R>,
    table: Places<F, TableWaker>,
    leaving: &mut Leaving,
    steps: &mut Steps,
    unlocked: &mut Unlocked,
)
    requires { steps.old ≡ closing (length table.entries) (length leaving.old.wakers.items) ++ step.End reply.Done ∷ [] }
    ensures { steps.new ≡ closing 0 (length leaving.new.wakers.items) ++ step.End reply.Done ∷ [] }
{
    let mut table = table;
    for _ in rt.forever() {
        let Some(refused) = steps.drop_next(&mut table, leaving, unlocked) else {
            return;
        };
        if let Some(refused) = refused {
            refused.call_apart(rt, realm, unlocked);
        }
    }
    unreachable!()
}
