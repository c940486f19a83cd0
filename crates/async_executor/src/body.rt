//! What executors of both kinds share, and what `new`, `is_empty`, `spawn` and `try_tick` do.
ghost use Rattle.std.specs.Prelude.{◌≡◌, ◌<◌, [], ◌∷◌, true, Some, IfOk, IfErr};
ghost use Rattle.std.specs.Arc.{arc_value};
ghost use Rattle.async_executor.specs.Errors.{refused};
ghost use Rattle.async_executor.specs.Steps.{spawned, yes_or_no};
ghost use Rattle.call_steps.specs.Todo.{below, top};
ghost use Rattle.call_steps.specs.declared.step.CallStep.TheVariants as step;
ghost use Rattle.call_steps.specs.declared.step.table.QueueStep.TheVariants as queue_step;
ghost use Rattle.call_steps.specs.declared.step.table.TableStep.TheVariants as table_step;

use crate::closing::ClosesReturned;
use crate::deeds::{Steps, sections};
use crate::entry::Unlocked;
use crate::errors::SpawnError;
use crate::locks::Guarded;
use crate::marked::Marked;
use crate::names::{ExRealm, ExTask, ExWaker, TableWaker};
use crate::state::State;
use async_task::{Future, NoMemory, Output, OutsideWaker, Runtime};
use call_steps::{Last, Reply};
use executor_parts::{Mark, Places};
use std::alloc::Global;
use std::mem;
use std::sync::Arc;

/// What an executor of either kind has. It has no drop: an executor ends it, or forgets it.
pub struct Body<F: Drop, T: Output, W: OutsideWaker, R: Runtime> {
    pub(crate) realm: &'static ExRealm<T, W, R>,
    pub(crate) state: Arc<State<W>, Global>,
    pub(crate) table: Guarded<Places<F, TableWaker>>,
    /// Its table keeps no wakers.
    pub(crate) is_static: bool,
    /// What was let go of tasks in its realm is to be closed.
    pub(crate) returned: ClosesReturned,
    pub(crate) rt: R,
    pub(crate) alloc: Global,
}

impl<F: Drop, T: Output, W: OutsideWaker, R: Runtime> Body<F, T, W, R> {
    /// Makes the parts of an executor of this kind, with places for this many futures, whose tasks lie in this realm.
    pub fn new(
        rt: R,
        alloc: Global,
        realm: &'static ExRealm<T, W, R>,
        is_static: bool,
        limit: usize,
    ) -> Result<Self, NoMemory>
        requires { 0 < limit }
        ensures urgent { IfOk result (λ body. (arc_value body.state).queues.urgent.capacity ≡ Some limit) }
        ensures plain { IfOk result (λ body. (arc_value body.state).queues.plain.capacity ≡ Some limit) }
        ensures here { IfOk result (λ body. body.realm.now.number ≡ realm.now.number) }
        ensures kind { IfOk result (λ body. body.is_static ≡ is_static) }
    {
        match (State::new(alloc, limit), Places::with_room(alloc, limit)) {
            (Ok(state), Ok(table)) => Body::of(rt, alloc, realm, is_static, state, table),
            _ => Err(NoMemory),
        }
    }

    /// Makes an executor from parts that have places for equally many futures.
    fn of(
        rt: R,
        alloc: Global,
        realm: &'static ExRealm<T, W, R>,
        is_static: bool,
        state: State<W>,
        table: Places<F, TableWaker>,
    ) -> Result<Self, NoMemory>
        requires table { (table.entries ≡ []) × (table.has_all_room ≡ true) }
        requires urgent { state.queues.urgent.capacity ≡ Some table.limit }
        requires plain { state.queues.plain.capacity ≡ Some table.limit }
        ensures state { IfOk result (λ body. arc_value body.state ≡ state) }
        ensures here { IfOk result (λ body. body.realm.now.number ≡ realm.now.number) }
        ensures kind { IfOk result (λ body. body.is_static ≡ is_static) }
    {
        match Arc::new(alloc, state) {
            Ok(state) => Ok(Body {
                realm,
                state,
                table: Guarded::new(table),
                is_static,
                returned: ClosesReturned::new(),
                rt,
                alloc,
            }),
            Err(_) => Err(NoMemory),
        }
    }

    /// Forgets a static executor: what it holds is leaked.
    pub fn forget(self) {
        let Body {
            realm: _,
            state,
            table,
            is_static: _,
            returned,
            rt: _,
            alloc: _,
        } = self;
        mem::forget(state);
        mem::forget(table);
        returned.forget();
    }
}

impl<F, T: Output, W: OutsideWaker, R: Runtime> Body<F, T, W, R>
where
    F: Future<ExWaker<T, W, R>, Output = T> + Drop,
{
    /// Whether each future that was accepted is dropped. The call's end is the second answer.
    pub(crate) fn has_none(&self, steps: Steps, unlocked: &mut Unlocked) -> (bool, Last)
        requires { steps ≡ step.Table table_step.LookAtTable ∷ [] }
        ensures { result.1 ≡ yes_or_no result.0 }
    {
        let mut steps = steps;
        let is_empty = sections::is_empty(self.table.lock(&self.rt, unlocked).get(), &mut steps);
        if is_empty {
            (true, steps.end(Reply::Yes))
        } else {
            (false, steps.end(Reply::No))
        }
    }

    /// Accepts a future with this mark and queues its task, or refuses it.
    ///
    /// 1. Closes what was let go of tasks in its realm.
    /// 2. Under the table's lock: accepts the future, or refuses it. Refused, the future comes back: with `Full` where as many
    ///    accepted futures as the limit are not dropped yet, else for want of memory for the task.
    /// 3. Once the lock is released: hands the Runnable to the queue of its mark, and notifies a sleeper.
    ///
    /// The call's end is the second answer.
    pub(crate) fn hand_in(
        &self,
        future: F,
        mark: Mark,
        steps: Steps,
        unlocked: &mut Unlocked,
    ) -> (Result<ExTask<T, W, R>, SpawnError<F>>, Last)
        requires { steps ≡ step.Table (table_step.Enter mark) ∷ [] }
        ensures marked { IfOk result.0 (λ task. task.metadata ≡ mark) }
        ensures future { IfErr result.0 (λ error. refused error ≡ future) }
        ensures here { IfOk result.0 (λ task. task.identity.realm ≡ self.now.realm.now.number) }
        ensures answer { result.1 ≡ spawned result.0 }
    {
        let closed = self.returned.close(self.rt, self.realm, unlocked);
        let mut steps = steps;
        let accepted = self.accept(future, mark, closed, &mut steps, unlocked);
        match accepted {
            Ok((runnable, task)) => {
                self.queue(&mut steps, runnable, unlocked);
                (Ok(task), steps.end(Reply::Made))
            }
            Err(SpawnError::Full(future)) => {
                let last = steps.end(Reply::Full);
                (Err(SpawnError::Full(future)), last)
            }
            Err(SpawnError::NoMemory(future)) => {
                let last = steps.end(Reply::NoMemory);
                (Err(SpawnError::NoMemory(future)), last)
            }
        }
    }

    /// Runs one task, where one is queued, and answers whether it did.
    ///
    /// 1. Takes a turn, and a Runnable from the queue that the turn names, or else from the other one. Where there is none: false.
    /// 2. Notifies a sleeper, since there may be more.
    /// 3. Runs it: true.
    ///
    /// The call's end is the second answer.
    #[inline(always)]
    pub(crate) fn run_one(&self, steps: Steps, unlocked: &mut Unlocked) -> (bool, Last)
        requires { steps ≡ step.Queue queue_step.TakeTurn ∷ [] }
        ensures { result.1 ≡ yes_or_no result.0 }
    {
        let mut steps = steps;
        match self.state.take_in_turn(&self.rt, &mut steps) {
            Some(stored) => {
                self.state
                    .notify_and_pay(self.rt, self.realm, &mut steps, unlocked);
                self.poll_or_drop(stored, &mut steps, unlocked);
                (true, steps.end(Reply::Yes))
            }
            None => (false, steps.end(Reply::No)),
        }
    }

    /// Puts the Runnable of a new task into the queue of its mark, and notifies a sleeper.
    #[inline(always)]
    fn queue(&self, steps: &mut Steps, runnable: Marked, unlocked: &mut Unlocked)
        requires { top steps.old ≡ Some (step.Queue (queue_step.Append runnable.stored.identity)) }
        ensures { steps.new ≡ below steps.old }
    {
        self.state
            .push_and_pay(self.rt, self.realm, steps, runnable, unlocked);
    }
}
