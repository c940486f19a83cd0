//! The types and calls of the user. Each call begins with nothing locked or open, and makes an `Unlocked` to say so. Only these
//! calls can make one.
ghost use Rattle.std.specs.Prelude.{◌≡◌, ◌<◌, Some, IsSome, IfOk, IfErr, length};
ghost use Rattle.std.specs.Iterator.{IsFinite};
ghost use Rattle.solo.specs.Solo.{refused};
ghost use Rattle.local_executor.specs.Spawning.{SpawnsMany};
ghost use Rattle.local_executor.specs.Starts.{drawn, seeded};

use crate::body::Body;
use crate::debug::{LocalRunners, counts_of, show};
use crate::errors::LocalError;
use crate::{ending, making};
use async_task::{Future, NoMemory, Wake};
use executor_parts::Mark;
use solo::{Kind, SpawnError};
use std::alloc::Global;
use std::fmt;
use std::random::RandomSource;
use std::sync::Wait;

mod handles;
mod run;
mod static_executor;
mod tick;
mod wakers;

pub use handles::{LocalCancel, LocalFallible, LocalHandle};
pub use run::LocalRun;
pub use static_executor::StaticLocalExecutor;
pub use tick::LocalTick;
pub use wakers::{LocalExWaker, LocalWaker};

/// Says that a party has nothing of an executor locked or open. It has no bytes. It is lent to whoever takes the lock or opens a
/// store, for as long as that lasts. It is lent, too, to whatever calls, copies or drops a value of a user's.
#[derive(Drop)]
pub struct Unlocked {
    own: (),
}

impl Unlocked {
    /// Makes one at the beginning of a call.
    fn at_entry() -> Unlocked {
        Unlocked { own: () }
    }
}

/// An executor of futures `F`, whose outputs are `T`, on one thread. Its wakers may be called from any. It is `LocalExecutor` of the
/// Rust crate `async-executor`.
///
/// Futures and outputs stay on its thread, and so do handles, ticks and runs: they may have an `Rc`, or a borrow of what outlives the
/// executor. It needs no realm. `W` is the type of wakers from outside, and `R` that of the runtime value.
///
/// It asks for a runtime value that may wait and draws random numbers, the allocator, and a limit of accepted futures that aren't
/// dropped yet. `new` takes all places of the queue and the futures, and is refused without memory or a random number. `spawn`,
/// `tick` and `run` take memory too. A spawn beyond the limit is `Full`, and one without memory `NoMemory`; both give the future
/// back.
///
/// In `one_thread` of `examples` the future gives twice its number:
///
/// ```
/// let executor = LocalExecutor::<Double, u64, Nobody, HostRuntime>::new(rt, rt.alloc(), 10)?;
/// let Ok(mut handle) = executor.spawn(Double(21)) else {
///     panic!(rt; "refused");
/// };
/// for _ in rt.forever() {
///     if !executor.try_tick() {
///         break;
///     }
/// }
/// assert!(rt; handle.poll(&LocalExWaker::Outside(Nobody)) == Poll::Ready(Ok(42)));
/// ```
pub struct LocalExecutor<F: Drop, T: Drop, W: Wake + Drop, R: Wait + Copy + Drop> {
    pub(crate) body: Body<F, T, W, R>,
}

impl<F, T: Drop, W: Wake + Drop, R: Wait + Copy + Drop> LocalExecutor<F, T, W, R>
where
    F: Future<LocalExWaker<W, R>, Output = T> + Drop,
{
    /// Makes an executor with places for this many futures. It keeps the runtime value and the allocator for its calls. It takes
    /// the memory for all places of its queue and its futures. Its number is 64 bits that `rt` draws: two executors of one program
    /// have the same number with a chance of 1 in 2^64.
    pub fn new(rt: R, alloc: Global, limit: usize) -> Result<Self, LocalError>
    where
        R: RandomSource,
        requires { 0 < limit }
        ensures { IfOk result (λ executor. executor.body.link.rt ≡ rt) }
    {
        match making::body(rt, alloc, limit, Kind::Owned) {
            Ok(body) => Ok(LocalExecutor { body }),
            Err(error) => Err(error),
        }
    }

    /// Whether each future that was accepted is dropped. It takes no memory.
    pub fn is_empty(&self) -> bool {
        self.body.has_none(&mut Unlocked::at_entry())
    }

    /// Hands the executor a plain future. Its task is queued, and the handle is answered: a future with the output, whose drop
    /// cancels the task. Refused, the future comes back: with `Full` where as many accepted futures as the limit are not dropped
    /// yet, else with `NoMemory` for want of memory for the task.
    pub fn spawn(&self, future: F) -> Result<LocalHandle<T, W, R>, SpawnError<F>>
        ensures back { IfErr result (λ error. refused error ≡ future) }
        ensures here { IfOk result (λ handle. handle.held.link.id ≡ self.now.body.link.id) }
    {
        self.spawn_marked(future, Mark::Plain)
    }

    /// As `spawn`, with this mark. An urgent future's task goes into the urgent queue, which seven of eight searches look at
    /// before the other. A tick and `try_tick` search for each task. A run searches only once its own queue of 512 is empty:
    /// until then an urgent task waits, too. So mark little, and tick where it can't wait.
    pub fn spawn_marked(&self, future: F, mark: Mark) -> Result<LocalHandle<T, W, R>, SpawnError<F>>
        ensures back { IfErr result (λ error. refused error ≡ future) }
        ensures here { IfOk result (λ handle. handle.held.link.id ≡ self.now.body.link.id) }
    {
        self.body.hand_in(future, mark, &mut Unlocked::at_entry())
    }

    /// Hands the executor one plain future after the other, until the iterator ends or a future is refused. It appends the handles
    /// of the accepted futures to these, in order. The refused future comes back with the cause; the rest stays in the iterator.
    /// The room for a handle is taken before its future is spawned.
    pub fn spawn_many<I: Iterator<Item = F>>(
        &self,
        futures: &mut I,
        handles: &mut Vec<LocalHandle<T, W, R>>,
    ) -> Result<(), SpawnError<F>>
        requires { I.can_next futures.old × IsFinite (I.remaining futures.old) }
        ensures { SpawnsMany I.next_gives futures.old futures.new (length handles.old.items) (length handles.new.items) result }
    {
        for _ in self.body.link.rt().forever() {
            let Some(future) = futures.next() else {
                return Ok(());
            };
            if handles.reserve(1).is_err() {
                return Err(SpawnError::NoMemory(future));
            }
            match self.spawn(future) {
                Ok(handle) => handles.push_reserved(handle),
                Err(refused) => return Err(refused),
            }
        }
        unreachable!()
    }

    /// Runs one task, where one is queued, and answers whether it did. It doesn't wait for one, and takes no memory.
    pub fn try_tick(&self) -> bool {
        self.body.run_one(&mut Unlocked::at_entry())
    }

    /// Makes a future that waits for a future of the executor which has to be polled, and polls it once.
    pub fn tick(&self) -> Result<LocalTick<'_, F, T, W, R>, NoMemory>
        ensures here { IfOk result (λ tick. tick.executor.now ≡ self.now.body) }
        ensures ticker { IfOk result (λ tick. IsSome tick.ticker) }
    {
        self.body.make_tick(&mut Unlocked::at_entry())
    }

    /// Makes a future that runs the executor's futures until this one is ready, and then has its output. For want of memory the
    /// future comes back.
    pub fn run<G>(&self, future: G) -> Result<LocalRun<'_, F, T, W, R, G>, G>
    where
        G: Future<LocalExWaker<W, R>> + Drop,
        ensures here { IfOk result (λ run. run.executor.now ≡ self.now.body) }
        ensures back { IfErr result (λ back. back ≡ future) }
        ensures future { IfOk result (λ run. run.future ≡ Some future) }
        ensures starts { IfOk result (λ run. run.starts ≡ drawn (seeded 0)) }
    {
        self.body.make_run(future, 0, &mut Unlocked::at_entry())
    }

    /// As `run`, with another seed for the places at which it begins to look for tasks of other runs.
    pub fn run_from<G>(&self, future: G, seed: u64) -> Result<LocalRun<'_, F, T, W, R, G>, G>
    where
        G: Future<LocalExWaker<W, R>> + Drop,
        ensures here { IfOk result (λ run. run.executor.now ≡ self.now.body) }
        ensures back { IfErr result (λ back. back ≡ future) }
        ensures future { IfOk result (λ run. run.future ≡ Some future) }
        ensures starts { IfOk result (λ run. run.starts ≡ drawn (seeded seed)) }
    {
        self.body.make_run(future, seed, &mut Unlocked::at_entry())
    }

    /// Makes it a static executor, whose futures nobody has to drop. Each future that was accepted is queued to be polled once
    /// more, in the order of acceptance. It takes no memory.
    pub fn leak(self) -> StaticLocalExecutor<F, T, W, R>
        ensures { result.body ≡ self.body }
    {
        let LocalExecutor { body } = self;
        ending::leak(&body.link, &mut Unlocked::at_entry());
        StaticLocalExecutor { body }
    }
}

impl<F: Drop, T: Drop, W: Wake + Drop, R: Wait + Copy + Drop> Drop for LocalExecutor<F, T, W, R> {
    /// Drops each future, in the order of acceptance, and closes each task that isn't over: its awaiter is called. It takes no
    /// memory.
    fn drop(self) {
        let LocalExecutor { body } = self;
        let Body {
            link,
            store,
            alloc: _,
        } = body;
        ending::end(link, store.into_futures(), &mut Unlocked::at_entry());
    }
}

/// It shows how many futures have a waker in the table, and how many ticks and runs sleep. It shows how many tasks stand in the
/// two queues, and in each run's own. It has `<locked>` for each where the lock isn't free.
impl<F: Drop, T: Drop, W: Wake + Drop, R: Wait + Copy + Drop> fmt::Debug
    for LocalExecutor<F, T, W, R> {
    fn fmt<O: fmt::Write>(&self, f: &mut fmt::Formatter<O>) -> fmt::Result {
        let link = &self.body.link;
        let counts = counts_of(link, Kind::Owned, &mut Unlocked::at_entry());
        show(link, "LocalExecutor", counts, f)
    }
}

impl<W: Drop, R: Wait + Copy + Drop> LocalRunners<'_, W, R> {
    /// The length of the queue at this place, as a text reads it.
    pub(crate) fn length_at(&self, at: usize) -> Option<Option<usize>> {
        self.length_in(at, &mut Unlocked::at_entry())
    }
}
