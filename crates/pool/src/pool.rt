//! A pool of futures of a program.
ghost use Rattle.std.specs.Arc.{arc_value};
ghost use Rattle.std.specs.Prelude.{◌≡◌, ◌<◌, IfErr, IfOk, Some};
ghost use Rattle.async_executor.specs.Errors.{refused};
ghost use Rattle.pool.specs.Answering.{HandsBack};
ghost use Rattle.workers.specs.declared.fault.Fault.TheVariants as fault;

use crate::answer::Answer;
use crate::handle::Handle;
use crate::making::answering;
use crate::place::Place;
use crate::sending::Answering;
use crate::through::Through;
use crate::waker::Waker;
use async_executor::{ExRealm, Executor, SpawnError};
use async_task::{Future, NoMemory, Output, Runtime, Wake};
use blocking::{ThreadWaker, block_on};
use std::alloc::Global;
use workers::{Fault, run_until};

/// An executor of a program's futures, which threads run while they wait in it. `F` is what lies in it: an `Answering`, or an enum
/// whose variants hold `Answering`s of several kinds, with a `From` for each.
///
/// A future may give anything: the form in which it lies here gives `()`, and sends the output to what `spawn` returns. So all
/// pools, channels and timers of a program have one waker. In `sum` of `first_week`:
///
/// ```
/// let realm = Realm::leak(rt, rt.alloc())?;
/// let pool = PoolOf::<Sum, _, _>::new(rt, rt.alloc(), realm, 1)?;
/// let answer = pool.spawn(Sum(2, 3))?;
/// let sum = pool.run(answer)??;
/// println!(rt; "{sum}")
/// ```
pub struct Pool<F, R: Runtime>
where
    F: Future<Waker<R>, Output = ()> + Drop,
{
    pub(crate) rt: R,
    pub(crate) alloc: Global,
    pub(crate) executor: Executor<Through<F>, (), ThreadWaker, R>,
}

/// A pool of futures of one kind, `A`, whose outputs are `X`.
pub type PoolOf<A, X, R> = Pool<Answering<A, X, Waker<R>, R>, R>;

// Written out, so that crates above call it.
impl<F, R: Runtime> Drop for Pool<F, R>
where
    F: Future<Waker<R>, Output = ()> + Drop,
{
    fn drop(self) {
        let Pool {
            rt: _,
            alloc: _,
            executor: _executor,
        } = self;
    }
}

impl<F, R: Runtime> Pool<F, R>
where
    F: Future<Waker<R>, Output = ()> + Drop,
{
    /// Makes a pool with places for this many futures, whose tasks lie in this realm. A program has one realm for all its pools.
    /// It keeps the runtime value and the allocator for its calls. It takes the memory for all places.
    pub fn new(
        rt: R,
        alloc: Global,
        realm: &'static ExRealm<(), ThreadWaker, R>,
        limit: usize,
    ) -> Result<Self, NoMemory>
        requires { 0 < limit }
        ensures urgent { IfOk result (λ pool. (arc_value pool.executor.body.state).queues.urgent.capacity ≡ Some limit) }
        ensures plain { IfOk result (λ pool. (arc_value pool.executor.body.state).queues.plain.capacity ≡ Some limit) }
        ensures here { IfOk result (λ pool. pool.executor.body.realm.now.number ≡ realm.now.number) }
    {
        match Executor::new(rt, alloc, realm, limit) {
            Ok(executor) => Ok(Pool {
                rt,
                alloc,
                executor,
            }),
            Err(NoMemory) => Err(NoMemory),
        }
    }

    /// Spawns a future, and returns what is awaited for its output. `NoMemory` where there is no memory for the place of the
    /// output or for the task. `Full` where as many futures as the limit are not dropped yet. The future comes back, in the form
    /// in which it would lie here: `into_inner` of an `Answering` takes it out.
    pub fn spawn<A, X: Output, K: Wake + Drop>(
        &self,
        future: A,
    ) -> Result<Answer<X, Handle<R>, K, R>, SpawnError<F>>
    where
        A: Future<K, Output = X> + Drop,
        F: From<Answering<A, X, K, R>>,
        ensures { IfErr result (λ error. HandsBack F.from_gives future (refused error)) }
    {
        match answering(self.rt, self.alloc, future) {
            Ok((future, from)) => match self.spawn_here(F::from(future)) {
                Ok(task) => Ok(Answer { from, task }),
                Err(error) => Err(error),
            },
            Err(future) => Err(SpawnError::NoMemory(F::from(Answering::unanswered(future)))),
        }
    }

    /// Runs the pool on this thread until the future is ready, and answers its output. The only fault is want of memory.
    ///
    /// Where several threads do so, each should take another seed: `run_from`.
    pub fn run<G>(&self, main: G) -> Result<G::Output, Fault>
    where
        G: Future<Waker<R>> + Drop,
        G::Output: Drop,
        ensures { IfErr result (λ why. why ≡ fault.NoMemory) }
    {
        self.run_from(main, 0)
    }

    /// As `run`, with a seed that says where it begins to look for work of other threads.
    pub fn run_from<G>(&self, main: G, seed: u64) -> Result<G::Output, Fault>
    where
        G: Future<Waker<R>> + Drop,
        G::Output: Drop,
        ensures { IfErr result (λ why. why ≡ fault.NoMemory) }
    {
        run_until(
            &self.rt,
            self.alloc,
            &self.executor,
            seed,
            Through::of(main),
        )
    }

    /// Waits on this thread until the future is ready, and answers its output, while other threads run the pool. The only fault is
    /// want of memory.
    pub fn block_on<G>(&self, future: G) -> Result<G::Output, Fault>
    where
        G: Future<Waker<R>> + Drop,
        G::Output: Drop,
        ensures { IfErr result (λ why. why ≡ fault.NoMemory) }
    {
        match block_on::<Waker<R>, _, _>(&self.rt, self.alloc, future) {
            Ok(output) => Ok(output),
            Err(_) => Err(Fault::NoMemory),
        }
    }
}

impl<F, R: Runtime> Place<F> for Pool<F, R>
where
    F: Future<Waker<R>, Output = ()> + Drop,
{
    type Task = Handle<R>;

    fn spawn_here(&self, future: F) -> Result<Handle<R>, SpawnError<F>> {
        match self.executor.spawn(Through::of(future)) {
            Ok(task) => Ok(Handle::of(task)),
            Err(refusal) => Err(taken_out(refusal)),
        }
    }
}

/// The same refusal, with the future that lay within.
fn taken_out<F>(refusal: SpawnError<Through<F>>) -> SpawnError<F>
    ensures { refused result ≡ (refused refusal).future }
{
    match refusal {
        SpawnError::Full(through) => SpawnError::Full(through.into_inner()),
        SpawnError::NoMemory(through) => SpawnError::NoMemory(through.into_inner()),
    }
}
