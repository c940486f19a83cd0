//! An executor that threads run, as code over any runtime type may know it. Such code gets no proof of calls with what holds
//! handles, nor of threads that call what holds a realm: so it is generic over a `Worker`, and a program that has its runtime
//! value says which that is.
ghost use Rattle.std.specs.Prelude.{◌<◌};

use crate::Fault;
use crate::executor::awaited::Awaited;
use crate::executor::futures::Yields;
use crate::executor::names::{Futures, Timed, Waker};
use async_executor::Mark;
use async_task::{Future, Runtime};
use blocking::block_on;
use std::alloc::Global;
use std::marker::PhantomData;

/// What there is to spawn: so many futures with marks as these, each of which gives way so often, and then gives this number
/// and how often that was.
#[derive(Clone, Copy)]
pub struct Share {
    pub jobs: u64,
    pub times: u64,
    pub number: u64,
    pub marks: Marks,
}

/// How futures are marked.
#[derive(Clone, Copy)]
pub enum Marks {
    /// All are plain.
    Plain,
    /// The first is urgent, the next one plain, and so on by turns.
    Mixed,
}

impl Marks {
    /// The mark of the future of this number.
    pub fn mark_of(self, number: u64) -> Mark {
        match self {
            Marks::Mixed if number.is_multiple_of(2) => Mark::Urgent,
            _ => Mark::Plain,
        }
    }
}

/// What threads do, and how handles are awaited.
pub trait Worker<R: Runtime> {
    /// An executor with places for so many futures.
    fn new(rt: R, alloc: Global, realm: &'static Futures<R>, limit: usize) -> Result<Self, Fault>
        requires { 0 < limit };

    /// Spawns a share, and runs the executor until that has ended. Answers the sum of the outputs, which is too low where
    /// something was refused.
    fn work(&self, share: Share) -> u64;

    /// The sum of the outputs of tasks that this thread awaits.
    fn outputs(rt: R, alloc: Global, awaited: Awaited<R>) -> Result<u64, Fault>;
}

/// A future that awaits tasks, and gives the sum of their outputs.
pub trait Crew<R: Runtime> {
    /// Awaits these.
    fn of_tasks(awaited: Awaited<R>) -> Self;
}

impl<R: Runtime> Crew<R> for Awaited<R> {
    fn of_tasks(awaited: Awaited<R>) -> Self {
        awaited
    }
}

/// An executor, and where its tasks lie.
#[derive(Drop)]
pub struct Workplace<C, R: Runtime> {
    rt: R,
    alloc: Global,
    realm: &'static Futures<R>,
    executor: Timed<Yields, R>,
    crew: PhantomData<C>,
}

impl<C: Crew<R> + Future<Waker<R>, Output = u64> + Drop, R: Runtime> Worker<R> for Workplace<C, R> {
    fn new(rt: R, alloc: Global, realm: &'static Futures<R>, limit: usize) -> Result<Self, Fault> {
        match Timed::new(rt, alloc, realm, limit) {
            Ok(executor) => Ok(Workplace {
                rt,
                alloc,
                realm,
                executor,
                crew: PhantomData,
            }),
            Err(_) => Err(Fault::NoMemory),
        }
    }

    fn work(&self, share: Share) -> u64 {
        let mut awaited = Awaited::new(self.rt, self.alloc, self.realm);
        spawn_share(&self.executor, share, &mut awaited);
        match self.executor.run(C::of_tasks(awaited)) {
            Ok(run) => match block_on(&self.rt, self.alloc, run) {
                Ok(Ok(sum)) => sum,
                _ => 0,
            },
            Err(_) => 0,
        }
    }

    fn outputs(rt: R, alloc: Global, awaited: Awaited<R>) -> Result<u64, Fault> {
        match block_on(&rt, alloc, C::of_tasks(awaited)) {
            Ok(sum) => Ok(sum),
            Err(_) => Err(Fault::NoMemory),
        }
    }
}

/// Spawns so many futures. One that is refused is not awaited.
pub fn spawn_share<R: Runtime>(
    executor: &Timed<Yields, R>,
    share: Share,
    awaited: &mut Awaited<R>,
) {
    for number in 0..share.jobs {
        let future = Yields {
            times: share.times,
            number: share.number,
        };
        if let Ok(task) = executor.spawn_marked(future, share.marks.mark_of(number)) {
            awaited.push(task);
        }
    }
}
