//! How executors, ticks and runs are made: all memory that they need later is taken here.
ghost use Rattle.std.specs.Prelude.{◌≡◌, ◌<◌, Some, IsSome, IfOk, IfErr};
ghost use Rattle.local_executor.specs.Starts.{drawn, seeded};

use crate::body::Body;
use crate::entry::{LocalExWaker, LocalRun, LocalTick, Unlocked};
use crate::errors::LocalError;
use crate::foreign::Foreign;
use crate::link::Link;
use crate::locks::Guarded;
use crate::run::Running;
use crate::sections;
use crate::starts::Starts;
use crate::store::Store;
use async_task::{Future, NoMemory, Wake};
use solo::{Kind, Solo};
use std::alloc::Global;
use std::random::RandomSource;
use std::sync::{Arc, Wait};

/// The parts of a new executor.
pub fn body<F: Drop, T: Drop, W: Wake + Drop, R: RandomSource + Wait + Copy + Drop>(
    rt: R,
    alloc: Global,
    limit: usize,
    kind: Kind,
) -> Result<Body<F, T, W, R>, LocalError>
    requires { 0 < limit }
    ensures { IfOk result (λ body. body.link.rt ≡ rt) }
{
    let id = match drawn_by(&rt) {
        Some(id) => id,
        None => return Err(LocalError::NoRandom),
    };
    let (Ok(tasks), Ok(store)) = (Solo::new(alloc, limit, kind), Store::new(alloc, limit)) else {
        return Err(LocalError::NoMemory);
    };
    match Arc::new(alloc, Guarded::new(tasks)) {
        Ok(shared) => Ok(Body {
            link: Link::new(shared, id, rt),
            store,
            alloc,
        }),
        Err(_) => Err(LocalError::NoMemory),
    }
}

/// A number that the system draws.
fn drawn_by<R: RandomSource>(rt: &R) -> Option<u64> {
    let mut bytes = [0; 8];
    match rt.fill_bytes(&mut bytes) {
        Ok(()) => Some(u64::from_ne_bytes(bytes)),
        Err(_) => None,
    }
}

impl<F, T: Drop, W: Wake + Drop, R: Wait + Copy + Drop> Body<F, T, W, R>
where
    F: Future<LocalExWaker<W, R>, Output = T> + Drop,
{
    /// Whether each future that was accepted is dropped.
    pub(crate) fn has_none(&self, unlocked: &mut Unlocked) -> bool {
        sections::is_empty(self.link.lock(unlocked).get())
    }

    /// Makes a tick, which is awake.
    pub(crate) fn make_tick(
        &self,
        unlocked: &mut Unlocked,
    ) -> Result<LocalTick<'_, F, T, W, R>, NoMemory>
        ensures here { IfOk result (λ tick. tick.executor.now ≡ self.now) }
        ensures ticker { IfOk result (λ tick. IsSome tick.ticker) }
    {
        let made = sections::tick(self.link.lock(unlocked).get());
        match made {
            Ok(ticker) => Ok(LocalTick {
                executor: self,
                ticker: Some(ticker),
            }),
            Err(_) => Err(NoMemory),
        }
    }

    /// Makes a run, which is awake. For want of memory the future comes back.
    pub(crate) fn make_run<G>(
        &self,
        future: G,
        seed: u64,
        unlocked: &mut Unlocked,
    ) -> Result<LocalRun<'_, F, T, W, R, G>, G>
    where
        G: Future<LocalExWaker<W, R>> + Drop,
        ensures here { IfOk result (λ run. run.executor.now ≡ self.now) }
        ensures back { IfErr result (λ back. back ≡ future) }
        ensures future { IfOk result (λ run. run.future ≡ Some future) }
        ensures starts { IfOk result (λ run. run.starts ≡ drawn (seeded seed)) }
    {
        let made = sections::run(self.link.lock(unlocked).get());
        match made {
            Ok((runner, ticker)) => Ok(LocalRun {
                executor: self,
                future: Some(Foreign::of(future)),
                running: Some(Running { runner, ticker }),
                starts: Starts::new(seed),
            }),
            Err(_) => Err(future),
        }
    }
}
