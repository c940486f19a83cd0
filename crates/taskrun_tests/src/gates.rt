//! What stands at the first poll of each job; and what a worker leaves where it ends before its job has come back.
use async_task::{Future, Poll};
use blocking::block_on;
use jobs::{Awaits, Desk, Gate, Job, JobPlace, JobRealm, Site, SiteDesk, Worker, run_jobs};
use std::sync::Wait;
use std::sync::atomic::Ordering::SeqCst;
use std::sync::atomic::{AtomicBool, AtomicU64};
use std::test::Fail;
use std::thread;

/// How many turns a job waits for the other at most.
const MOST_TURNS: u64 = 10_000_000;

/// Counts the jobs that meet it, by number; each of two waits here for the other.
#[derive(Default, Drop)]
struct Both {
    first: AtomicU64,
    second: AtomicU64,
    others: AtomicU64,
    has_failed: AtomicBool,
}

impl Gate for Both {
    fn meet(&self, job: u64) {
        let (met, other) = match job {
            0 => (&self.first, &self.second),
            1 => (&self.second, &self.first),
            _ => (&self.others, &self.others),
        };
        met.fetch_add(1, SeqCst);
        for _ in 0..MOST_TURNS {
            if other.load(SeqCst) > 0 {
                return;
            }
            thread::yield_now();
        }
        self.has_failed.store(true, SeqCst);
    }
}

type BothPlace<'a> = JobPlace<&'a Both, HostRuntime>;

/// A sum of many polls and a product are had at a time, and each meets the gate once: one worker alone would wait in the first
/// for the other.
#[test]
fn two_workers_have_two_jobs_at_a_time_and_each_meets_the_gate_once(
    rt: HostRuntime,
) -> Result<(), Fail> {
    let realm = JobRealm::<HostRuntime>::leak(rt, rt.alloc())?;
    let both = Both::default();
    let list = [Job::Sum(1_000_000), Job::Mul(2, 3)];
    let ended = run_jobs::<BothPlace<'_>, HostRuntime>(rt, rt.alloc(), realm, &list, 2, &both);
    let met = (both.first.load(SeqCst), both.second.load(SeqCst));
    let is_well = ended.is_ok() & !both.has_failed.load(SeqCst);
    assert!(rt; is_well & (met == (1, 1)) & (both.others.load(SeqCst) == 0));
    Ok(())
}

/// Counts the jobs that meet it.
#[derive(Default, Drop)]
struct Met(AtomicU64);

impl Gate for Met {
    fn meet(&self, _job: u64) {
        self.0.fetch_add(1, SeqCst);
    }
}

/// Polls two workers once, and is ready: whether both wait for a job.
#[derive(Drop)]
struct PolledOnce<D: Desk + Drop, R>(Worker<D, R>, Worker<D, R>);

impl<K, D: Awaits<K> + Drop, R: Wait> Future<K> for PolledOnce<D, R> {
    type Output = bool;

    fn poll(&mut self, waker: &K) -> Poll<bool> {
        let first_waits = matches!(self.0.poll(waker), Poll::Pending);
        let second_waits = matches!(self.1.poll(waker), Poll::Pending);
        Poll::Ready(first_waits & second_waits)
    }
}

/// The jobs that they awaited are cancelled: each is dropped in its queue's turn, and not polled again. The first needs a thousand
/// polls, and had two, one by each worker. The second had none.
#[test]
fn workers_that_are_dropped_give_their_jobs_up(rt: HostRuntime) -> Result<(), Fail> {
    let (alloc, met) = (rt.alloc(), Met::default());
    let realm = JobRealm::<HostRuntime>::leak(rt, alloc)?;
    let list = [Job::Sum(1_000_000), Job::Sum(1)];
    let site = Site::new(rt, alloc, realm, &list, &met)?;
    let first = Worker::at(rt, alloc, SiteDesk::at(&site));
    let second = Worker::at(rt, alloc, SiteDesk::at(&site));
    let have_waited = block_on(&rt, alloc, PolledOnce(first, second));
    assert!(rt; matches!(have_waited, Ok(true)));
    let has_dropped_one = site.try_tick() & !site.is_empty();
    let has_dropped_both = site.try_tick() & site.is_empty();
    assert!(rt; has_dropped_one & has_dropped_both & (met.0.load(SeqCst) == 1));
    Ok(())
}
