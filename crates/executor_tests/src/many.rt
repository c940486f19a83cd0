//! Many of a kind, one after the other.
use crate::parts::{Bell, Gift, Job, TestRealm, TestWaker, Work};
use crate::stage::{End, Planned, Stage};
use crate::threads::outputs;
use async_executor::{ExStoredTask, Handles, SpawnError};
use async_task::{Future, Poll, Returning, Runtime};
use std::mem;
use std::process::Abort;
use std::sync::atomic::Ordering::SeqCst;
use std::test::Fail;

/// Awaits handles in order, and gives the number of outputs that came as numbered from 0 on.
#[derive(Drop)]
struct InOrder<R: Runtime> {
    rt: R,
    realm: &'static TestRealm<R>,
    handles: Handles<Gift, Bell, R>,
    /// The handle that it waits for.
    awaited: Option<Returning<ExStoredTask>>,
    next: u64,
}

impl<R: Runtime> Future<TestWaker<R>> for InOrder<R> {
    type Output = u64;

    fn poll(&mut self, waker: &TestWaker<R>) -> Poll<u64> {
        for _ in 0..=self.handles.len() {
            let task = match mem::replace(&mut self.awaited, None) {
                Some(stored) => stored.redeem(self.rt, self.realm),
                None => self.handles.pop_front(),
            };
            let Some(mut task) = task else {
                return Poll::Ready(self.next);
            };
            match task.poll(waker) {
                Poll::Ready(Ok(gift)) if gift.number() == self.next => {
                    self.next = self.next.saturating_add(1);
                }
                Poll::Ready(_) => return Poll::Ready(self.next),
                Poll::Pending => {
                    self.awaited = Some(Returning::new(task.store()));
                    return Poll::Pending;
                }
            }
        }
        Poll::Ready(self.next)
    }
}

impl<F: Planned<R>, R: Runtime + Abort> Stage<F, R> {
    /// Spawns so many futures in one call, which are ready or wait for ever: what awaits them in order, and the name of the one
    /// that was refused since the executor is full.
    fn in_order(&self, count: u64, are_ready: bool) -> (InOrder<R>, Option<u64>) {
        let mut futures = Vec::new(self.alloc);
        for name in 0..count {
            let work = match are_ready {
                true => Work::Yield(0, name),
                false => Work::Pend,
            };
            if futures.push(self.job(name, work)).is_err() {
                panic!(self.rt; "memory");
            }
        }
        let (handles, refused) = self.owned().spawn_many(&mut futures.into_iter());
        let in_order = InOrder {
            rt: self.rt,
            realm: self.realm,
            handles,
            awaited: None,
            next: 0,
        };
        let refused = match refused {
            Err(SpawnError::Full(future)) => Some(future.name()),
            Err(SpawnError::NoMemory(_future)) => None,
            Ok(()) => None,
        };
        (in_order, refused)
    }

    /// Runs a future, and polls the run so often at most: its output, and how many polls were pending.
    fn run_to_its_end<G>(&self, future: G, most: u64) -> (u64, u64)
    where
        G: Future<TestWaker<R>, Output = u64> + Drop,
    {
        let Ok(mut run) = self.owned().run(future) else {
            return (0, 0);
        };
        let waker = self.bell();
        let mut ended = (0, most);
        for polls in 0..most {
            match run.poll(&waker) {
                Poll::Ready(Ok(output)) => {
                    ended = (output, polls);
                    break;
                }
                Poll::Ready(Err(_)) => break,
                Poll::Pending => {}
            }
        }
        ended
    }

    /// Ticks until nothing is due, and says how many futures were dropped so far.
    fn dropped(&self) -> u64 {
        for _ in 0..100 {
            if !self.try_tick() {
                break;
            }
        }
        self.notes.dropped.load(SeqCst)
    }

    /// One that is let go at rest cancels its task once another future is handed in: three were dropped before.
    fn cancels_what_is_let_go(&self) -> bool {
        drop(self.spawn(self.job(3, Work::Pend)));
        let is_let_go = self.dropped() == 3;
        let last = self.spawn(self.job(4, Work::Pend));
        let is_closed = self.dropped() == 4;
        if let Some(last) = last {
            self.drop_handle(last);
        }
        is_let_go & is_closed & (self.dropped() == 5) & self.is_empty()
    }

    /// A tick is told by its own executor alone, and by no other of the realm.
    pub fn tells_its_own(&self) -> bool {
        let (other, mut tick) = (self.another(1), self.tick());
        let lies = self.poll(&mut tick) == End::Pending;
        let has_run = other.spawn_detached(other.ready(0)) & other.try_tick();
        let is_untold = self.rings() == 0;
        let is_told = self.spawn_detached(self.ready(0)) & (self.rings() == 1);
        lies & has_run & is_untold & is_told & (self.poll(&mut tick) == End::Ready)
    }

    /// What a realm takes of memory for an executor's task is used again once that executor is gone: each of a thousand
    /// executors, one after the other, has its task in the place of the first one's.
    pub fn uses_one_place(&self) -> bool {
        let first = place_of_a_short_life(self.another(1));
        let mut is_the_same = first.is_some();
        for _ in 0..1_000 {
            is_the_same = is_the_same & (place_of_a_short_life(self.another(1)) == first);
        }
        is_the_same
    }
}

/// Spawns a future on an executor, and drops both: the text of where the task lay.
fn place_of_a_short_life<F: Planned<R>, R: Runtime + Abort>(stage: Stage<F, R>) -> Option<String> {
    let stored = stage.spawn(stage.job(0, Work::Pend))?;
    let text = format!(in stage.alloc; "{stored:?}").ok();
    stage.drop_handle(stored);
    text
}

/// A spawn of many accepts as many as there are places, and hands the next future back. None is no refusal. A run takes 200 tasks
/// at each poll, so that it is ready after 250 polls that are pending. Each future is polled once.
#[test]
fn a_run_awaits_fifty_thousand_handles_in_order(rt: HostRuntime) -> Result<(), Fail> {
    let realm = TestRealm::leak(rt, rt.alloc())?;
    let stage = Stage::<Job<_>, _>::new(rt, rt.alloc(), realm, false, 50_000);
    let mut are_well = true;
    for (count, refused, came) in [(0, None, (0, 0)), (50_001, Some(50_000), (50_000, 250))] {
        let (future, was_refused) = stage.in_order(count, true);
        are_well = are_well
            & (was_refused == refused)
            & (stage.run_to_its_end(future, 999) == came);
    }
    let made = outputs(stage.notes.each.as_slice(), Some(1));
    assert!(rt; are_well & (made == Some(50_000)) & stage.is_empty());
    Ok(())
}

/// Handles that are left are dropped, which cancels their tasks.
#[test]
fn what_is_let_go_is_cancelled(rt: HostRuntime) -> Result<(), Fail> {
    let realm = TestRealm::leak(rt, rt.alloc())?;
    let stage = Stage::<Job<_>, _>::new(rt, rt.alloc(), realm, false, 8);
    let (future, _) = stage.in_order(3, false);
    let is_left = stage.dropped() == 0;
    drop(future);
    let is_dropped = stage.dropped() == 3;
    assert!(rt; is_left & is_dropped & stage.cancels_what_is_let_go());
    Ok(())
}
