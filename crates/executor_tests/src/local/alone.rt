//! What is shown on one thread. What the calls of one executor show are scripts of `cases`, whose runs all have one seed.
use crate::local::door::{House, Visitor, new_door};
use crate::local::moving::{Never, Ready};
use async_task::{Future, Nobody, Poll};
use local_executor::{LocalExWaker, LocalExecutor, LocalHandle, LocalRun, StaticLocalExecutor};
use std::alloc::Global;
use std::process::Abort;
use std::random::RandomSource;
use std::sync::Wait;

/// Awaits handles in order, and gives how many outputs came as numbered from 0 on.
#[derive(Drop)]
struct InOrder<R: Wait + Copy + Drop>(Vec<LocalHandle<u64, Nobody, R>>, usize);

impl<R: Wait + Copy + Drop> Future<LocalExWaker<Nobody, R>> for InOrder<R> {
    type Output = usize;

    fn poll(&mut self, waker: &LocalExWaker<Nobody, R>) -> Poll<usize> {
        for _ in 0..=self.0.len() {
            let Some(handle) = self.0.get_mut(self.1) else {
                break;
            };
            match handle.poll(waker) {
                Poll::Ready(Ok(number)) if number == self.1 as u64 => {
                    self.1 = self.1.saturating_add(1);
                }
                Poll::Ready(_) => break,
                Poll::Pending => return Poll::Pending,
            }
        }
        Poll::Ready(self.1)
    }
}

/// Whether the run is ready with this number, after so many polls that are pending.
fn comes_to<R: Wait + Copy + Drop>(
    mut run: LocalRun<'_, Ready, u64, Nobody, R, InOrder<R>>,
    polls: u64,
    number: usize,
) -> bool {
    let waker = LocalExWaker::Outside(Nobody);
    for _ in 0..polls {
        if run.poll(&waker) != Poll::Pending {
            return false;
        }
    }
    run.poll(&waker) == Poll::Ready(Ok(number))
}

/// A run takes 200 tasks at each poll, so that it is ready after 250 polls that are pending.
fn a_run_awaits_fifty_thousand<R: Abort + RandomSource + Wait + Copy + Drop>(
    rt: R,
    alloc: Global,
) -> bool {
    let executor = Plain::new(rt, alloc, 50_000).expect(&rt, "memory");
    let mut handles = Vec::new(alloc);
    let mut futures = (0..50_000).map(Ready);
    if executor.spawn_many(&mut futures, &mut handles).is_err() {
        return false;
    }
    let has_come = match executor.run(InOrder(handles, 0)) {
        Ok(run) => comes_to(run, 250, 50_000),
        Err(_) => false,
    };
    has_come & executor.is_empty()
}

#[test]
fn spawn_many_local(rt: HostRuntime) {
    assert!(rt; a_run_awaits_fifty_thousand(rt, rt.alloc()));
}

type Plain<R> = LocalExecutor<Ready, u64, Nobody, R>;

type Fixed<R> = StaticLocalExecutor<Ready, u64, Nobody, R>;

/// Whether the poll of a run is pending.
fn waits<F: Future<LocalExWaker<Nobody, R>, Output = u64> + Drop, R: Wait + Copy + Drop>(
    run: &mut LocalRun<'_, F, u64, Nobody, R, Never>,
) -> bool {
    run.poll(&LocalExWaker::Outside(Nobody)) == Poll::Pending
}

/// Whether the run of one executor polls nothing of another's.
fn runs_poll_their_own<R: Abort + RandomSource + Wait + Copy + Drop>(rt: R, alloc: Global) -> bool {
    let one = House::new(rt, alloc, 1).expect(&rt, "an executor");
    let two = House::new(rt, alloc, 1).expect(&rt, "an executor");
    let (door, other) = new_door::<R>(&rt, alloc);
    let (Ok(mut run_one), Ok(mut run_two)) = (one.run(Never), two.run(Never)) else {
        return false;
    };
    let both_wait = waits(&mut run_one) & waits(&mut run_two);
    match one.spawn(Visitor(other)) {
        Ok(handle) => handle.detach(),
        Err(_) => return false,
    }
    let is_left = waits(&mut run_two) & (door.polls.get() == 0);
    let is_polled = waits(&mut run_one) & (door.polls.get() == 1);
    both_wait & is_left & is_polled
}

#[test]
fn shared_queue_slot(rt: HostRuntime) {
    assert!(rt; runs_poll_their_own(rt, rt.alloc()));
}

type TestRun<'a, R> = LocalRun<'a, Ready, u64, Nobody, R, Never>;

/// Whether both runs of one executor are pending, and the second is once the first is gone.
fn both_wait<R: Wait + Copy + Drop>(
    one: Result<TestRun<'_, R>, Never>,
    two: Result<TestRun<'_, R>, Never>,
) -> bool {
    let (Ok(mut one), Ok(mut two)) = (one, two) else {
        return false;
    };
    let both = waits(&mut one) & waits(&mut two);
    drop(one);
    both & waits(&mut two)
}

/// Whether runs of two seeds wait, on executors of both kinds.
fn runs_of_two_seeds_wait<R: Abort + RandomSource + Wait + Copy + Drop>(
    rt: R,
    alloc: Global,
) -> bool {
    let owned = Plain::new(rt, alloc, 1).expect(&rt, "memory");
    let fixed = Fixed::new(rt, alloc, 1).expect(&rt, "memory");
    let do_owned = both_wait(owned.run_from(Never, 1), owned.run_from(Never, 2));
    let do_fixed = both_wait(fixed.run_from(Never, 1), fixed.run_from(Never, 2));
    do_owned & do_fixed
}

#[test]
fn two_runs_of_other_seeds_wait(rt: HostRuntime) {
    assert!(rt; runs_of_two_seeds_wait(rt, rt.alloc()));
}

/// Whether an executor shows its counts, and a fallible handle that it is gone.
fn shows_its_counts<R: Abort + RandomSource + Wait + Copy + Drop>(rt: R, alloc: Global) -> bool {
    let executor = Plain::new(rt, alloc, 2).expect(&rt, "memory");
    let Ok(handle) = executor.spawn(Ready(3)) else {
        return false;
    };
    let text = format!(in alloc; "{executor:?}").expect(&rt, "memory");
    let want = "LocalExecutor { active: 1, global_tasks: 1, local_runners: [], sleepers: 0 }";
    let mut handle = handle.fallible();
    drop(executor);
    let is_gone = handle.poll(&LocalExWaker::Outside(Nobody)) == Poll::Ready(Ok(None));
    (text.as_str() == want) & is_gone
}

#[test]
fn an_executor_shows_its_counts(rt: HostRuntime) {
    assert!(rt; shows_its_counts(rt, rt.alloc()));
}
