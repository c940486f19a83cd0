//! A semaphore, by its public calls: on one thread by rows, and between threads.
use crate::waits::bell::Bell;
use crate::waits::total;
use async_task::{Future, Nobody, Poll};
use blocking::{ThreadWaker, block_on};
use std::alloc::Global;
use std::sync::Wait;
use std::sync::atomic::AtomicU64;
use std::sync::atomic::Ordering::SeqCst;
use std::{io, thread};
use waiting::semaphore::{Acquire, AcquireError, Permit, Semaphore, TryAcquireError};

/// The example of the doc comment.
#[test]
fn a_permit_that_comes_back_is_promised(rt: HostRuntime) -> io::Result<()> {
    let semaphore = Semaphore::<Nobody, _>::new(rt, rt.alloc(), 1)?;
    let first = semaphore.try_acquire()?;
    let mut second = semaphore.acquire()?;
    assert!(rt; matches!(second.poll(&Nobody), Poll::Pending));
    drop(first);
    assert!(rt; matches!(semaphore.try_acquire(), Err(TryAcquireError::NoPermits)));
    assert!(rt; matches!(second.poll(&Nobody), Poll::Ready(Ok(_))));
    assert!(rt; semaphore.available_permits() == 1);
    Ok(())
}

/// What is done with a semaphore of one permit.
#[derive(Clone, Copy)]
enum Act {
    Try,
    Release,
    Forget,
    Add(u64),
    Close,
    /// One of two asks, or is polled again.
    One,
    Two,
    /// It is dropped.
    OneGoes,
    TwoGoes,
    /// It gives its permit back.
    OneReleases,
}

use Act::{Add, Close, Forget, One, OneGoes, OneReleases, Release, Try, Two, TwoGoes};

/// One who asks, and what it had last.
#[derive(Drop)]
struct Asks<R: Wait + Copy + Drop> {
    bell: Bell,
    acquire: Option<Acquire<Bell, R>>,
    permit: Option<Permit<Bell, R>>,
    is_shut: bool,
}

impl<R: Wait + Copy + Drop> Asks<R> {
    fn new(alloc: Global) -> io::Result<Asks<R>> {
        Ok(Asks {
            bell: Bell::new(alloc, false)?,
            acquire: None,
            permit: None,
            is_shut: false,
        })
    }

    fn asks(&mut self, semaphore: &Semaphore<Bell, R>) -> io::Result<()> {
        let mut acquire = match self.acquire.take() {
            Some(acquire) => acquire,
            None => semaphore.acquire()?,
        };
        match acquire.poll(&self.bell) {
            Poll::Ready(Ok(permit)) => self.permit = Some(permit),
            Poll::Ready(Err(error)) => self.is_shut = error == AcquireError::Closed,
            Poll::Pending => self.acquire = Some(acquire),
        }
        Ok(())
    }
}

#[derive(Drop)]
struct Desk<R: Wait + Copy + Drop> {
    semaphore: Semaphore<Bell, R>,
    tried: Option<Permit<Bell, R>>,
    one: Asks<R>,
    two: Asks<R>,
}

impl<R: Wait + Copy + Drop> Desk<R> {
    fn act(&mut self, act: Act) -> io::Result<()> {
        match act {
            Try => {
                if let Ok(permit) = self.semaphore.try_acquire() {
                    self.tried = Some(permit);
                }
            }
            Release => self.tried = None,
            Forget => {
                if let Some(permit) = self.tried.take() {
                    permit.forget();
                }
            }
            Add(permits) => self.semaphore.add_permits(permits),
            Close => {
                self.semaphore.close();
            }
            One => self.one.asks(&self.semaphore)?,
            Two => self.two.asks(&self.semaphore)?,
            OneGoes => self.one.acquire = None,
            TwoGoes => self.two.acquire = None,
            OneReleases => self.one.permit = None,
        }
        Ok(())
    }
}

/// What is seen at the end: what is free; who has a permit, of the try and of both who ask; how often these were called; and who
/// of them found that it is closed.
#[derive(Clone, Copy, PartialEq, Eq)]
struct Seen {
    free: u64,
    has: (bool, bool, bool),
    calls: (u64, u64),
    shut: (bool, bool),
}

fn sight(free: u64, has: (bool, bool, bool), calls: (u64, u64), shut: (bool, bool)) -> Seen {
    Seen {
        free,
        has,
        calls,
        shut,
    }
}

fn is_seen<R: Wait + Copy + Drop>(
    rt: R,
    alloc: Global,
    acts: &[Act],
    want: Seen,
) -> io::Result<bool> {
    let mut desk = Desk {
        semaphore: Semaphore::new(rt, alloc, 1)?,
        tried: None,
        one: Asks::new(alloc)?,
        two: Asks::new(alloc)?,
    };
    for act in acts {
        desk.act(*act)?;
    }
    let has = (
        desk.tried.is_some(),
        desk.one.permit.is_some(),
        desk.two.permit.is_some(),
    );
    let calls = (desk.one.bell.calls(), desk.two.bell.calls());
    let shut = (desk.one.is_shut, desk.two.is_shut);
    Ok(sight(desk.semaphore.available_permits(), has, calls, shut) == want)
}

const YES: bool = true;

const NO: bool = false;

const OPEN: (bool, bool) = (NO, NO);

#[test]
fn free_permits_are_taken(rt: HostRuntime) -> io::Result<()> {
    let rows: [(&[Act], Seen); 7] = [
        (&[], sight(1, (NO, NO, NO), (0, 0), OPEN)),
        (&[Try, Try], sight(0, (YES, NO, NO), (0, 0), OPEN)),
        (&[Try, Release], sight(1, (NO, NO, NO), (0, 0), OPEN)),
        (&[Try, Forget], sight(0, (NO, NO, NO), (0, 0), OPEN)),
        (
            &[Try, Forget, Add(2), One],
            sight(1, (NO, YES, NO), (0, 0), OPEN),
        ),
        (
            &[Add(u64::MAX), Add(1), Try],
            sight(u64::MAX - 1, (YES, NO, NO), (0, 0), OPEN),
        ),
        (&[One, OneGoes, Two], sight(0, (NO, YES, NO), (0, 0), OPEN)),
    ];
    for (acts, want) in rows {
        assert!(rt; is_seen(rt, rt.alloc(), acts, want)?);
    }
    Ok(())
}

#[test]
fn permits_go_to_who_came_first(rt: HostRuntime) -> io::Result<()> {
    let rows: [(&[Act], Seen); 8] = [
        (
            &[Try, One, Two, Release],
            sight(0, (NO, NO, NO), (1, 0), OPEN),
        ),
        (
            &[Try, One, Two, Release, Two, Try, One],
            sight(0, (NO, YES, NO), (1, 0), OPEN),
        ),
        (
            &[Try, One, Two, Release, One, OneReleases, Two],
            sight(0, (NO, NO, YES), (1, 1), OPEN),
        ),
        (
            &[Try, One, Two, OneGoes, Release, Two],
            sight(0, (NO, NO, YES), (0, 1), OPEN),
        ),
        (
            &[Try, One, Two, Release, OneGoes, Two],
            sight(0, (NO, NO, YES), (1, 1), OPEN),
        ),
        (
            &[Try, One, Release, OneGoes],
            sight(1, (NO, NO, NO), (1, 0), OPEN),
        ),
        (
            &[Try, One, Two, TwoGoes, Add(1), One, Two],
            sight(0, (YES, YES, NO), (1, 0), OPEN),
        ),
        (
            &[Try, One, Two, Add(5), Two, One],
            sight(3, (YES, YES, YES), (1, 1), OPEN),
        ),
    ];
    for (acts, want) in rows {
        assert!(rt; is_seen(rt, rt.alloc(), acts, want)?);
    }
    Ok(())
}

#[test]
fn a_close_answers_who_waits(rt: HostRuntime) -> io::Result<()> {
    let rows: [(&[Act], Seen); 3] = [
        (
            &[Try, One, Two, Close, One, Two],
            sight(0, (YES, NO, NO), (1, 1), (YES, YES)),
        ),
        (
            &[Try, One, Two, Release, Close, One, Two],
            sight(1, (NO, NO, NO), (1, 1), (YES, YES)),
        ),
        (
            &[Close, Try, One],
            sight(1, (NO, NO, NO), (0, 0), (YES, NO)),
        ),
    ];
    for (acts, want) in rows {
        assert!(rt; is_seen(rt, rt.alloc(), acts, want)?);
    }
    Ok(())
}

#[test]
fn a_semaphore_is_closed_once(rt: HostRuntime) -> io::Result<()> {
    let semaphore = Semaphore::<Nobody, _>::new(rt, rt.alloc(), 2)?;
    let same = semaphore.clone()?;
    let mut waits = semaphore.acquire()?;
    assert!(rt; !same.is_closed() & semaphore.close() & !same.close() & same.is_closed());
    assert!(rt; matches!(same.try_acquire(), Err(TryAcquireError::Closed)));
    for _ in 0..2 {
        assert!(rt; matches!(waits.poll(&Nobody), Poll::Ready(Err(AcquireError::Closed))));
    }
    Ok(())
}

/// Who gave its permit is pending, and calls nobody. Who can't leave its waker calls it.
#[test]
fn who_has_given_its_permit_is_pending(rt: HostRuntime) -> io::Result<()> {
    let bell = Bell::new(rt.alloc(), true)?;
    let semaphore = Semaphore::<Bell, _>::new(rt, rt.alloc(), 1)?;
    let mut first = semaphore.acquire()?;
    let mut second = semaphore.acquire()?;
    let permit = first.poll(&bell);
    assert!(rt; matches!(permit, Poll::Ready(Ok(_))) & (bell.calls() == 0));
    assert!(rt; matches!(first.poll(&bell), Poll::Pending) & (bell.calls() == 0));
    assert!(rt; matches!(second.poll(&bell), Poll::Pending) & (bell.calls() == 1));
    drop(first);
    drop(permit);
    assert!(rt; matches!(second.poll(&bell), Poll::Ready(Ok(_))) & (bell.calls() == 1));
    Ok(())
}

/// Four threads take one of two permits 200 times each. Never have more than two one, and both are free at the end.
#[test]
fn no_more_have_one_than_there_are(rt: HostRuntime) -> io::Result<()> {
    let alloc = rt.alloc();
    let semaphore = Semaphore::<ThreadWaker, _>::new(rt, alloc, 2)?;
    let (inside, most) = (AtomicU64::new(0), AtomicU64::new(0));
    let works = |_| {
        let mut taken = 0u64;
        for _ in 0..200 {
            let Ok(acquire) = semaphore.acquire() else {
                return taken;
            };
            if let Ok(Ok(permit)) = block_on::<ThreadWaker, _, _>(&rt, alloc, acquire) {
                let others = inside.fetch_add(1, SeqCst);
                most.fetch_max(others.saturating_add(1), SeqCst);
                inside.fetch_sub(1, SeqCst);
                taken = taken.saturating_add(1);
                drop(permit);
            }
        }
        taken
    };
    let ends = thread::map_indices(&rt, alloc, 4, &works);
    assert!(rt; (total(ends) == 800) & (most.load(SeqCst) <= 2));
    assert!(rt; semaphore.available_permits() == 2);
    Ok(())
}

/// Three threads wait for a permit that none gives, until another closes the semaphore.
#[test]
fn all_who_wait_are_told_of_a_close(rt: HostRuntime) -> io::Result<()> {
    let alloc = rt.alloc();
    let semaphore = Semaphore::<ThreadWaker, _>::new(rt, alloc, 0)?;
    let waits = |_| {
        let Ok(acquire) = semaphore.acquire() else {
            return 0;
        };
        match block_on::<ThreadWaker, _, _>(&rt, alloc, acquire) {
            Ok(Err(AcquireError::Closed)) => 1,
            _ => 0,
        }
    };
    let wait = || total(thread::map_indices(&rt, alloc, 3, &waits));
    let (told, closes) = thread::join(&rt, wait, || semaphore.close());
    assert!(rt; (told == 3) & closes);
    Ok(())
}
