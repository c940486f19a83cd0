//! A timer that is driven by turns and by a thread: who is woken when, who finds that it was stopped, and ticks.
use async_task::{Future, Nobody, Poll, Wake};
use std::alloc::Global;
use std::sync::atomic::Ordering::SeqCst;
use std::sync::atomic::{AtomicBool, AtomicU64};
use std::sync::{Arc, Wait};
use std::test::Fail;
use std::thread;
use std::time::{Clock, Duration, Instant};
use timer::{Sleep, Timer, Turned};

fn hour() -> Duration {
    Duration::from_secs(3_600)
}

/// A waker whose calls are counted, with those of its copies.
#[derive(Drop)]
struct Counted {
    calls: Arc<AtomicU64>,
}

impl Counted {
    fn new(alloc: Global) -> Option<Counted> {
        match Arc::new(alloc, AtomicU64::new(0)) {
            Ok(calls) => Some(Counted { calls }),
            Err(_) => None,
        }
    }

    fn calls(&self) -> u64 {
        self.calls.load(SeqCst)
    }
}

impl Wake for Counted {
    ghost is_same = { λ a b. Unit {0} };

    fn wake(self) {
        self.wake_by_ref();
    }

    fn wake_by_ref(&self) {
        self.calls.fetch_add(1, SeqCst);
    }

    fn clone(&self) -> Option<Self> {
        match Arc::try_clone(&self.calls) {
            Ok(calls) => Some(Counted { calls }),
            Err(_) => None,
        }
    }

    fn will_wake(&self, _other: &Self) -> bool {
        false
    }
}

/// When a sleep is dropped.
#[derive(Clone, Copy, PartialEq, Eq)]
enum Drops {
    BeforeItsPoll,
    BeforeItIsTold,
    BeforeItIsPolledAgain,
    Behind,
}

/// A sleep of no time of a timer for one, which is dropped then: how often its waker was called, and whether its place is free behind.
fn leaves_its_place<R: Wait + Clock + Copy + Drop>(
    timer: &Timer<Counted, R>,
    waker: &Counted,
    when: Drops,
) -> bool {
    let Ok(mut sleep) = timer.sleep(Duration::ZERO) else {
        return false;
    };
    let is_told = match when {
        Drops::BeforeItsPoll => {
            drop(sleep);
            timer.turn() == Turned::Nobody
        }
        Drops::BeforeItIsTold => {
            let is_pending = matches!(sleep.poll(waker), Poll::Pending);
            drop(sleep);
            is_pending && timer.turn() == Turned::Nobody
        }
        Drops::BeforeItIsPolledAgain => {
            let is_pending = matches!(sleep.poll(waker), Poll::Pending);
            let turned = timer.turn();
            drop(sleep);
            is_pending && turned == Turned::Nobody
        }
        Drops::Behind => {
            let is_pending = matches!(sleep.poll(waker), Poll::Pending);
            let turned = timer.turn();
            let is_ready = matches!(sleep.poll(waker), Poll::Ready(Ok(())));
            drop(sleep);
            is_pending && is_ready && turned == Turned::Nobody
        }
    };
    is_told && timer.sleep(hour()).is_ok()
}

#[test]
fn a_sleep_may_be_dropped_at_any_time(rt: HostRuntime) -> Result<(), Fail> {
    let rows = [
        (Drops::BeforeItsPoll, 0),
        (Drops::BeforeItIsTold, 0),
        (Drops::BeforeItIsPolledAgain, 1),
        (Drops::Behind, 1),
    ];
    for (when, want) in rows.iter() {
        let (Some(waker), Ok(timer)) = (
            Counted::new(rt.alloc()),
            Timer::<Counted, _>::new(rt, rt.alloc(), 1),
        ) else {
            panic!(rt; "refused");
        };
        assert!(rt; leaves_its_place(&timer, &waker, *when));
        drop(timer);
        assert!(rt; waker.calls() == *want);
    }
    Ok(())
}

/// So many sleeps of this duration, each polled once.
fn asleep<R: Wait + Clock + Copy + Drop>(
    alloc: Global,
    timer: &Timer<Counted, R>,
    waker: &Counted,
    duration: Duration,
    count: usize,
) -> Option<Vec<Sleep<Counted, R>>> {
    let Ok(mut sleeps) = Vec::with_capacity(alloc, count) else {
        return None;
    };
    for _ in 0..count {
        let Ok(mut sleep) = timer.sleep(duration) else {
            return None;
        };
        if matches!(sleep.poll(waker), Poll::Ready(_)) || sleeps.push(sleep).is_err() {
            return None;
        }
    }
    Some(sleeps)
}

/// How many of these are ready, and how many of them because the timer was stopped.
fn ready<R: Wait + Copy + Drop>(
    sleeps: &mut Vec<Sleep<Counted, R>>,
    waker: &Counted,
) -> (u64, u64) {
    let (mut ready, mut stopped) = (0u64, 0u64);
    for sleep in sleeps.iter_mut() {
        match sleep.poll(waker) {
            Poll::Ready(Ok(())) => ready = ready.saturating_add(1),
            Poll::Ready(Err(_)) => {
                ready = ready.saturating_add(1);
                stopped = stopped.saturating_add(1);
            }
            Poll::Pending => {}
        }
    }
    (ready, stopped)
}

/// A hundred who are due and a hundred who aren't: a turn tells those who are, and a stop the others.
#[test]
fn a_turn_tells_who_is_due_and_a_stop_the_others(rt: HostRuntime) -> Result<(), Fail> {
    let (Some(waker), Ok(timer)) = (
        Counted::new(rt.alloc()),
        Timer::<Counted, _>::new(rt, rt.alloc(), 200),
    ) else {
        panic!(rt; "refused");
    };
    assert!(rt; timer.turn() == Turned::Nobody);
    let (Some(mut due), Some(mut later)) = (
        asleep(rt.alloc(), &timer, &waker, Duration::ZERO, 100),
        asleep(rt.alloc(), &timer, &waker, hour(), 100),
    ) else {
        panic!(rt; "refused");
    };
    assert!(rt; matches!(timer.turn(), Turned::In(rest) if !rest.is_zero() && rest <= hour()));
    assert!(rt; waker.calls() == 100);
    timer.stop();
    assert!(rt; waker.calls() == 200);
    assert!(rt; timer.turn() == Turned::Closed && timer.sleep(hour()).is_err());
    assert!(rt; ready(&mut due, &waker) == (100, 0) && ready(&mut later, &waker) == (100, 100));
    assert!(rt; ready(&mut due, &waker) == (100, 0) && ready(&mut later, &waker) == (100, 100));
    timer.drive();
    Ok(())
}

/// Sleeps until a time that has come, and until one that hasn't.
#[test]
fn a_sleep_has_a_deadline(rt: HostRuntime) -> Result<(), Fail> {
    let Ok(timer) = Timer::<Nobody, _>::new(rt, rt.alloc(), 2) else {
        panic!(rt; "refused");
    };
    let Ok(other) = timer.clone() else {
        panic!(rt; "refused");
    };
    let Ok(now) = Instant::now(&rt) else {
        panic!(rt; "no clock");
    };
    let Some(later) = now.checked_add(hour()) else {
        panic!(rt; "no such time");
    };
    let (Ok(mut first), Ok(mut second)) = (other.sleep_until(now), timer.sleep_until(later)) else {
        panic!(rt; "refused");
    };
    assert!(rt; matches!(first.poll(&Nobody), Poll::Pending));
    assert!(rt; matches!(timer.turn(), Turned::In(rest) if rest > Duration::from_secs(3_000)));
    assert!(rt; matches!(first.poll(&Nobody), Poll::Ready(Ok(()))));
    assert!(rt; matches!(second.poll(&Nobody), Poll::Pending));
    Ok(())
}

/// The first tick comes at once, those that were missed one behind the other, and none behind a close.
#[test]
fn ticks_that_were_missed_come_at_once(rt: HostRuntime) -> Result<(), Fail> {
    let Ok(timer) = Timer::<Nobody, _>::new(rt, rt.alloc(), 2) else {
        panic!(rt; "refused");
    };
    let (Ok(mut rare), Ok(mut often)) = (
        timer.interval(hour()),
        timer.interval(Duration::from_millis(1)),
    ) else {
        panic!(rt; "refused");
    };
    assert!(rt; matches!(rare.poll(&Nobody), Poll::Ready(Ok(()))));
    assert!(rt; matches!(rare.poll(&Nobody), Poll::Pending));
    thread::sleep(&rt, Duration::from_millis(12));
    for _ in 0..12u64 {
        assert!(rt; matches!(often.poll(&Nobody), Poll::Ready(Ok(()))));
    }
    timer.close();
    thread::sleep(&rt, Duration::from_millis(30));
    assert!(rt; matches!(often.poll(&Nobody), Poll::Ready(Ok(()))));
    assert!(rt; matches!(often.poll(&Nobody), Poll::Ready(Err(_))));
    assert!(rt; matches!(often.poll(&Nobody), Poll::Ready(Err(_))));
    timer.stop();
    assert!(rt; matches!(rare.poll(&Nobody), Poll::Ready(Err(_))));
    timer.drive();
    Ok(())
}

/// Whether the waker is called once within five seconds.
fn is_called_once<R: Clock>(rt: &R, waker: &Counted) -> bool {
    for _ in 0..5_000u64 {
        if waker.calls() == 1 {
            return true;
        }
        thread::sleep(rt, Duration::from_millis(1));
    }
    false
}

/// Whether this is set within five seconds.
fn is_set<R: Clock>(rt: &R, flag: &AtomicBool) -> bool {
    for _ in 0..5_000u64 {
        if flag.load(SeqCst) {
            return true;
        }
        thread::sleep(rt, Duration::from_millis(1));
    }
    false
}

/// Who comes while a driver waits for one who sleeps an hour: one who is due before that, who is called; one who is dropped; and who
/// closes, or stops.
fn comes_later<R: Wait + Clock + Copy + Drop>(
    rt: R,
    timer: &Timer<Counted, R>,
    waker: &Counted,
    has_ended: &AtomicBool,
    stops: bool,
) -> bool {
    thread::sleep(&rt, Duration::from_millis(5));
    let (Ok(mut long), Ok(mut short)) = (timer.sleep(hour()), timer.sleep(Duration::from_millis(5)))
    else {
        timer.stop();
        return false;
    };
    let mut is_well = matches!(long.poll(waker), Poll::Pending);
    is_well &= matches!(short.poll(waker), Poll::Pending);
    is_well &= is_called_once(&rt, waker);
    is_well &= matches!(short.poll(waker), Poll::Ready(Ok(())));
    is_well &= !has_ended.load(SeqCst);
    if stops {
        timer.stop();
        is_well &= matches!(long.poll(waker), Poll::Ready(Err(_)));
    } else {
        timer.close();
        drop(long);
    }
    let is_told = is_set(&rt, has_ended);
    timer.stop();
    is_well && is_told
}

#[test]
fn a_driver_that_waits_is_told_of_what_comes_later(rt: HostRuntime) -> Result<(), Fail> {
    for stops in [false, true].iter() {
        let has_ended = AtomicBool::new(false);
        let (Some(waker), Ok(timer)) = (
            Counted::new(rt.alloc()),
            Timer::<Counted, _>::new(rt, rt.alloc(), 4),
        ) else {
            panic!(rt; "refused");
        };
        let later = || comes_later(rt, &timer, &waker, &has_ended, *stops);
        let drive = || {
            timer.drive();
            has_ended.store(true, SeqCst);
        };
        let (is_well, ()) = thread::join(&rt, later, drive);
        assert!(rt; is_well);
    }
    Ok(())
}

/// A driver that waits for other things too leaves its waker, which is called for one who is due earlier and for the end, once.
fn a_driver_is_called<R: Wait + Clock + Copy + Drop>(rt: R, alloc: Global) -> Option<bool> {
    let timer = Timer::<Counted, R>::new(rt, alloc, 4).ok()?;
    let driver = Counted::new(alloc)?;
    let mut is_well = timer.turn_for(&driver) == Turned::Nobody;
    let _late = timer.sleep(Duration::from_secs(7_200)).ok()?;
    is_well &= driver.calls() == 1;
    let _first = timer.sleep(hour()).ok()?;
    is_well &= driver.calls() == 1;
    is_well &= matches!(timer.turn_for(&driver), Turned::In(rest) if rest <= hour());
    let _later = timer.sleep(Duration::from_secs(4_000)).ok()?;
    is_well &= driver.calls() == 1;
    let _earlier = timer.sleep(Duration::from_secs(60)).ok()?;
    is_well &= driver.calls() == 2;
    is_well &=
        matches!(timer.turn_for(&driver), Turned::In(rest) if rest <= Duration::from_secs(60));
    timer.close();
    Some(is_well & (driver.calls() == 3))
}

#[test]
fn a_driver_that_waits_for_other_things_is_called(rt: HostRuntime) {
    assert!(rt; a_driver_is_called(rt, rt.alloc()) == Some(true));
}

/// A driver that left its waker is called for the next tick of an interval where that is due before what it waits for.
fn a_tick_calls_the_driver<R: Wait + Clock + Copy + Drop>(rt: R, alloc: Global) -> Option<bool> {
    let timer = Timer::<Counted, R>::new(rt, alloc, 4).ok()?;
    let (driver, waker) = (Counted::new(alloc)?, Counted::new(alloc)?);
    let _late = timer.sleep(hour()).ok()?;
    let mut often = timer.interval(Duration::from_secs(60)).ok()?;
    let mut is_well = matches!(timer.turn_for(&driver), Turned::In(_));
    is_well &= matches!(often.poll(&waker), Poll::Ready(Ok(())));
    is_well &= driver.calls() == 1;
    let mut rare = timer.interval(Duration::from_secs(7_200)).ok()?;
    is_well &= matches!(timer.turn_for(&driver), Turned::In(_));
    is_well &= matches!(rare.poll(&waker), Poll::Ready(Ok(())));
    Some(is_well & (driver.calls() == 1))
}

#[test]
fn a_driver_is_called_for_a_tick_that_comes_first(rt: HostRuntime) {
    assert!(rt; a_tick_calls_the_driver(rt, rt.alloc()) == Some(true));
}
