ghost use Rattle.std.specs.Arc.{arc_value};
ghost use Rattle.std.specs.Duration.{as_nanos};
ghost use Rattle.std.specs.Prelude.{◌≡◌, ◌-◌, IfOk, IfSome, IsSome};
ghost use Rattle.std.specs.Time.{instant_nanos};
ghost use Rattle.timer.specs.Sleeping.{IsDueAfter};

use crate::deadlines::Deadlines;
use crate::errors::{SleepError, TimerError};
use crate::interval::Interval;
use crate::shared::Shared;
use crate::sleep::Sleep;
use crate::told::room_of;
use async_task::{NoMemory, Wake};
use blocking::Beside;
use std::alloc::Global;
use std::sync::{Arc, Wait};
use std::time::{Clock, Duration, Instant};

/// The state that a turn of the driver left.
#[derive(Clone, Copy, Debug, PartialEq, Eq, Drop)]
pub enum Turned {
    /// The next sleep is due once this much time has passed.
    In(Duration),
    /// Nobody sleeps.
    Nobody,
    /// Nobody sleeps, and no new sleep is taken.
    Closed,
}

/// A timer for a number of sleepers at a time. One thread drives it, which wakes each sleeper once its time has come. The type of
/// their wakers is `K`.
///
/// Wakers are called and dropped with no lock held.
///
/// `sleep`, `sleep_until`, `interval` and `timeout` have their names from `tokio::time`. A timer asks for a runtime value that may
/// wait and reads the clock, the allocator, and the number of sleepers. `new` takes the memory for all of them; to sleep, close or
/// stop takes none. One sleeper too many gets `Full`, and a closed timer answers `Closed`. A sleep whose timer is stopped before
/// its time is ready with `Stopped`. This is one handle of the timer, and `clone` makes others.
///
/// In `sleepers` of `examples` the thread that runs the executor drives the timer too:
///
/// ```
/// let timer = Timer::new(rt, alloc, 10)?;
/// let executor = Executor::new(rt, alloc, realm, 10)?;
/// let mut sleepers = Vec::with_capacity(alloc, 10)?;
/// for number in 0..10u64 {
///     let sleep = timer.sleep(Duration::from_millis(9u64.saturating_sub(number)))?;
///     sleepers.push(Sleeper(sleep, number))?;
/// }
/// let (handles, _) = executor.spawn_many(&mut sleepers.into_iter());
/// let all = JoinAll::new(rt, alloc, realm, handles);
/// let woken = run_until_beside(&rt, alloc, &executor, &timer, all)??;
/// ```
#[derive(Drop)]
pub struct Timer<K: Wake + Drop, R: Wait + Copy + Drop> {
    shared: Arc<Shared<K>>,
    rt: R,
}

impl<K: Wake + Drop, R: Wait + Clock + Copy + Drop> Timer<K, R> {
    /// Makes a timer for this many sleepers at a time, and takes the memory for all of them now.
    pub fn new(rt: R, alloc: Global, sleepers: usize) -> Result<Self, TimerError> {
        let Ok(start) = Instant::now(&rt) else {
            return Err(TimerError::NoClock);
        };
        let Ok(deadlines) = Deadlines::with_room(alloc, sleepers) else {
            return Err(TimerError::NoMemory);
        };
        let Ok(room) = room_of(alloc, sleepers) else {
            return Err(TimerError::NoMemory);
        };
        match Arc::new(alloc, Shared::new(start, deadlines, room)) {
            Ok(shared) => Ok(Timer { shared, rt }),
            Err(_) => Err(TimerError::NoMemory),
        }
    }

    /// Makes another handle of the same timer, to sleep or to drive it; refused where it has too many already. It takes no memory.
    pub fn clone(&self) -> Result<Self, NoMemory>
        ensures same { IfOk result (λ timer. arc_value timer.shared ≡ arc_value self.now.shared) }
    {
        match Arc::try_clone(&self.shared) {
            Ok(shared) => Ok(Timer {
                shared,
                rt: self.rt,
            }),
            Err(_) => Err(NoMemory),
        }
    }

    /// Makes a future that is ready once this much time has passed from now on. It takes no memory.
    pub fn sleep(&self, duration: Duration) -> Result<Sleep<K, R>, SleepError>
        ensures here { IfOk result (λ sleep. arc_value sleep.shared ≡ arc_value self.now.shared) }
        ensures waits { IfOk result (λ sleep. IsSome sleep.entry) }
        ensures due { IfOk result (λ sleep. IfSome sleep.entry (λ entry. IsDueAfter duration entry.due)) }
    {
        let passed = self.shared.passed(&self.rt);
        let due = passed.saturating_add(duration);
        self.sleep_till(due)
    }

    /// Makes a future that is ready once this time has come; at once, where it came before. It takes no memory.
    pub fn sleep_until(&self, deadline: Instant) -> Result<Sleep<K, R>, SleepError>
        ensures here { IfOk result (λ sleep. arc_value sleep.shared ≡ arc_value self.now.shared) }
        ensures waits { IfOk result (λ sleep. IsSome sleep.entry) }
        ensures due { IfOk result (λ sleep. IfSome sleep.entry
            (λ entry. entry.due ≡ instant_nanos deadline - instant_nanos (arc_value self.now.shared).start)) }
    {
        let due = self.shared.until(deadline);
        self.sleep_till(due)
    }

    /// Ticks once each period, the first time at once. It takes one place, and no memory. `Interval` says what becomes of a tick
    /// that is missed.
    pub fn interval(&self, period: Duration) -> Result<Interval<K, R>, SleepError>
        ensures here { IfOk result (λ interval. arc_value interval.shared ≡ arc_value self.now.shared) }
        ensures waits { IfOk result (λ interval. IsSome interval.entry) }
        ensures due { IfOk result (λ interval. IfSome interval.entry (λ entry. entry.due ≡ as_nanos interval.due)) }
        ensures period { IfOk result (λ interval. interval.period ≡ period) }
    {
        let Ok(shared) = Arc::try_clone(&self.shared) else {
            return Err(SleepError::Full);
        };
        let due = self.shared.passed(&self.rt);
        match self.shared.enter(&self.rt, due) {
            Ok(entry) => Ok(Interval::new(self.rt, shared, period, due, entry)),
            Err(refused) => Err(SleepError::from(refused)),
        }
    }

    /// Sleeps until this much time has passed since the timer's start.
    fn sleep_till(&self, due: Duration) -> Result<Sleep<K, R>, SleepError>
        ensures here { IfOk result (λ sleep. arc_value sleep.shared ≡ arc_value self.now.shared) }
        ensures waits { IfOk result (λ sleep. IsSome sleep.entry) }
        ensures due { IfOk result (λ sleep. IfSome sleep.entry (λ entry. entry.due ≡ as_nanos due)) }
    {
        let Ok(shared) = Arc::try_clone(&self.shared) else {
            return Err(SleepError::Full);
        };
        match self.shared.enter(&self.rt, due) {
            Ok(entry) => Ok(Sleep::new(self.rt, shared, entry)),
            Err(refused) => Err(SleepError::from(refused)),
        }
    }

    /// Runs one turn of the driver: wakes all sleepers that are due by now, and waits for nobody. It answers when the next is due.
    /// It is for a thread that waits for several things, and for a clock of your own. Where the clock can't be read, it takes each
    /// sleeper as due.
    pub fn turn(&self) -> Turned {
        let passed = self.shared.passed(&self.rt);
        for _ in self.rt.forever() {
            match self.shared.tell_due(&self.rt, passed) {
                Turned::In(rest) if rest.is_zero() => {}
                turned => return turned,
            }
        }
        unreachable!()
    }

    /// Runs a turn of a driver that waits for other things too, and registers its waker. The waker is called once a sleeper is due
    /// before the answered time, or the timer takes no new sleep. It stands in the place of the one before, until it is called.
    pub fn turn_for(&self, waker: &K) -> Turned {
        self.shared.leave_driver(&self.rt, waker);
        self.turn()
    }

    /// Drives the timer on this thread, until it is closed or stopped and nobody sleeps any more. Where the clock can't be read,
    /// it takes each sleeper as due.
    ///
    /// 1. Reads how often it was notified of a change, so that one that comes later ends its wait.
    /// 2. Marks those that are due, under the lock, and calls their wakers with no lock held.
    /// 3. Where none is left it waits, until the next is due or something changed.
    pub fn drive(&self) {
        for _ in self.rt.forever() {
            let seen = self.shared.changed.notifications();
            match self.turn() {
                Turned::In(longest) => {
                    self.shared.changed.sleep(&self.rt, seen, longest);
                }
                Turned::Nobody => {
                    self.shared.changed.sleep(&self.rt, seen, Duration::MAX);
                }
                Turned::Closed => return,
            }
        }
        unreachable!()
    }

    /// Closes the timer: it takes no new sleep. Sleepers are woken in their time, and then a driver ends. It takes no memory.
    pub fn close(&self) {
        self.shared.close(&self.rt);
    }

    /// Stops the timer: it takes no new sleep, and sleepers are woken now. They are ready with `Stopped`, and a driver ends. A
    /// sleeper that was already woken since its time had come is ready without an error. It takes no memory.
    pub fn stop(&self) {
        self.shared.close(&self.rt);
        for _ in self.rt.forever() {
            if self.shared.dismiss_some(&self.rt) {
                self.shared.notify(&self.rt);
                return;
            }
        }
        unreachable!()
    }
}

/// A thread that blocks on a future can drive the timer too: `block_on_beside` of `blocking`, `run_until_beside` of `workers`.
impl<K: Wake + Drop, R: Wait + Clock + Copy + Drop> Beside<K> for Timer<K, R> {
    fn turn(&self, waker: &K) -> Option<Duration> {
        match self.turn_for(waker) {
            Turned::In(rest) => Some(rest),
            Turned::Nobody | Turned::Closed => None,
        }
    }
}
