//! Ticks: one that finds no task falls asleep among the sleepers, and is called where a task comes.
ghost use Rattle.std.specs.Prelude.{◌≡◌, OnOk, IfErr, IfOk};
ghost use Rattle.executor_parts.specs.Sleepers.{waker_of};
ghost use Rattle.solo.specs.Runs as runs;
ghost use Rattle.solo.specs.Ticks as ticks;

use crate::names::{SoloWaker, Task};
use crate::owed::{Found, Told, silent};
use crate::solo::Solo;
use executor_parts::{Again, Room, Sleeper, Slept, Unreserved, WokenUp};
use std::alloc::AllocError;

/// A tick, as its executor knows it. It has no drop: it ends by `tick_leave`.
#[must_use]
pub enum Ticker {
    /// It doesn't sleep, and has room to.
    Awake(Room),
    /// It is among the sleepers.
    Asleep(Sleeper),
}

/// How far a poll of a tick has come.
#[must_use]
pub enum Look<F> {
    /// A task was taken: once it is run, the tick is ready.
    Took(Found<F>),
    /// There was none, and it fell asleep, or one was queued before it did: it looks again, with a further copy of its waker.
    Again,
    /// There was none, and it sleeps: it is pending.
    Nothing,
}

/// What a tick's look hands out: it is taken apart in this order.
#[must_use]
pub struct Ticked<F, X> {
    /// The tick, which looks again or leaves.
    pub ticker: Ticker,
    /// What it found.
    pub look: Look<F>,
    /// A sleeper's waker: it is called.
    pub sleeper: Option<X>,
    /// The waker with which the tick slept: it is dropped.
    pub old: Option<X>,
    /// The waker that was handed in, where the tick didn't fall asleep with it: it is dropped.
    pub spare: Option<SoloWaker<X>>,
    /// A task that the queue has turned away: it goes to `retract`.
    pub returned: Option<Task>,
}

/// What a sleeper's waker that goes hands out.
#[must_use]
pub struct Dropped<X> {
    /// It is dropped.
    pub old: Option<X>,
    /// What the release of a task's own waker hands out.
    pub told: Told<X>,
}

/// How one woke up.
#[must_use]
pub struct WokeUp<X> {
    /// Its room.
    pub room: Room,
    /// Its waker.
    pub dropped: Dropped<X>,
}

impl<F, T, X> Solo<F, T, X> {
    /// A new tick. Its room among the sleepers is taken here; refused, nothing changes.
    pub fn tick(&mut self) -> Result<Ticker, AllocError>
        ensures ok { OnOk result (self.new ≡ ticks.roomy self.old) }
        ensures awake { IfOk result (λ ticker. ticker ≡ runs.awake) }
        ensures err { IfErr result (λ _. self.new ≡ self.old) }
    {
        match self.sleepers.make_room() {
            Ok(room) => Ok(Ticker::Awake(room)),
            Err(error) => Err(error),
        }
    }

    /// A tick looks for a task. Where there is none it falls asleep with this copy of its waker.
    pub fn tick_take(&mut self, ticker: Ticker, waker: SoloWaker<X>) -> Ticked<F, X>
        ensures solo { self.new ≡ ticks.taken ticker waker self.old }
        ensures ticked { result ≡ ticks.take_answer ticker waker self.old }
    {
        match self.lines.search().task {
            Some(task) => self.found(ticker, Some(waker), task),
            None => self.fall_asleep(ticker, waker),
        }
    }

    /// A tick looks for a task without a waker. Where there is none it comes back.
    pub fn tick_search(&mut self, ticker: Ticker) -> Result<Ticked<F, X>, Ticker>
        ensures solo { self.new ≡ ticks.searched ticker self.old }
        ensures ticked { result ≡ ticks.search_answer ticker self.old }
    {
        match self.lines.search().task {
            Some(task) => Ok(self.found(ticker, None, task)),
            None => Err(ticker),
        }
    }

    /// A tick or run whose search has found nothing falls asleep with this copy of its waker. Where a task is queued by now it
    /// searches again first.
    pub fn tick_sleep(&mut self, ticker: Ticker, waker: SoloWaker<X>) -> Ticked<F, X>
        ensures solo { self.new ≡ ticks.slept ticker waker self.old }
        ensures ticked { result ≡ ticks.slept_answer ticker waker self.old }
    {
        if self.lines.is_empty() {
            self.fall_asleep(ticker, waker)
        } else {
            self.looked(ticker, Look::Again, None, Some(waker))
        }
    }

    /// A tick has taken a task: it wakes up, a sleeper is told, and the task's turn begins.
    fn found(&mut self, ticker: Ticker, spare: Option<SoloWaker<X>>, task: Task) -> Ticked<F, X>
        ensures solo { self.new ≡ ticks.found ticker task self.old }
        ensures ticked { result ≡ ticks.found_answer ticker spare task self.old }
    {
        let WokeUp { room, dropped } = self.wake_up(ticker);
        let Dropped { old, told } = dropped;
        let Told { sleeper, returned } = told;
        let sleeper = self.tell_unless(sleeper);
        let found = self.begin(task);
        Ticked {
            ticker: Ticker::Awake(room),
            look: Look::Took(found),
            sleeper,
            old,
            spare,
            returned,
        }
    }

    /// A sleeper is told, where this call hasn't told one.
    pub(crate) fn tell_unless(&mut self, told: Option<X>) -> Option<X>
        ensures solo { self.new ≡ ticks.told_unless told self.old }
        ensures sleeper { result ≡ ticks.tell_unless_answer told self.old }
    {
        match told {
            Some(waker) => Some(waker),
            None => self.tell(),
        }
    }

    /// A sleeper's waker is let go: that of a task inside, and the user's by the user.
    fn drop_waker(&mut self, waker: Option<SoloWaker<X>>) -> Dropped<X>
        ensures solo { self.new ≡ ticks.waker_dropped waker self.old }
        ensures dropped { result ≡ ticks.drop_waker_answer waker self.old }
    {
        match waker {
            Some(SoloWaker::Task(task)) => Dropped {
                old: None,
                told: self.let_go(task),
            },
            Some(SoloWaker::Outside(waker)) => Dropped {
                old: Some(waker),
                told: silent(),
            },
            None => Dropped {
                old: None,
                told: silent(),
            },
        }
    }

    pub(crate) fn wake_up(&mut self, ticker: Ticker) -> WokeUp<X>
        ensures solo { self.new ≡ ticks.woke_up ticker self.old }
        ensures dropped { result.dropped ≡ ticks.wake_up_answer ticker self.old }
    {
        match ticker {
            Ticker::Awake(room) => WokeUp {
                room,
                dropped: self.drop_waker(None),
            },
            Ticker::Asleep(sleeper) => {
                let WokenUp {
                    room,
                    waker,
                    notified,
                } = self.sleepers.wake_up(sleeper);
                self.notified = notified;
                WokeUp {
                    room,
                    dropped: self.drop_waker(waker),
                }
            }
        }
    }

    pub(crate) fn fall_asleep(&mut self, ticker: Ticker, waker: SoloWaker<X>) -> Ticked<F, X>
        ensures solo { self.new ≡ ticks.fallen_asleep ticker waker self.old }
        ensures ticked { result ≡ ticks.sleep_answer ticker waker self.old }
    {
        match ticker {
            Ticker::Awake(room) => match self.sleepers.fall_asleep(room, waker) {
                Ok(Slept { sleeper, notified }) => {
                    self.notified = notified;
                    self.looked(Ticker::Asleep(sleeper), Look::Again, None, None)
                }
                Err(Unreserved { room, waker }) => self.looked(
                    Ticker::Awake(room),
                    Look::Nothing,
                    None,
                    Some(waker),
                ),
            },
            Ticker::Asleep(sleeper) => match self.sleepers.fall_asleep_again(&sleeper, waker) {
                Again::Replaced(old) => self.looked(
                    Ticker::Asleep(sleeper),
                    Look::Nothing,
                    Some(old),
                    None,
                ),
                Again::Notified(notified) => {
                    self.notified = notified;
                    self.looked(Ticker::Asleep(sleeper), Look::Again, None, None)
                }
                Again::Unknown(waker) => self.looked(
                    Ticker::Asleep(sleeper),
                    Look::Nothing,
                    None,
                    Some(waker),
                ),
            },
        }
    }

    /// A look ends without a task: the waker that was replaced is let go.
    fn looked(
        &mut self,
        ticker: Ticker,
        look: Look<F>,
        old: Option<SoloWaker<X>>,
        spare: Option<SoloWaker<X>>,
    ) -> Ticked<F, X>
        ensures solo { self.new ≡ ticks.waker_dropped old self.old }
        ensures ticked { result ≡ ticks.look_answer ticker look old spare self.old }
    {
        let Dropped { old, told } = self.drop_waker(old);
        let Told { sleeper, returned } = told;
        Ticked {
            ticker,
            look,
            sleeper,
            old,
            spare,
            returned,
        }
    }

    /// A tick goes, with its room. One that was notified passes that on.
    pub fn tick_leave(&mut self, ticker: Ticker) -> Dropped<X>
        ensures solo { self.new ≡ ticks.left ticker self.old }
        ensures dropped { result ≡ ticks.leave_answer ticker self.old }
    {
        match ticker {
            Ticker::Awake(room) => {
                self.sleepers.give_back(room);
                self.drop_waker(None)
            }
            Ticker::Asleep(sleeper) => match self.go(sleeper) {
                None => Dropped {
                    old: None,
                    told: Told {
                        sleeper: self.tell(),
                        returned: None,
                    },
                },
                Some(waker) => self.drop_waker(Some(waker)),
            },
        }
    }

    /// Who sleeps under a number goes, with its room. Its waker is the answer, and none where it was notified.
    fn go(&mut self, sleeper: Sleeper) -> Option<SoloWaker<X>>
        ensures solo { self.new ≡ ticks.gone sleeper.number self.old }
        ensures waker { result ≡ waker_of sleeper.number self.old.sleepers.wakers }
    {
        let (woken_up, _was_notified) = self.sleepers.leave(sleeper);
        let WokenUp {
            room,
            waker,
            notified,
        } = woken_up;
        self.sleepers.give_back(room);
        self.notified = notified;
        waker
    }
}
