//! The executor of one owner.
use refusal_rows::{Call, Drops, Ended, Job, Look, Place, Report, Trial, try_each};
use solo::{Dropped, Kind, Mark, RunLeft, Solo, SpawnError, Spawned, Told};
use std::alloc::Global;
use std::sync::Wait;
use std::sync::atomic::Ordering::SeqCst;

/// A call on it.
#[derive(Clone, Copy)]
enum SoloRow {
    /// A new one of four places.
    New(Kind),
    Spawn,
    /// A tick that goes at once.
    Tick,
    /// A run that goes at once.
    Run,
}

/// What is made of one that isn't static and of one that is.
const SOLO_ROWS: &[SoloRow] = &[
    SoloRow::New(Kind::Owned),
    SoloRow::Spawn,
    SoloRow::Tick,
    SoloRow::Run,
    SoloRow::Spawn,
    SoloRow::New(Kind::Static),
    SoloRow::Spawn,
    SoloRow::Tick,
    SoloRow::Run,
];

/// Makes these calls.
pub fn try_solos<R: Wait + Copy + Drop>(
    rt: R,
    alloc: Global,
    drops: &'static Drops,
    report: &mut Report,
) {
    report.come_to(Place::Solo);
    try_each(&mut Solos::new(rt, alloc, drops), SOLO_ROWS, report);
}

/// An executor of one owner, and what was handed out.
#[derive(Drop)]
struct Solos<R> {
    rt: R,
    alloc: Global,
    drops: &'static Drops,
    solo: Option<Solo<Job, u64, u64>>,
    /// A future that a refused spawn handed back.
    back: Option<Job>,
}

impl<R: Wait + Copy + Drop> Solos<R> {
    fn new(rt: R, alloc: Global, drops: &'static Drops) -> Solos<R> {
        Solos {
            rt,
            alloc,
            drops,
            solo: None,
            back: None,
        }
    }

    fn job(&mut self) -> Job {
        match self.back.take() {
            Some(job) => job,
            None => Job {
                name: 6,
                wakes: 0,
                drops: self.drops,
            },
        }
    }

    fn spawn(&mut self) -> Ended {
        let job = self.job();
        let Some(solo) = &mut self.solo else {
            return Ended::Wrong;
        };
        match solo.spawn(job, Mark::Plain) {
            Ok(Spawned { task: _, told }) => Ended::of(is_silent(told)),
            Err(SpawnError::NoMemory(job)) => {
                let is_same = job.name == 6;
                self.back = Some(job);
                if is_same {
                    Ended::Refused
                } else {
                    Ended::Wrong
                }
            }
            Err(SpawnError::Full(_)) => Ended::Wrong,
        }
    }
}

/// Whether nobody has to be notified.
fn is_silent(told: Told<u64>) -> bool {
    let Told { sleeper, returned } = told;
    sleeper.is_none() & returned.is_none()
}

/// Makes a tick, which leaves.
fn tick(solo: &mut Solo<Job, u64, u64>) -> Ended {
    match solo.tick() {
        Ok(ticker) => {
            let Dropped { old: _, told } = solo.tick_leave(ticker);
            Ended::of(is_silent(told))
        }
        Err(_) => Ended::Refused,
    }
}

/// Makes a run, which leaves with nothing in its own queue.
fn run<R: Wait>(rt: &R, solo: &mut Solo<Job, u64, u64>) -> Ended {
    match solo.run() {
        Ok((runner, ticker)) => {
            let mut leaving = solo.run_leave(runner, ticker);
            for _ in rt.forever() {
                match solo.run_drain(leaving) {
                    RunLeft::Scheduled(rest, told) => {
                        let _ = is_silent(told);
                        leaving = rest;
                    }
                    RunLeft::Gone(Dropped { old: _, told }) => {
                        return Ended::of(is_silent(told));
                    }
                }
            }
            unreachable!()
        }
        Err(_) => Ended::Refused,
    }
}

/// A number made of two.
fn mix(sum: u64, number: usize) -> u64 {
    sum.wrapping_mul(31).wrapping_add(number as u64)
}

impl<R: Wait + Copy + Drop> Trial for Solos<R> {
    type Row = SoloRow;

    fn name(&self, row: SoloRow) -> Call {
        match row {
            SoloRow::New(_) => Call::New,
            SoloRow::Spawn => Call::Spawn,
            SoloRow::Tick => Call::Tick,
            SoloRow::Run => Call::Run,
        }
    }

    fn look(&self, row: SoloRow) -> Look {
        let _ = row;
        let shown = match &self.solo {
            Some(solo) => mix(
                mix(mix(1, solo.future_count()), solo.queue_length()),
                solo.sleeper_count(),
            ),
            None => 0,
        };
        Look {
            shown,
            drops: self.drops.load(SeqCst),
        }
    }

    fn make(&mut self, row: SoloRow) -> Ended {
        match row {
            SoloRow::New(kind) => match Solo::new(self.alloc, 4, kind) {
                Ok(solo) => {
                    self.solo = Some(solo);
                    Ended::Well
                }
                Err(_) => Ended::Refused,
            },
            SoloRow::Spawn => self.spawn(),
            SoloRow::Tick => match &mut self.solo {
                Some(solo) => tick(solo),
                None => Ended::Wrong,
            },
            SoloRow::Run => match &mut self.solo {
                Some(solo) => run(&self.rt, solo),
                None => Ended::Wrong,
            },
        }
    }
}
