//! How often things happened to a task.
use std::alloc::{AllocError, Global};

/// How often things happened to a task.
#[derive(Clone, Copy)]
pub struct Counts {
    polls: u64,
    schedules: u64,
    future_drops: u64,
    lost: u64,
    schedule_drops: u64,
}

/// What is counted.
#[derive(Clone, Copy)]
pub enum Happening {
    Poll,
    Schedule,
    FutureDrop,
    /// The drop of an output that nobody read.
    Loss,
    ScheduleDrop,
}

impl Counts {
    /// Nothing has happened yet.
    pub fn new() -> Counts {
        Counts {
            polls: 0,
            schedules: 0,
            future_drops: 0,
            lost: 0,
            schedule_drops: 0,
        }
    }

    pub fn count(&mut self, happening: Happening) {
        match happening {
            Happening::Poll => self.polls = self.polls.saturating_add(1),
            Happening::Schedule => self.schedules = self.schedules.saturating_add(1),
            Happening::FutureDrop => self.future_drops = self.future_drops.saturating_add(1),
            Happening::Loss => self.lost = self.lost.saturating_add(1),
            Happening::ScheduleDrop => self.schedule_drops = self.schedule_drops.saturating_add(1),
        }
    }

    /// The five numbers, parted by blanks.
    pub fn into_text(self, alloc: Global) -> Result<String, AllocError> {
        let Counts {
            polls,
            schedules,
            future_drops,
            lost,
            schedule_drops,
        } = self;
        Ok(format!(in alloc; "{polls} {schedules} {future_drops} {lost} {schedule_drops}")?)
    }
}
