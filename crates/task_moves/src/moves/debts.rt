//! What several moves owe.
ghost use Rattle.std.specs.Prelude.{◌≡◌};
ghost use Rattle.task_moves.specs.Moves as moves;

use crate::moves::owed::{AwaiterDebt, Move, Owed};
use crate::schedule_info::ScheduleInfo;

/// Nothing is owed.
pub const NOTHING: Owed = Owed {
    schedule: None,
    future: None,
    drop_output: false,
    awaiter: None,
    next: None,
    answer: None,
    empty_cell: false,
};

/// One Runnable is owed.
pub const QUEUED: Option<ScheduleInfo> = Some(ScheduleInfo {
    woken_while_running: false,
});

/// One Runnable is owed, of a task that was woken while it was polled.
pub const QUEUED_AFTER_POLL: Option<ScheduleInfo> = Some(ScheduleInfo {
    woken_while_running: true,
});

/// An awaiter that is there is notified.
#[inline(always)]
pub fn notify_if(awaiter: bool) -> Option<AwaiterDebt>
    ensures { result ≡ moves.notify_if awaiter }
{
    if awaiter {
        Some(AwaiterDebt::NotifyAwaiter)
    } else {
        None
    }
}

/// The same, by a poll, whose own waker needn't be called.
#[inline(always)]
pub fn notify_other_if(awaiter: bool) -> Option<AwaiterDebt>
    ensures { result ≡ moves.notify_other_if awaiter }
{
    if awaiter {
        Some(AwaiterDebt::NotifyOther)
    } else {
        None
    }
}

/// What the last move of a run or a closing call owes: an awaiter that is there is notified, and
/// the reference is given up.
#[inline(always)]
pub fn settled(awaiter: bool) -> Owed
    ensures { result ≡ moves.settled awaiter }
{
    Owed {
        awaiter: notify_if(awaiter),
        next: Some(Move::GiveUp),
        ..NOTHING
    }
}
