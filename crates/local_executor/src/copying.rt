//! Copies of wakers, which are kept under the lock.
ghost use Rattle.local_executor.specs.Wakers.{IsCopyFor, IsCopyOf};

use crate::entry::{LocalExWaker, Unlocked};
use crate::foreign::Foreign;
use crate::link::Link;
use async_task::Wake;
use solo::SoloWaker;
use std::sync::Wait;

/// A copy of a waker, for an executor to keep.
#[must_use]
pub enum Copied<W> {
    /// This copy is kept.
    Kept(SoloWaker<Foreign<W>>),
    /// It is of a task of another executor, and was called.
    Called,
    /// No copy could be had.
    Refused,
}

/// Makes a copy of a waker for the executor of this link.
pub fn copy_for<W: Wake + Drop, R: Wait + Copy + Drop>(
    link: &Link<W, R>,
    waker: &LocalExWaker<W, R>,
    unlocked: &mut Unlocked,
) -> Copied<W>
    ensures { IsCopyFor W.is_same link.now.id waker.now result }
{
    match waker {
        LocalExWaker::Task(waker) => {
            if !waker.link.is_to_the_same(link) {
                waker.link.wake(waker.task, unlocked);
                return Copied::Called;
            }
            if link.hold(waker.task, unlocked) {
                Copied::Kept(SoloWaker::Task(waker.task))
            } else {
                Copied::Refused
            }
        }
        LocalExWaker::Outside(waker) => outside_copy(waker, unlocked),
    }
}

fn outside_copy<W: Wake>(waker: &W, unlocked: &Unlocked) -> Copied<W>
    ensures { IsCopyOf W.is_same waker.now result }
{
    let _ = unlocked;
    match waker.clone() {
        Some(copy) => Copied::Kept(SoloWaker::Outside(Foreign::of(copy))),
        None => Copied::Refused,
    }
}
