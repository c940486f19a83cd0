//! A timer: its making takes memory, and nothing that is done with it does.
use async_task::{Future, Nobody, Poll};
use refusal_rows::{Call, Place, Report};
use std::alloc::Global;
use std::sync::Wait;
use std::time::{Clock, Duration};
use timer::{Timer, TimerError};

/// Makes a timer, and once more where that is refused, on which one sleeps. Says whether all was as it has to be.
pub fn try_timers<R: Clock + Wait + Copy + Drop>(
    rt: R,
    alloc: Global,
    report: &mut Report,
) -> bool {
    report.come_to(Place::Timer);
    let mut made = Timer::<Nobody, R>::new(rt, alloc, 1);
    if let Err(TimerError::NoMemory) = made {
        report.is_refused(Call::New);
        made = Timer::new(rt, alloc, 1);
    }
    let Ok(timer) = made else {
        return false;
    };
    let Ok(mut sleep) = timer.sleep(Duration::ZERO) else {
        return false;
    };
    let is_pending = matches!(sleep.poll(&Nobody), Poll::Pending);
    timer.close();
    timer.drive();
    is_pending & matches!(sleep.poll(&Nobody), Poll::Ready(Ok(())))
}
