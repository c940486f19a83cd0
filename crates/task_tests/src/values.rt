//! The values around a task; traits, markers and texts of the public types.
use crate::calls::{Stage, holds, same, shown};
use crate::parts::{Tasks, drop_cancel, drop_waker};
use async_task::{
    Builder, Cells, NoMemory, RealmError, Schedule, ScheduleInfo, TaskError, WithInfo,
};
use std::fmt::Debug;
use std::io::{self, ErrorKind};
use std::random::RandomSource;
use std::sync::atomic::AtomicU64;
use std::sync::atomic::Ordering::SeqCst;
use std::test::Fail;

/// Gives the same byte again and again, or nothing.
#[derive(Clone, Copy, Drop)]
struct Bytes(Option<u8>);

impl RandomSource for Bytes {
    fn fill_bytes(&self, buf: &mut [u8]) -> io::Result<()> {
        match self.0 {
            Some(byte) => {
                buf.fill(byte);
                Ok(())
            }
            None => Err(ErrorKind::Other.into()),
        }
    }
}

#[test]
fn a_realm_has_the_number_that_was_drawn(rt: HostRuntime) -> Result<(), Fail> {
    let cells = Cells::<u64>::leak(Bytes(Some(3)), rt.alloc())?;
    same(&rt, cells.number(), 0x0303_0303_0303_0303);
    match Cells::<u64>::leak(Bytes(None), rt.alloc()) {
        Ok(_) => panic!(rt; "a number of no bytes"),
        Err(error) => same(&rt, error, RealmError::NoRandom),
    }
    let one = Cells::<u64>::leak(rt, rt.alloc())?;
    let other = Cells::<u64>::leak(rt, rt.alloc())?;
    holds(&rt, one.number() != other.number());
    Ok(())
}

/// What was scheduled last: twice its number, and one more where its task was woken while it was polled.
#[derive(Drop)]
struct Last(AtomicU64);

impl Schedule<u64> for Last {
    fn schedule(&self, runnable: u64, info: ScheduleInfo) {
        let number = runnable.saturating_mul(2);
        self.0.store(
            number.saturating_add(u64::from(info.woken_while_running)),
            SeqCst,
        );
    }
}

#[test]
fn a_schedule_value_with_information_is_handed_both(rt: HostRuntime) {
    let last = WithInfo::from(Last(AtomicU64::new(0)));
    for (runnable, woken_while_running, want) in [(5, true, 11), (6, false, 12)] {
        let info = ScheduleInfo {
            woken_while_running,
        };
        last.schedule(runnable, info);
        same(&rt, last.0.0.load(SeqCst), want);
    }
}

fn is_plain<X: Clone + Copy + PartialEq + Eq + Debug>(value: X) -> X {
    value
}

fn moves_and_is_shared<X: Send + Sync>(value: X) -> X {
    value
}

#[test]
fn plain_types_are_copied_compared_and_shown(rt: HostRuntime) {
    let info = is_plain(ScheduleInfo {
        woken_while_running: true,
    });
    shown(&rt, &info, "ScheduleInfo { woken_while_running: true }");
    shown(&rt, &WithInfo::from(5), "WithInfo(5)");
    shown(&rt, &is_plain(NoMemory), "NoMemory");
    shown(&rt, &is_plain(RealmError::NoRandom), "NoRandom");
    shown(&rt, &is_plain(TaskError::TaskClosed), "TaskClosed");
    shown(&rt, &is_plain(TaskError::NoMemory), "NoMemory");
    shown(&rt, &Builder::new().metadata(7), "Builder { metadata: 7 }");
    same(&rt, Builder::default(), Builder::new());
}

/// The handles and wakers move to other threads and are shared with them, where the task's parts are. Their texts have the marks of
/// the task at that moment, which scripts compare.
#[test]
fn handles_move_and_are_shared(rt: HostRuntime) {
    let stage = Stage::new(rt, rt.alloc(), Tasks::leak(rt, rt.alloc()));
    let (runnable, task) = stage.task(0, false);
    shown(
        &rt,
        &runnable,
        "Runnable { scheduled: true, running: false, completed: false, closed: false, awaiter: false, task: true, ref_count: 1, metadata: 7 }",
    );
    let runnable = moves_and_is_shared(runnable);
    let waker = moves_and_is_shared(stage.waker(&runnable));
    let task = moves_and_is_shared(moves_and_is_shared(task).fallible());
    drop_cancel(moves_and_is_shared(task.cancel()));
    stage.run(runnable);
    drop_waker(waker);
    stage.seen((0, 0, 1, 1));
}
