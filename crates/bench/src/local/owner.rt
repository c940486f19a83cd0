//! Work on an executor of one owner.
use solo::{Back, Found, Kind, Mark, Owed, Solo, Spawned, Taken, Told};
use std::alloc::Global;
use std::rt::Clock;
use std::time::Instant;
use workloads::{Fault, Timing};

/// An executor whose futures and outputs are numbers, and whose sleepers are nobody.
type Numbers = Solo<u64, u64, ()>;

/// Takes a future, wakes it as it would itself, and gives it back.
pub fn ping<R: Clock>(rt: &R, alloc: Global, ops: u64) -> Result<Timing, Fault> {
    match Solo::new(alloc, 1, Kind::Owned) {
        Ok(solo) => {
            let mut solo = solo;
            time_ping(rt, &mut solo, ops)
        }
        Err(_) => Err(Fault::NoMemory),
    }
}

fn time_ping<R: Clock>(rt: &R, solo: &mut Numbers, ops: u64) -> Result<Timing, Fault> {
    if !spawned(solo) {
        return Err(Fault::NoMemory);
    }
    let mut moved = 0u64;
    let start = Instant::now(rt)?;
    for _ in 0..ops {
        moved = moved.wrapping_add(u64::from(poll_one(solo)));
    }
    let timing = Timing::since(rt, start, moved)?;
    if timing.moved == ops {
        Ok(timing)
    } else {
        Err(Fault::Refused)
    }
}

fn spawned(solo: &mut Numbers) -> bool {
    match solo.spawn(0, Mark::Plain) {
        Ok(
            Spawned {
                task: _,
                told: Told {
                    sleeper: _,
                    returned: _,
                },
            },
        ) => true,
        Err(_) => false,
    }
}

/// One poll, in which the future wakes itself and is pending.
fn poll_one(solo: &mut Numbers) -> bool {
    let Taken { found, sleeper: _ } = solo.take();
    match found {
        Found::Poll(lent, future) => {
            let Told {
                sleeper: _,
                returned: _,
            } = solo.wake(lent.task());
            let Owed {
                future: _,
                rest,
                output: _,
                awaiter: _,
                sleeper: _,
                old: _,
                returned: _,
            } = solo.settle(lent, Back::Pending(future));
            match rest {
                None => true,
                Some(lent) => {
                    forget(solo, lent);
                    false
                }
            }
        }
        Found::Drop(lent, _) => {
            forget(solo, lent);
            false
        }
        Found::Nothing | Found::Gone => false,
    }
}

/// A future is dropped, which never happens here.
fn forget(solo: &mut Numbers, lent: solo::Lent) {
    let Owed {
        future: _,
        rest,
        output: _,
        awaiter: _,
        sleeper: _,
        old: _,
        returned: _,
    } = solo.finish(lent);
    match rest {
        None => {}
        Some(_) => unreachable!(),
    }
}
