//! Work on the step machine.
use executor_core::{Kind, Machine};
use executor_model::{Answer, Call, Hint, Mark, Step, UserEnd};
use std::alloc::{AllocError, Global};
use std::rt::Clock;
use std::time::Instant;
use workloads::{Fault, Timing};

/// How many futures are in the machine at a time.
const FUTURES: u64 = 1000;

/// How often each is woken and polled again.
const WAKES: u64 = 3;

/// So many steps of one machine: a thousand futures are spawned and polled, each keeps its waker, they are woken and
/// polled again, then their handles go in another order, they are dropped, and the next thousand comes. The list of
/// steps is made before the clock starts.
pub fn run<R: AllocGlobal + Clock>(rt: &R, ops: u64) -> Result<Timing, Fault> {
    let steps = script(rt.alloc(), ops)?;
    time(
        rt,
        &mut Machine::new(rt.alloc(), FUTURES, Kind::Owned, 1)?,
        steps.as_slice(),
    )
}

fn time<R: Clock>(rt: &R, machine: &mut Machine, steps: &[Step]) -> Result<Timing, Fault> {
    let start = Instant::now(rt)?;
    let is_refused = refuses(machine, steps);
    let timing = Timing::since(rt, start, steps.len() as u64)?;
    if is_refused {
        Err(Fault::Refused)
    } else {
        Ok(timing)
    }
}

/// Runs the steps, and says whether the machine refused one.
fn refuses(machine: &mut Machine, steps: &[Step]) -> bool {
    machine.run(steps).is_some()
}

/// The first steps of as many thousands of futures as it takes.
fn script(alloc: Global, ops: u64) -> Result<Vec<Step>, AllocError> {
    let mut steps = Vec::new(alloc);
    for thousands in 0..ops {
        if steps.len() as u64 >= ops {
            break;
        }
        thousand(&mut steps, thousands.wrapping_mul(FUTURES))?;
    }
    steps.truncate(ops as usize);
    Ok(steps)
}

/// The whole life of a thousand futures, of which the first has this number. Their kept wakers have the same numbers.
fn thousand(steps: &mut Vec<Step>, first: u64) -> Result<(), AllocError> {
    for _ in 0..FUTURES {
        call(steps, Call::Spawn(Mark::Plain), 3)?;
    }
    for _ in 0..FUTURES {
        call(steps, Call::TryTick, 4)?;
        call(steps, Call::Keep, 1)?;
        answer(steps, UserEnd::Polled(Answer::Pending), 2)?;
    }
    for _ in 0..WAKES {
        for i in 0..FUTURES {
            call(steps, Call::WakeByRef(shuffled(first, i)), 3)?;
            call(steps, Call::TryTick, 4)?;
            answer(steps, UserEnd::Polled(Answer::Pending), 2)?;
        }
    }
    for i in 0..FUTURES {
        call(steps, Call::DropHandle(shuffled(first, i)), 4)?;
        call(steps, Call::TryTick, 5)?;
        answer(steps, UserEnd::Done, 4)?;
        call(steps, Call::DropWaker(shuffled(first, i)), 1)?;
    }
    Ok(())
}

/// Each number from `first` on once, in another order.
fn shuffled(first: u64, i: u64) -> u64 {
    first.wrapping_add(i.wrapping_mul(389) % FUTURES)
}

/// A call, and so many of its steps.
fn call(steps: &mut Vec<Step>, call: Call, steps_of_it: u32) -> Result<(), AllocError> {
    steps.push(Step::Begin { party: 0, call })?;
    go(steps, steps_of_it)
}

/// The end of user code, and so many steps after it.
fn answer(steps: &mut Vec<Step>, end: UserEnd, steps_after: u32) -> Result<(), AllocError> {
    steps.push(Step::Answer { party: 0, end })?;
    go(steps, steps_after)
}

fn go(steps: &mut Vec<Step>, count: u32) -> Result<(), AllocError> {
    for _ in 0..count {
        steps.push(Step::Go {
            party: 0,
            hint: Hint {
                refused: false,
                same: false,
                start: 0,
            },
        })?;
    }
    Ok(())
}
