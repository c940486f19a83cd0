//! Calls that the drop of the executor catches in their middle, at each of their steps; and the drop, caught so by each call.
use crate::rows::{DONE, PENDING, READY, comes_to_poll, go, has_begun, new_machine};
use executor_core::Machine;
use executor_model::Call::{
    self, Cancel, DropExecutor, DropHandle, DropRun, DropTick, Keep, NewRun, NewTick, PollHandle,
    PollRun, PollTick, Spawn, TryTick, Wake, WakeByRef,
};
use executor_model::{By, Event, Mark, Op, Polled, Reply, Step, UserOp};
use std::process::Abort;

/// Who makes the call that is caught, who catches it by one that it makes whole, and who does the rest.
const FIRST: u32 = 0;

const SECOND: u32 = 1;

const OTHER: u32 = 2;

/// More steps than a call takes here.
const MOST_STEPS: u32 = 200;

/// How the first future stands as the call begins. It was polled, and its waker is kept.
#[derive(Clone, Copy, Debug)]
enum Stands {
    /// It waits.
    Idle,
    /// It was woken.
    Queued,
    /// It was ready, and its output is there.
    Ready,
}

/// What is caught.
#[derive(Clone, Copy, Debug)]
struct Scene {
    /// As many futures as there are places. The first one's handle is awaited: by an outside waker where it is alone, and
    /// else by the second future.
    limit: u64,
    /// A tick and a run sleep as the call begins.
    sleepers: bool,
    stands: Stands,
    call: Call,
    /// The call's requests for memory are refused.
    refused: bool,
    /// The call catches the drop, and not the drop the call.
    catches: bool,
}

// A party takes its next step, where it has one. Polls are pending.
fn goes(machine: &mut Machine, party: u32, refused: bool) -> bool {
    let end = match machine.top(party) {
        None => return false,
        Some(Op::User(UserOp::Poll(_) | UserOp::PollOwn(_))) => PENDING,
        Some(_) => DONE,
    };
    machine.step(go(party, refused)).is_ok() || machine.step(Step::Answer { party, end }).is_ok()
}

// A party takes so many steps, or as many as it has. Says whether it has taken them all.
fn goes_so_far(machine: &mut Machine, party: u32, steps: u32, refused: bool) -> bool {
    (0..steps).all(|_| goes(machine, party, refused))
}

// A party's calls come to their end.
fn ends(machine: &mut Machine, party: u32, refused: bool) -> bool {
    !goes_so_far(machine, party, MOST_STEPS, refused) && machine.top(party).is_none()
}

fn makes(machine: &mut Machine, call: Call) -> bool {
    has_begun(machine, OTHER, call) && ends(machine, OTHER, false)
}

fn make(machine: &mut Machine, calls: &[Call]) -> bool {
    calls.iter().all(|call| makes(machine, *call))
}

fn stands_in_poll(machine: &mut Machine) -> bool {
    has_begun(machine, OTHER, TryTick) && comes_to_poll(machine, OTHER)
}

// A future is polled, makes this call in its poll, and isn't ready.
fn polls_with(machine: &mut Machine, call: Call) -> bool {
    stands_in_poll(machine) && makes(machine, call)
}

fn is_awaited(machine: &mut Machine, limit: u64) -> bool {
    if limit == 1 {
        makes(machine, PollHandle(0, By::Outside(1)))
    } else {
        polls_with(machine, PollHandle(0, By::Mine))
    }
}

const FALL_ASLEEP: &[Call] = &[
    NewTick,
    NewRun,
    PollTick(0, By::Outside(3)),
    PollRun(0, By::Outside(4)),
];

fn leave(machine: &mut Machine, scene: Scene) -> bool {
    !scene.sleepers || make(machine, &[DropTick(0), DropRun(0)])
}

fn is_ready(machine: &mut Machine) -> bool {
    let (party, end) = (OTHER, READY);
    stands_in_poll(machine)
        && machine.step(Step::Answer { party, end }).is_ok()
        && ends(machine, party, false)
}

fn stand(machine: &mut Machine, stands: Stands) -> bool {
    match stands {
        Stands::Idle => true,
        Stands::Queued => makes(machine, WakeByRef(0)),
        Stands::Ready => makes(machine, WakeByRef(0)) && is_ready(machine),
    }
}

// The scene stands, but for the call.
fn is_set(machine: &mut Machine, scene: Scene) -> bool {
    (0..scene.limit).all(|_| makes(machine, Spawn(Mark::Plain)))
        && polls_with(machine, Keep)
        && is_awaited(machine, scene.limit)
        && (!scene.sleepers || make(machine, FALL_ASLEEP))
        && stand(machine, scene.stands)
}

fn is_dropped_once(trace: &[Event], future: u64) -> bool {
    let mut drops = 0u64;
    for event in trace {
        match event {
            Event::Dropped { future: other, .. } if *other == future => {
                drops = drops.saturating_add(1);
            }
            _ => {}
        }
    }
    drops == 1
}

// The waker of the last poll of the future's handle was called, where that poll was pending and the handle is there.
fn is_told(trace: &[Event], future: u64) -> bool {
    let (mut asks, mut waits) = (None, None);
    for (place, event) in trace.iter().enumerate() {
        match event {
            Event::HandlePolled { party, future: of } if *of == future => {
                (asks, waits) = (Some(*party), Some(place as u64));
            }
            Event::CallEnded { party, reply } if asks == Some(*party) => {
                asks = None;
                if *reply != Reply::Pending {
                    waits = None;
                }
            }
            Event::WakerCalled { polled, poll, .. } => {
                if *polled == Polled::Handle(future) && waits == Some(*poll) {
                    waits = None;
                }
            }
            Event::Detached { future: of, .. } if *of == future => waits = None,
            _ => {}
        }
    }
    waits.is_none()
}

// Each future was dropped once, and who awaits one was called.
fn is_settled(machine: &Machine, limit: u64) -> bool {
    let trace = machine.trace();
    (0..limit).all(|future| is_dropped_once(trace, future) && is_told(trace, future))
}

// The first call is caught behind so many steps, and the second is made whole. Who sleeps leaves before the drop. Says whether the
// first has so many steps; none where something isn't as it should be.
fn is_caught(machine: &mut Machine, scene: Scene, steps: u32) -> Option<bool> {
    let (call, drop) = ((scene.call, scene.refused), (DropExecutor, false));
    let (first, second) = if scene.catches {
        (drop, call)
    } else {
        (call, drop)
    };
    let begun = is_set(machine, scene)
        && (!scene.catches || leave(machine, scene))
        && has_begun(machine, FIRST, first.0);
    let goes_on = goes_so_far(machine, FIRST, steps, first.1);
    let ended = (scene.catches || leave(machine, scene))
        && has_begun(machine, SECOND, second.0)
        && ends(machine, SECOND, second.1)
        && ends(machine, FIRST, first.1);
    (begun && ended && is_settled(machine, scene.limit)).then_some(goes_on)
}

// Behind each number of steps, up to all of them.
fn catch_at_each_step<R: AllocGlobal + Abort>(rt: &R, scene: Scene) {
    for steps in 0..MOST_STEPS {
        let mut machine = new_machine(rt, scene.limit);
        match is_caught(&mut machine, scene, steps) {
            Some(true) => {}
            Some(false) => return,
            None => panic!(rt; "{scene:?} behind {steps} steps"),
        }
    }
    panic!(rt; "{scene:?} doesn't end");
}

// Each call, and whether its requests for memory are refused.
const CALLS: &[(Call, bool)] = &[
    (Wake(0), false),
    (WakeByRef(0), false),
    (Cancel(0), false),
    (PollHandle(0, By::Outside(2)), false),
    (PollHandle(0, By::Outside(2)), true),
    (DropHandle(0), false),
];

fn catch_each<R: AllocGlobal + Abort>(rt: &R, limit: u64, sleepers: bool, catches: bool) {
    for stands in [Stands::Idle, Stands::Queued, Stands::Ready] {
        for (call, refused) in CALLS {
            let (call, refused) = (*call, *refused);
            let scene = Scene {
                limit,
                sleepers,
                stands,
                call,
                refused,
                catches,
            };
            catch_at_each_step(rt, scene);
        }
    }
}

#[test]
fn the_closing_drop_catches_calls_and_calls_catch_it(rt: HostRuntime) {
    for limit in 1..3 {
        for catches in [false, true] {
            catch_each(&rt, limit, false, catches);
            catch_each(&rt, limit, true, catches);
        }
    }
}
