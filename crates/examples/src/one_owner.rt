//! An executor of one owner, who polls what it hands out. A future is a number, and its output twice that.
ghost use Rattle.std.specs.Prelude.{◌≡◌};

use async_task::Nobody;
use solo::{Back, Found, Kind, Lent, Mark, Owed, Polled, Solo, SoloWaker, Spawned, Taken, Told};
use std::io;

/// Nobody sleeps here, and no queue is closed.
fn nobody(told: Told<Nobody>) {
    let Told {
        sleeper: _,
        returned: _,
    } = told;
}

/// What is to be finished, with the rest dropped.
fn rest_of(owed: Owed<u64, u64, Nobody>) -> Option<Lent>
    ensures { result ≡ owed.rest }
{
    let Owed {
        future: _,
        rest,
        output: _,
        awaiter: _,
        sleeper: _,
        old: _,
        returned: _,
    } = owed;
    rest
}

/// Drops what a call handed out, and finishes what was dropped.
fn pay(solo: &mut Solo<u64, u64, Nobody>, owed: Owed<u64, u64, Nobody>) {
    if let Some(lent) = rest_of(owed) {
        match rest_of(solo.finish(lent)) {
            None => {}
            Some(_) => unreachable!(),
        }
    }
}

#[test]
fn one_owner_polls_a_future(rt: HostRuntime) -> io::Result<()> {
    let mut solo = Solo::<u64, u64, Nobody>::new(rt.alloc(), 2, Kind::Owned)?;
    let Spawned { task, told } = solo.spawn(21, Mark::Plain)?;
    nobody(told);
    let Taken { found, sleeper: _ } = solo.take();
    let owed = match found {
        Found::Poll(lent, number) => solo.settle(lent, Back::Ready(number.saturating_mul(2))),
        Found::Drop(lent, _) => solo.finish(lent),
        Found::Nothing | Found::Gone => panic!(rt; "nothing is queued"),
    };
    pay(&mut solo, owed);
    let polled = solo.poll(task, SoloWaker::Outside(Nobody));
    assert!(rt; matches!(polled, Polled::Output { output: 42, .. }));
    Ok(())
}
