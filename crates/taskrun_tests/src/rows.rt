//! What a script can't say, as rows that one loop goes through: a waker that another call uses, copies of wakers and wakes by
//! value, and a tick that a task polls by its own waker. Where a step is refused, and by which error, the contract of
//! `Machine::step` says.
use Row::{Begins, Ends, Makes, New, Polls, Refused};
use executor_core::{Kind, Machine};
use executor_model::Call::{
    self, Copy, DropWaker, Keep, NewTick, PollTick, Spawn, TryTick, Wake, WakeByRef, WakeSelf,
};
use executor_model::{Answer, By, Event, Hint, Mark, Op, Reply, Step, StepError, UserEnd, UserOp};
use std::process::Abort;

pub const PENDING: UserEnd = UserEnd::Polled(Answer::Pending);

pub const READY: UserEnd = UserEnd::Polled(Answer::Ready);

pub const DONE: UserEnd = UserEnd::Done;

/// What a party does, and what comes of it.
#[derive(Clone, Copy)]
enum Row {
    /// A list begins, on a new machine.
    New,
    /// It begins a call.
    Begins(u32, Call),
    /// It goes on until its calls have ended. User code ends in these ways, in turn, and the last call has this answer.
    Ends(u32, &'static [UserEnd], Reply),
    /// It makes a whole call, by both of these.
    Makes(u32, Call, &'static [UserEnd], Reply),
    /// It makes a whole `TryTick`, whose future makes these whole calls in its poll, has these answers, and is pending.
    Polls(u32, &'static [(Call, Reply)]),
    /// It may not begin this call, and nothing changes.
    Refused(u32, Call, StepError),
}

/// A party's next step, whose request for memory, if it makes one, may be refused.
pub fn go(party: u32, refused: bool) -> Step {
    let (same, start) = (false, 0);
    let hint = Hint {
        refused,
        same,
        start,
    };
    Step::Go { party, hint }
}

fn last_reply(machine: &Machine) -> Option<Reply> {
    match machine.trace().last() {
        Some(Event::CallEnded { reply, .. }) => Some(*reply),
        _ => None,
    }
}

// What the last call was answered, or nothing where a step was refused otherwise, or an end of user code is left.
fn finish(machine: &mut Machine, party: u32, ends: &[UserEnd]) -> Option<Reply> {
    let mut later = ends.iter();
    for _ in 0..128 {
        match machine.step(go(party, false)) {
            Ok(()) => {}
            Err(StepError::Idle) if later.len() == 0 => return last_reply(machine),
            Err(StepError::WrongAnswer) => {
                let end = *later.next()?;
                machine.step(Step::Answer { party, end }).ok()?;
            }
            Err(_) => return None,
        }
    }
    None
}

/// Whether the party may begin the call.
pub fn has_begun(machine: &mut Machine, party: u32, call: Call) -> bool {
    machine.run(&[Step::Begin { party, call }]).is_none()
}

fn is_in_poll(machine: &Machine, party: u32) -> bool {
    matches!(machine.top(party), Some(Op::User(UserOp::Poll(_))))
}

/// The party goes on until it stands in the poll of a future. Says whether it came to that.
pub fn comes_to_poll(machine: &mut Machine, party: u32) -> bool {
    for _ in 0..128 {
        if is_in_poll(machine, party) || machine.step(go(party, false)).is_err() {
            break;
        }
    }
    is_in_poll(machine, party)
}

// It makes the whole call in a poll that it stands in.
fn makes_in_poll(machine: &mut Machine, party: u32, call: Call) -> Option<Reply> {
    let is_made = has_begun(machine, party, call) && comes_to_poll(machine, party);
    if is_made { last_reply(machine) } else { None }
}

fn polls(machine: &mut Machine, party: u32, calls: &[(Call, Reply)]) -> bool {
    has_begun(machine, party, Call::TryTick)
        && comes_to_poll(machine, party)
        && calls.iter().all(|(call, reply)| makes_in_poll(machine, party, *call) == Some(*reply))
        && finish(machine, party, &[PENDING]) == Some(Reply::Yes)
}

fn is_refused(machine: &mut Machine, party: u32, call: Call, error: StepError) -> bool {
    let seen = machine.trace().len();
    machine.step(Step::Begin { party, call }) == Err(error) && machine.trace().len() == seen
}

fn is_met(machine: &mut Machine, row: Row) -> bool {
    match row {
        New => true,
        Begins(party, call) => has_begun(machine, party, call),
        Ends(party, ends, reply) => finish(machine, party, ends) == Some(reply),
        Makes(party, call, ends, reply) => {
            has_begun(machine, party, call) && finish(machine, party, ends) == Some(reply)
        }
        Polls(party, calls) => polls(machine, party, calls),
        Refused(party, call, error) => is_refused(machine, party, call, error),
    }
}

/// A machine of three parties with places for so many futures.
pub fn new_machine<R: AllocGlobal + Abort>(rt: &R, limit: u64) -> Machine {
    Machine::new(rt.alloc(), limit, Kind::Owned, 3).expect(rt, "room for three parties")
}

const ROWS: &[Row] = &[
    New, // a waker in use is not let go, and is copied
    Makes(0, Spawn(Mark::Plain), &[], Reply::Made),
    Polls(0, &[(Keep, Reply::Made)]),
    Begins(1, WakeByRef(0)),
    Refused(2, DropWaker(0), StepError::NoSuch),
    Makes(2, Copy(0), &[], Reply::Made),
    Ends(1, &[], Reply::Done),
    Makes(2, DropWaker(0), &[], Reply::Done),
    New, // a task polls a tick by its own waker, which wakes it where the tick is notified
    Makes(0, NewTick, &[], Reply::Made),
    Makes(0, Spawn(Mark::Plain), &[], Reply::Made),
    Polls(0, &[(PollTick(0, By::Mine), Reply::Pending)]),
    Makes(0, Spawn(Mark::Plain), &[], Reply::Made),
    Makes(0, TryTick, &[READY, DONE], Reply::Yes),
    Makes(0, TryTick, &[READY, DONE], Reply::Yes),
    Makes(0, TryTick, &[], Reply::No),
    New, // copies of wakers, and wakes by value
    Makes(0, Spawn(Mark::Plain), &[], Reply::Made),
    Polls(0, &[(Keep, Reply::Made), (WakeSelf, Reply::Done)]),
    Makes(0, Copy(0), &[], Reply::Made),
    Makes(0, WakeByRef(1), &[], Reply::Done),
    Makes(0, Wake(1), &[], Reply::Done),
    Makes(0, DropWaker(0), &[], Reply::Done),
    Makes(0, TryTick, &[READY, DONE], Reply::Yes),
    Makes(0, TryTick, &[], Reply::No),
];

// Each list of these rows is played on a machine of its own, with places for two futures.
fn plays<R: AllocGlobal + Abort>(rt: &R, rows: &[Row]) {
    let mut machine = new_machine(rt, 2);
    let (mut list, mut number) = (0u64, 0u64);
    for row in rows {
        number = number.saturating_add(1);
        if let New = *row {
            machine = new_machine(rt, 2);
            (list, number) = (list.saturating_add(1), 0);
        }
        assert!(rt; is_met(&mut machine, *row), "list {list}: row {number}");
    }
}

#[test]
fn each_row_is_met(rt: HostRuntime) {
    plays(&rt, ROWS);
}
