//! What a source answers, and who is called, row by row.
use crate::stage::Answer::{Blocked, Closed, Moved, Nothing, Open, Ready, Waits};
use crate::stage::Step::{
    Ask, Close, Drop, End, Hear, HearBoth, Look, Move, MoveHearing, Read, ReadHearing,
};
use crate::stage::{Line, MOST, plays};
use reactor::Way;

const READ: Way = Way::Read;

const WRITE: Way = Way::Write;

/// A new source is ready; one that would block isn't, until its event, which calls who waits once.
const ONE: [Line; 9] = [
    (Look(0, 0, READ), Ready, [0, 0, 0]),
    (Look(0, 0, READ), Ready, [0, 0, 0]),
    (Read(0, 0, READ), Blocked, [0, 0, 0]),
    (Look(0, 0, READ), Waits, [0, 0, 0]),
    (Look(0, 0, READ), Waits, [0, 0, 0]),
    (Hear(0, READ), Open(true), [1, 0, 0]),
    (Hear(0, READ), Open(true), [1, 0, 0]),
    (Look(0, 0, READ), Ready, [1, 0, 0]),
    (Read(0, 0, READ), Blocked, [1, 0, 0]),
];

/// An event that comes while a task reads is not forgotten.
const WHILE_IT_READS: [Line; 5] = [
    (ReadHearing(0, 0, READ), Blocked, [0, 0, 0]),
    (Look(0, 0, READ), Ready, [0, 0, 0]),
    (ReadHearing(0, 0, WRITE), Blocked, [0, 0, 0]),
    (Read(0, 0, WRITE), Blocked, [0, 0, 0]),
    (Look(0, 0, WRITE), Waits, [0, 0, 0]),
];

/// A way of which fewer bytes came than were asked for waits for its event, unless that came meanwhile. As many, or none, leave it
/// ready.
const SHORT: [Line; 9] = [
    (Move(0, 0, READ, MOST), Moved(MOST), [0, 0, 0]),
    (Look(0, 0, READ), Ready, [0, 0, 0]),
    (Move(0, 0, READ, 0), Moved(0), [0, 0, 0]),
    (Look(0, 0, READ), Ready, [0, 0, 0]),
    (MoveHearing(0, 0, READ, 3), Moved(3), [0, 0, 0]),
    (Move(0, 0, READ, 3), Moved(3), [0, 0, 0]),
    (Look(0, 0, READ), Waits, [0, 0, 0]),
    (Look(0, 0, WRITE), Ready, [0, 0, 0]),
    (Hear(0, READ), Open(true), [1, 0, 0]),
];

/// A way whose last event has come calls who waits, and stays ready, whatever is read, until the reactor is closed. The other
/// doesn't.
const ENDED: [Line; 12] = [
    (Read(0, 0, READ), Blocked, [0, 0, 0]),
    (Look(0, 0, READ), Waits, [0, 0, 0]),
    (Read(1, 0, WRITE), Blocked, [0, 0, 0]),
    (Look(1, 0, WRITE), Waits, [0, 0, 0]),
    (End(0, READ), Open(true), [1, 0, 0]),
    (Move(0, 0, READ, 3), Moved(3), [1, 0, 0]),
    (Read(0, 0, READ), Blocked, [1, 0, 0]),
    (Hear(0, READ), Open(true), [1, 0, 0]),
    (Move(0, 0, READ, 1), Moved(1), [1, 0, 0]),
    (Look(0, 0, READ), Ready, [1, 0, 0]),
    (Close, Nothing, [1, 1, 0]),
    (Look(0, 0, READ), Closed, [1, 1, 0]),
];

/// Each way has an event of its own, and one event may be of both.
const TWO_WAYS: [Line; 9] = [
    (Read(0, 0, READ), Blocked, [0, 0, 0]),
    (Read(1, 0, WRITE), Blocked, [0, 0, 0]),
    (Look(0, 0, READ), Waits, [0, 0, 0]),
    (Look(1, 0, WRITE), Waits, [0, 0, 0]),
    (Hear(0, WRITE), Open(true), [0, 1, 0]),
    (Look(0, 0, READ), Waits, [0, 1, 0]),
    (Read(1, 0, WRITE), Blocked, [0, 1, 0]),
    (Look(1, 0, WRITE), Waits, [0, 1, 0]),
    (HearBoth(0), Open(true), [1, 2, 0]),
];

/// Of two tasks that wait for one way the later is called.
const THE_LATER: [Line; 5] = [
    (Read(0, 0, READ), Blocked, [0, 0, 0]),
    (Look(0, 0, READ), Waits, [0, 0, 0]),
    (Look(1, 0, READ), Waits, [0, 0, 0]),
    (Hear(0, READ), Open(true), [0, 1, 0]),
    (Look(0, 0, READ), Ready, [0, 1, 0]),
];

/// A task whose waker has no copy to give is called at once, and the waker that was left stays.
const MUTE: [Line; 4] = [
    (Read(0, 0, READ), Blocked, [0, 0, 0]),
    (Look(0, 0, READ), Waits, [0, 0, 0]),
    (Look(2, 0, READ), Waits, [0, 0, 1]),
    (Hear(0, READ), Open(true), [1, 0, 1]),
];

/// A source that is dropped leaves the other as it was, and what is heard of it calls nobody.
const DROPPED: [Line; 9] = [
    (Read(0, 0, READ), Blocked, [0, 0, 0]),
    (Read(1, 1, READ), Blocked, [0, 0, 0]),
    (Look(0, 0, READ), Waits, [0, 0, 0]),
    (Look(1, 1, READ), Waits, [0, 0, 0]),
    (Drop(0), Nothing, [0, 0, 0]),
    (HearBoth(0), Open(true), [0, 0, 0]),
    (Ask, Open(true), [0, 0, 0]),
    (Hear(1, READ), Open(true), [0, 1, 0]),
    (Look(1, 1, READ), Ready, [0, 1, 0]),
];

/// A close calls all who wait, each once, and is said from then on.
const CLOSED: [Line; 12] = [
    (Read(0, 0, READ), Blocked, [0, 0, 0]),
    (Look(0, 0, READ), Waits, [0, 0, 0]),
    (Read(1, 1, WRITE), Blocked, [0, 0, 0]),
    (Look(1, 1, WRITE), Waits, [0, 0, 0]),
    (Close, Nothing, [1, 1, 0]),
    (Look(0, 0, READ), Closed, [1, 1, 0]),
    (Look(1, 1, READ), Closed, [1, 1, 0]),
    (Read(2, 1, WRITE), Closed, [1, 1, 0]),
    (HearBoth(0), Open(false), [1, 1, 0]),
    (Close, Nothing, [1, 1, 0]),
    (Ask, Open(false), [1, 1, 0]),
    (Drop(1), Nothing, [1, 1, 0]),
];

#[test]
fn rows_answer_so(rt: HostRuntime) {
    plays(rt, &ONE, 0);
    plays(rt, &WHILE_IT_READS, 1);
    plays(rt, &TWO_WAYS, 2);
    plays(rt, &THE_LATER, 3);
    plays(rt, &MUTE, 4);
    plays(rt, &DROPPED, 5);
    plays(rt, &CLOSED, 6);
    plays(rt, &SHORT, 7);
    plays(rt, &ENDED, 8);
}
