//! How threads do accepted work.
use crate::shared::{Nothing, Over, Shared};
use crate::work::Work;
use async_task::Wake;
use std::sync::Wait;

/// What a thread found that serves and waits for no work.
#[derive(Clone, Copy, Debug, PartialEq, Eq, Drop)]
pub enum Served {
    /// It did some.
    Worked,
    /// There was none.
    Nothing,
    /// There was none, and none comes any more. It stays so.
    Over,
}

/// Does the oldest accepted work that no thread has taken, and waits for none.
pub fn work_once<J: Work + Drop, K: Wake + Drop, R: Wait + Copy + Drop>(
    shared: &Shared<J, K, R>,
) -> Served {
    match shared.take() {
        Ok(taken) => {
            taken.work().send();
            Served::Worked
        }
        Err(Nothing::Empty) => Served::Nothing,
        Err(Nothing::Over(ending)) => {
            let _over = shared.end(ending);
            Served::Over
        }
    }
}

/// Does accepted work, until no more is accepted and all work was taken.
///
/// 1. Reads how many changes there were, so that one that comes later ends its wait.
/// 2. Takes a piece, does the work and sends its output.
/// 3. Where there is none it waits, also for a piece whose coming overlaps a close. So a thread that finds the end notifies the
/// others.
pub fn work_until_over<J: Work + Drop, K: Wake + Drop, R: Wait + Copy + Drop>(
    rt: &R,
    shared: &Shared<J, K, R>,
) -> Over {
    for _ in rt.forever() {
        let seen = shared.changes();
        match shared.take() {
            Ok(taken) => taken.work().send(),
            Err(Nothing::Empty) => shared.wait(rt, seen),
            Err(Nothing::Over(ending)) => return shared.end(ending),
        }
    }
    unreachable!()
}
