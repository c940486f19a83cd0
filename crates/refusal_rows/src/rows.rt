//! What one loop does with each row: it makes a call, and where that is refused it sees that all is as before, and makes it again.
use crate::report::{Call, Report};

/// How a call ended.
#[derive(Clone, Copy)]
pub enum Ended {
    /// As it has to.
    Well,
    /// For want of memory, with what it was given handed back.
    Refused,
    /// In another way.
    Wrong,
}

impl Ended {
    /// Well, where this is so.
    pub fn of(is_so: bool) -> Ended {
        if is_so { Ended::Well } else { Ended::Wrong }
    }
}

/// What shows of the state: it is the same before a refused call and behind it.
#[derive(Clone, Copy, PartialEq, Eq)]
pub struct Look {
    /// What is shown, counted or asked for.
    pub shown: u64,
    /// How many futures were dropped.
    pub drops: u64,
}

/// What is tried: an executor, a queue or tasks, on which calls are made in turn.
pub trait Trial {
    /// A call.
    type Row: Copy;

    /// Its name, where it is refused.
    fn name(&self, row: Self::Row) -> Call;

    /// What shows before and after. What a refused call of this row may change, as its documents say, is left out.
    fn look(&self, row: Self::Row) -> Look;

    /// Makes the call.
    fn make(&mut self, row: Self::Row) -> Ended;
}

/// Makes each call in turn. One that is refused leaves all as it was, and is made once more.
pub fn try_each<T: Trial>(trial: &mut T, rows: &[T::Row], report: &mut Report) {
    for row in rows {
        report.go_on();
        let before = trial.look(*row);
        let mut ended = trial.make(*row);
        if let Ended::Refused = ended {
            report.is_refused(trial.name(*row));
            report.expect(trial.look(*row) == before);
            ended = trial.make(*row);
        }
        report.expect(matches!(ended, Ended::Well));
    }
}
