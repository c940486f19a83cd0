//! The step machine.
use executor_core::{Kind, Machine};
use executor_model::{Answer, By, Call, Hint, Mark, Step, StepError, UserEnd};
use refusal_rows::{Ended, Look, Place, Report, Trial, try_each};
use std::alloc::Global;

/// A call on it.
#[derive(Clone, Copy)]
enum MachineRow {
    /// A new one of one place and two parties.
    New(Kind),
    /// The first party begins a call.
    Begin(Call),
    /// It takes a step.
    Go,
    /// It takes steps until none is possible.
    Finish,
    /// The user's code in which it stands ends so.
    Answer(UserEnd),
}

/// What is made of one that isn't static and of one that is: a future is spawned and polled, its handle is polled before; then
/// a tick and a run are made and polled.
const MACHINE_ROWS: &[MachineRow] = &[
    MachineRow::New(Kind::Static),
    MachineRow::Begin(Call::Spawn(Mark::Plain)),
    MachineRow::Go,
    MachineRow::Finish,
    MachineRow::New(Kind::Owned),
    MachineRow::Begin(Call::Spawn(Mark::Plain)),
    MachineRow::Go,
    MachineRow::Finish,
    MachineRow::Begin(Call::PollHandle(0, By::Outside(1))),
    MachineRow::Finish,
    MachineRow::Begin(Call::TryTick),
    MachineRow::Finish,
    MachineRow::Answer(UserEnd::Polled(Answer::Ready)),
    MachineRow::Finish,
    MachineRow::Answer(UserEnd::Done),
    MachineRow::Finish,
    MachineRow::Answer(UserEnd::Done),
    MachineRow::Finish,
    MachineRow::Begin(Call::NewTick),
    MachineRow::Finish,
    MachineRow::Begin(Call::PollTick(0, By::Outside(2))),
    MachineRow::Finish,
    MachineRow::Begin(Call::NewRun),
    MachineRow::Finish,
    MachineRow::Begin(Call::PollRun(0, By::Outside(3))),
    MachineRow::Finish,
    MachineRow::Answer(UserEnd::Polled(Answer::Pending)),
    MachineRow::Finish,
];

/// Makes these calls.
pub fn try_machines(alloc: Global, report: &mut Report) {
    report.come_to(Place::Machine);
    try_each(&mut Machines::new(alloc), MACHINE_ROWS, report);
}

/// A machine.
#[derive(Drop)]
struct Machines {
    alloc: Global,
    machine: Option<Machine>,
}

impl Machines {
    fn new(alloc: Global) -> Machines {
        Machines {
            alloc,
            machine: None,
        }
    }

    fn step(&mut self, step: Step) -> Ended {
        match &mut self.machine {
            Some(machine) => match machine.step(step) {
                Ok(()) => Ended::Well,
                Err(StepError::NoMemory) => Ended::Refused,
                Err(_) => Ended::Wrong,
            },
            None => Ended::Wrong,
        }
    }

    fn finish(&mut self) -> Ended {
        for _ in 0..64 {
            match self.step(GO) {
                Ended::Well => {}
                Ended::Refused => return Ended::Refused,
                Ended::Wrong => return Ended::Well,
            }
        }
        Ended::Wrong
    }
}

const GO: Step = Step::Go {
    party: 0,
    hint: Hint {
        refused: false,
        same: false,
        start: 0,
    },
};

impl Trial for Machines {
    type Row = MachineRow;

    fn name(&self, row: MachineRow) -> refusal_rows::Call {
        match row {
            MachineRow::New(_) => refusal_rows::Call::New,
            _ => refusal_rows::Call::Step,
        }
    }

    /// Of steps that are taken until none is possible those before the refused one are made.
    fn look(&self, row: MachineRow) -> Look {
        let shown = match (&self.machine, row) {
            (_, MachineRow::Finish) => 0,
            (Some(machine), _) => {
                let has_more = machine.top(0).is_some() as u64;
                (machine.trace().len() as u64)
                    .wrapping_mul(2)
                    .wrapping_add(has_more)
            }
            (None, _) => 0,
        };
        Look { shown, drops: 0 }
    }

    fn make(&mut self, row: MachineRow) -> Ended {
        match row {
            MachineRow::New(kind) => match Machine::new(self.alloc, 1, kind, 2) {
                Ok(machine) => {
                    self.machine = Some(machine);
                    Ended::Well
                }
                Err(_) => Ended::Refused,
            },
            MachineRow::Begin(call) => self.step(Step::Begin { party: 0, call }),
            MachineRow::Go => self.step(GO),
            MachineRow::Finish => self.finish(),
            MachineRow::Answer(end) => self.step(Step::Answer { party: 0, end }),
        }
    }
}
