//! Work for threads. Work that is refused comes back, and isn't done.
use async_task::{Future, Nobody, Poll};
use offload::{Offload, Run, RunError, Served, TryRunError, Work};
use refusal_rows::{Call, Place, Report};
use std::alloc::Global;
use std::sync::Wait;

/// A number of which its double comes.
#[derive(Drop)]
struct Double(u64);

impl Work for Double {
    type Output = u64;

    fn work(self) -> u64 {
        self.0.saturating_mul(2)
    }
}

type TestOffload<R> = Offload<Double, Nobody, R>;

/// Makes each call, and says whether all was as it has to be.
pub fn try_offloads<R: Wait + Copy + Drop>(rt: R, alloc: Global, report: &mut Report) -> bool {
    report.come_to(Place::Offload);
    let mut made = TestOffload::<R>::new(rt, alloc, 1);
    if made.is_err() {
        report.is_refused(Call::New);
        made = Offload::new(rt, alloc, 1);
    }
    let Ok(offload) = made else {
        return false;
    };
    hand_in(&offload, report) & wait_for_a_place(&offload, report)
}

/// Work is tried.
fn hand_in<R: Wait + Copy + Drop>(offload: &TestOffload<R>, report: &mut Report) -> bool {
    let mut tried = offload.try_run(Double(2));
    if let Err(TryRunError::NoMemory(job)) = tried {
        report.is_refused(Call::TryRun);
        report.expect((job.0 == 2) & (offload.serve_once() == Served::Nothing));
        tried = offload.try_run(job);
    }
    let Ok(mut answer) = tried else {
        return false;
    };
    (offload.serve_once() == Served::Worked) & matches!(answer.poll(&Nobody), Poll::Ready(Ok(4)))
}

/// Work that waits for a place is handed in.
fn run<R: Wait + Copy + Drop>(
    offload: &TestOffload<R>,
    job: Double,
    report: &mut Report,
) -> Option<Run<Double, Nobody, R>> {
    let number = job.0;
    match offload.run(job) {
        Err(RunError::NoMemory(job)) => {
            report.is_refused(Call::Run);
            report.expect(job.0 == number);
            offload.run(job).ok()
        }
        made => made.ok(),
    }
}

/// Three hand work in for one place. The first who waits for it takes no memory.
fn wait_for_a_place<R: Wait + Copy + Drop>(offload: &TestOffload<R>, report: &mut Report) -> bool {
    let (Some(mut first), Some(mut second), Some(mut third)) = (
        run(offload, Double(1), report),
        run(offload, Double(2), report),
        run(offload, Double(3), report),
    ) else {
        return false;
    };
    let waits = matches!(first.poll(&Nobody), Poll::Pending)
        & matches!(second.poll(&Nobody), Poll::Pending);
    let mut polled = third.poll(&Nobody);
    if let Poll::Ready(Err(RunError::NoMemory(job))) = polled {
        report.is_refused(Call::PollRun);
        report.expect(job.0 == 3);
        let Ok(again) = offload.run(job) else {
            return false;
        };
        third = again;
        polled = third.poll(&Nobody);
    }
    let all_wait = waits & matches!(polled, Poll::Pending);
    let served = offload.serve_once() == Served::Worked;
    all_wait & served & matches!(first.poll(&Nobody), Poll::Ready(Ok(2)))
}
