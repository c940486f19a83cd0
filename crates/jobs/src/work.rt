ghost use Rattle.std.specs.Prelude.{◌≡◌};
ghost use Rattle.jobs.specs.Answers.{IsInRange};

use crate::gate::Gate;
use crate::{Job, Progress, Solved};
use async_task::{Future, Poll, Wake};

/// The future of one job: its output is the job with its answer.
#[derive(Drop)]
pub struct Work<G> {
    gate: G,
    progress: Progress,
    has_met: bool,
}

impl<G> Work<G> {
    /// The future of this job, not polled yet.
    pub fn new(gate: G, number: u64, job: Job) -> Self
        requires { IsInRange job }
        ensures number { result.progress.number ≡ number }
        ensures job { result.progress.job ≡ job }
    {
        Work {
            gate,
            progress: Progress::new(number, job),
            has_met: false,
        }
    }
}

impl<K: Wake, G: Gate> Future<K> for Work<G> {
    type Output = Solved;

    /// 1. At the first poll, meets the gate.
    /// 2. A product is worked out at once. Of a sum 1,000 terms are added; where some are left, it wakes itself and is
    ///    pending.
    fn poll(&mut self, waker: &K) -> Poll<Solved> {
        if !self.has_met {
            self.has_met = true;
            self.gate.meet(self.progress.number());
        }
        match self.progress.step() {
            Some(solved) => Poll::Ready(solved),
            None => {
                waker.wake_by_ref();
                Poll::Pending
            }
        }
    }
}
