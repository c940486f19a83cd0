ghost use Rattle.std.specs.Prelude.{◌≡◌, true, IfErr, IfOk};
ghost use Rattle.async_task.specs.Awaiters.{is_lent};

use crate::bounds::{Output, OutsideWaker};
use crate::cell::{Due, Kept, Remains, Scheduled, Woken, owed_runnable, paid, pay_due};
use crate::lent::LentWaker;
use crate::poll::{Future, Poll};
use crate::runnable::{Closed, Closing, Pause, RunEnd};
use crate::schedule::Schedule;
use crate::waker::Awaiter;
use std::sync::Wait;
use task_moves::local_task::Back;
use task_word::tokens::ReadyRun;

/// A run whose future is being polled. It has no drop: it is settled.
#[must_use]
pub struct Running<F, T: Output, S, M, W: OutsideWaker, R>
where
    F: Drop + 'static,
    S: Schedule<Scheduled<F, T, S, M, W, R>> + Drop + 'static,
    M: Copy + Drop + 'static,
    R: Wait + Copy + Drop,
{
    pub(crate) waker: Awaiter<F, T, S, M, W, R>,
    pub(crate) run: ReadyRun<F, T, Kept<W>>,
    ghost lent: { is_lent waker ≡ true },
}

impl<F, T: Output, S, M, W: OutsideWaker, R> Running<F, T, S, M, W, R>
where
    F: Future<Awaiter<F, T, S, M, W, R>, Output = T> + Drop + 'static,
    S: Schedule<Scheduled<F, T, S, M, W, R>> + Drop + 'static,
    M: Copy + Drop + 'static,
    R: Wait + Copy + Drop,
{
    /// Polls the future, and ends the run. The answer is whether the task was woken during the poll, and was handed to its schedule
    /// value.
    #[inline(always)]
    pub(crate) fn poll(self, future: F) -> bool {
        let mut future = future;
        match future.poll(&self.waker) {
            Poll::Ready(output) => {
                drop(future);
                self.end(Back::Ready(output))
            }
            Poll::Pending => match self.pause_once(future) {
                Ok(Some(due)) => {
                    pay_due(Some(due));
                    true
                }
                Ok(None) => false,
                Err((running, future)) => running.end_apart(future),
            },
        }
    }

    /// The end of a poll without output that one try didn't make.
    #[cold]
    #[inline(never)]
    fn end_apart(self, future: F) -> bool {
        self.end(Back::Pending(future))
    }

    #[inline(always)]
    fn end(self, back: Back<F, T>) -> bool {
        match self.settle(back) {
            RunEnd::Over => false,
            RunEnd::Pause(pause) => pause.finish(),
            RunEnd::Drop(future, closing) => {
                drop(future);
                closing.finish();
                false
            }
        }
    }
}

impl<F, T: Output, S, M, W: OutsideWaker, R> Running<F, T, S, M, W, R>
where
    F: Drop + 'static,
    S: Schedule<Scheduled<F, T, S, M, W, R>> + Drop + 'static,
    M: Copy + Drop + 'static,
    R: Wait + Copy + Drop,
{
    ghost use Rattle.async_task.specs.Runs.{EndsRun, PausesBy};

    /// The waker that the future is polled with.
    #[inline(always)]
    pub fn waker(&self) -> &Awaiter<F, T, S, M, W, R>
        ensures { result.now ≡ self.now.waker }
    {
        &self.waker
    }

    /// One try of ending the run of a future that gave no output, with the task where it was woken during the poll. The run comes back
    /// with its future where the task is closed, nobody can reach it any more, or somebody else stepped meanwhile; `settle` takes it
    /// then.
    #[inline(always)]
    pub fn pause_once(self, future: F) -> Result<Option<Due<F, T, S, M, W, R>>, (Self, F)>
        ensures ended { IfOk result (PausesBy self.run.cell.now.board.shared self.waker) }
        ensures back { IfErr result (λ back. (back.0.waker ≡ self.waker) × (back.0.run.cell.now ≡ self.run.cell.now) × (back.1 ≡ future)) }
    {
        let Self { waker, run } = self;
        let held = match waker {
            Awaiter::Lent(waker) => waker.into_held(),
            Awaiter::Task(_) => unreachable!(),
            Awaiter::Outside(_) => unreachable!(),
        };
        match run.give_back(future).pend_once() {
            Ok((owed, runnable)) => match owed_runnable(owed, runnable) {
                Some(Woken { token, info }) => Ok(Some(Due {
                    runnable: Scheduled { held, token },
                    info,
                })),
                None => Ok(None),
            },
            Err(run) => {
                let (run, future) = run.ready();
                let waker = Awaiter::Lent(LentWaker::of(held));
                Err((Running { waker, run }, future.pay()))
            }
        }
    }

    /// Ends the run. Where the future has given its output, it is dropped before this call.
    #[inline(always)]
    pub fn settle(self, back: Back<F, T>) -> RunEnd<F, T, S, M, W, R>
        ensures { EndsRun self.run.cell.now.board.shared self.waker back result }
    {
        let Self { waker, run } = self;
        let held = match waker {
            Awaiter::Lent(waker) => waker.into_held(),
            Awaiter::Task(_) => unreachable!(),
            Awaiter::Outside(_) => unreachable!(),
        };
        match back {
            Back::Ready(output) => {
                let (_, run, output) = run.store(&held.rt(), output);
                drop(paid(output));
                held.leave(run);
                RunEnd::Over
            }
            Back::Pending(future) => {
                let (owed, left, future) = run.give_back(future).pend(&held.rt());
                match left {
                    Ok(left) => match future {
                        Some(future) => {
                            let closed = Closed::Left(Remains { owed, left });
                            RunEnd::Drop(future.pay(), Closing { held, closed })
                        }
                        None => {
                            let remains = Remains { owed, left };
                            RunEnd::Pause(Pause { held, remains })
                        }
                    },
                    Err(closed) => match future {
                        Some(future) => {
                            let closed = Closed::Run(closed);
                            RunEnd::Drop(future.pay(), Closing { held, closed })
                        }
                        None => unreachable!(),
                    },
                }
            }
        }
    }
}
