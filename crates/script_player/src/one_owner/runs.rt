//! The runs of a script.
use crate::one_owner::desk::OnSolo;
use crate::one_owner::handle::Handle;
use crate::one_owner::link::Link;
use crate::one_owner::ticks::{Looked, Step};
use crate::one_owner::waker::ScriptWaker;
use async_task::{Future, Poll, Wake};
use player_parts::{Answer, Bell, Own};
use script::Name;
use solo::{Missed, Ran, RunLeft, Runner, Ticker};
use std::mem;
use std::sync::Wait;

/// The starting word of all walks round the queues of other runs, as the step machine's player has it.
const START: u64 = 0;

/// A run, as its executor knows it. It has no drop: it leaves.
#[must_use]
struct Running {
    runner: Runner,
    ticker: Ticker,
}

/// A run of an executor.
pub struct ScriptRun<R: Wait + Copy + Drop> {
    link: Link<R>,
    /// The future that it runs for, until that is ready.
    own: Option<Own<Handle<R>>>,
    /// It is out only while the run is polled, and gone once its future was ready.
    running: Option<Running>,
}

/// A run, and how far its poll has come.
#[must_use]
struct Sought {
    running: Running,
    step: Step,
    /// Once the task is run, others go first.
    gives_way: bool,
}

impl<R: Wait + Copy + Drop> ScriptRun<R> {
    /// A new one. For want of memory its own future comes back.
    pub fn new(link: &Link<R>, own: Own<Handle<R>>) -> Result<ScriptRun<R>, Own<Handle<R>>> {
        let made = link.tasks().run();
        match made {
            Ok((runner, ticker)) => Ok(ScriptRun {
                link: link.share(),
                own: Some(own),
                running: Some(Running { runner, ticker }),
            }),
            Err(_) => Err(own),
        }
    }
}

impl<R: Wait + Copy + Drop> Drop for ScriptRun<R> {
    /// Its own future is dropped before it leaves.
    fn drop(self) {
        let ScriptRun { link, own, running } = self;
        drop(own);
        leave_if(&link, running);
    }
}

/// A run leaves, where there is one: each task of its own queue is scheduled, in order, and then it leaves the sleepers.
fn leave_if<R: Wait + Copy + Drop>(link: &Link<R>, running: Option<Running>) {
    let Some(Running { runner, ticker }) = running else {
        return;
    };
    let mut leaving = link.tasks().run_leave(runner, ticker);
    for _ in link.rt().forever() {
        let left = link.tasks().run_drain(leaving);
        match left {
            RunLeft::Scheduled(rest, told) => {
                link.pay_told(told);
                leaving = rest;
            }
            RunLeft::Gone(dropped) => {
                link.pay_dropped(dropped);
                return;
            }
        }
    }
    unreachable!()
}

impl<R: Wait + Copy + Drop> OnSolo<'_, R> {
    /// Polls a run's own future, and where that isn't ready takes tasks and runs each, until it falls asleep or lets others go
    /// first.
    pub fn go_on(&self, run: &mut ScriptRun<R>, waker: &ScriptWaker<R>) -> Answer {
        let Some(own) = &mut run.own else {
            return Answer::Finished;
        };
        if let Some(running) = &run.running {
            self.link.tasks().run_begin(&running.runner);
        }
        match own.poll(waker) {
            Poll::Ready(number) => {
                drop(mem::replace(&mut run.own, None));
                leave_if(self.link, mem::replace(&mut run.running, None));
                Answer::Output(number)
            }
            Poll::Pending => self.take_tasks(&mut run.running, waker),
        }
    }

    fn take_tasks(&self, kept: &mut Option<Running>, waker: &ScriptWaker<R>) -> Answer {
        for _ in self.link.rt().forever() {
            let Some(running) = mem::replace(kept, None) else {
                return Answer::Pending;
            };
            let Sought {
                running,
                step,
                gives_way,
            } = self.seek(running, waker);
            leave_if(self.link, mem::replace(kept, Some(running)));
            match step {
                Step::Took(found) => {
                    self.run_found(found);
                }
                Step::Again => {}
                Step::Pending => return Answer::Pending,
                Step::NoMemory => return Answer::NoMemory,
            }
            if gives_way {
                waker.wake_by_ref();
                return Answer::Pending;
            }
        }
        unreachable!()
    }

    /// A copy of the waker is asked for only where there is no task; one that is given is taken before.
    fn seek(&self, running: Running, waker: &ScriptWaker<R>) -> Sought {
        let Running { runner, ticker } = running;
        let mut runner = runner;
        if let Some(copy) = self.given_copy(waker) {
            let ran = self.link.tasks().run_take(&mut runner, ticker, copy, START);
            return self.ran(runner, ran);
        }
        let searched = self.link.tasks().run_search(&mut runner, ticker, START);
        match searched {
            Ok(ran) => self.ran(runner, ran),
            Err(
                Missed {
                    ticker,
                    has_walked: _,
                },
            ) => {
                let Looked { ticker, step } = self.fall_asleep(ticker, waker);
                Sought {
                    running: Running { runner, ticker },
                    step,
                    gives_way: false,
                }
            }
        }
    }

    /// What a look hands out is called and dropped.
    fn ran(&self, runner: Runner, ran: Ran<Name, Bell>) -> Sought {
        let Ran {
            ticked,
            gives_way,
            has_walked: _,
        } = ran;
        let Looked { ticker, step } = self.looked(ticked);
        Sought {
            running: Running { runner, ticker },
            step,
            gives_way,
        }
    }
}
