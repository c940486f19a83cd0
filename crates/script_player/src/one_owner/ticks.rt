//! The ticks of a script.
use crate::one_owner::desk::OnSolo;
use crate::one_owner::link::Link;
use crate::one_owner::waker::{ScriptWaker, copy_for};
use player_parts::{Answer, Bell};
use script::Name;
use solo::{Found, Look, SoloWaker, Ticked, Ticker, Told};
use std::mem;
use std::sync::Wait;

/// A tick of an executor.
pub struct ScriptTick<R: Wait + Copy + Drop> {
    link: Link<R>,
    /// It is out only while the tick is polled.
    ticker: Option<Ticker>,
}

/// How far a poll of a tick or run has come.
#[must_use]
pub enum Step {
    /// It has taken this.
    Took(Found<Name>),
    /// It looks again.
    Again,
    /// It sleeps.
    Pending,
    /// No copy of the waker could be had.
    NoMemory,
}

/// A tick, and how far its poll has come.
#[must_use]
pub struct Looked {
    pub ticker: Ticker,
    pub step: Step,
}

impl<R: Wait + Copy + Drop> ScriptTick<R> {
    /// A new one, where there is memory for it.
    pub fn new(link: &Link<R>) -> Option<ScriptTick<R>> {
        let made = link.tasks().tick();
        match made {
            Ok(ticker) => Some(ScriptTick {
                link: link.share(),
                ticker: Some(ticker),
            }),
            Err(_) => None,
        }
    }
}

impl<R: Wait + Copy + Drop> Drop for ScriptTick<R> {
    fn drop(self) {
        let ScriptTick { link, ticker } = self;
        leave_if(&link, ticker);
    }
}

/// A tick leaves, where there is one.
fn leave_if<R: Wait + Copy + Drop>(link: &Link<R>, ticker: Option<Ticker>) {
    match ticker {
        Some(ticker) => {
            let dropped = link.tasks().tick_leave(ticker);
            link.pay_dropped(dropped);
        }
        None => {}
    }
}

impl<R: Wait + Copy + Drop> OnSolo<'_, R> {
    /// A tick looks for a task and runs it, or falls asleep.
    pub fn look(&self, tick: &mut ScriptTick<R>, waker: &ScriptWaker<R>) -> Answer {
        for _ in self.link.rt().forever() {
            let Some(ticker) = mem::replace(&mut tick.ticker, None) else {
                return Answer::Pending;
            };
            let Looked { ticker, step } = self.search(ticker, waker);
            leave_if(self.link, mem::replace(&mut tick.ticker, Some(ticker)));
            match step {
                Step::Took(found) => {
                    self.run_found(found);
                    return Answer::Ready;
                }
                Step::Again => {}
                Step::Pending => return Answer::Pending,
                Step::NoMemory => return Answer::NoMemory,
            }
        }
        unreachable!()
    }

    /// A copy of the waker is asked for only where there is no task; one that is given is taken before.
    fn search(&self, ticker: Ticker, waker: &ScriptWaker<R>) -> Looked {
        if let Some(copy) = self.given_copy(waker) {
            let ticked = self.link.tasks().tick_take(ticker, copy);
            return self.looked(ticked);
        }
        let searched = self.link.tasks().tick_search(ticker);
        match searched {
            Ok(ticked) => self.looked(ticked),
            Err(ticker) => self.fall_asleep(ticker, waker),
        }
    }

    /// A copy of a waker, where the command's requests aren't refused.
    pub fn given_copy(&self, waker: &ScriptWaker<R>) -> Option<SoloWaker<Bell>> {
        if self.shelf.stage.asking.may_refuse() {
            None
        } else {
            copy_for(self.link, waker)
        }
    }

    /// What has found no task falls asleep with a copy of the waker.
    pub fn fall_asleep(&self, ticker: Ticker, waker: &ScriptWaker<R>) -> Looked {
        match copy_for(self.link, waker) {
            Some(copy) => {
                let ticked = self.link.tasks().tick_sleep(ticker, copy);
                self.looked(ticked)
            }
            None => Looked {
                ticker,
                step: Step::NoMemory,
            },
        }
    }

    /// What a look hands out is called and dropped.
    pub fn looked(&self, ticked: Ticked<Name, Bell>) -> Looked {
        let Ticked {
            ticker,
            look,
            sleeper,
            old,
            spare,
            returned,
        } = ticked;
        self.link.pay_told(Told { sleeper, returned });
        drop(old);
        self.link.let_go(spare);
        let step = match look {
            Look::Took(found) => Step::Took(found),
            Look::Again => Step::Again,
            Look::Nothing => Step::Pending,
        };
        Looked { ticker, step }
    }
}
