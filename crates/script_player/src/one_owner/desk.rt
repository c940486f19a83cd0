//! The executor of a script, and its futures, which are polled and dropped here.
use crate::one_owner::handle::Handle;
use crate::one_owner::link::Link;
use crate::one_owner::runs::ScriptRun;
use crate::one_owner::store::{ScriptFuture, Store};
use crate::one_owner::ticks::ScriptTick;
use crate::one_owner::waker::{LentWaker, ScriptWaker, TaskWaker};
use async_task::{Future, Poll};
use player_parts::{Answer, Bell, Desk, Own, Plan, Refused, SharedShelf, future_of};
use script::Name;
use solo::{Back, Found, Lent, SpawnError, Spawned, Taken};
use std::sync::Wait;

/// How many polls of a script may run others in them at a time. More are as where memory lacks.
const MOST_NESTED: u64 = 1_000;

/// An executor of a script.
#[derive(Drop)]
pub struct OnSolo<'a, R: Wait + Copy + Drop> {
    pub link: &'a Link<R>,
    pub store: &'a Store<R>,
    /// Where the wakers of its futures are kept.
    pub shelf: &'a SharedShelf<TaskWaker<R>>,
    /// It is neither static nor leaked.
    pub may_end: bool,
}

impl<R: Wait + Copy + Drop> Desk<Handle<R>, ScriptTick<R>, ScriptRun<R>> for OnSolo<'_, R> {
    fn spawn(&self, plan: Plan<Handle<R>>) -> Result<Handle<R>, Refused<Handle<R>>> {
        let mark = plan.mark;
        let future = future_of(self.shelf, plan)?;
        let name = future.name;
        let spawned = self.link.tasks().spawn(name, mark);
        match spawned {
            Ok(Spawned { task, told }) => {
                self.store.put(name, future);
                self.link.pay_told(told);
                Ok(Handle::new(self.link.share(), task))
            }
            Err(error) => Err(Refused {
                answer: match error {
                    SpawnError::Full(_) => Answer::Full,
                    SpawnError::NoMemory(_) => Answer::NoMemory,
                },
                held: future.into_held(),
            }),
        }
    }

    fn try_tick(&self) -> bool {
        self.run_next(MOST_NESTED)
    }

    fn is_empty(&self) -> bool {
        let is_empty = self.link.tasks().is_empty();
        is_empty
    }

    fn may_end(&self) -> bool {
        self.may_end
    }

    fn tick(&self) -> Option<ScriptTick<R>> {
        ScriptTick::new(self.link)
    }

    fn run(&self, own: Own<Handle<R>>) -> Result<ScriptRun<R>, Own<Handle<R>>> {
        ScriptRun::new(self.link, own)
    }

    fn poll_tick(&self, tick: &mut ScriptTick<R>, bell: Bell) -> Answer {
        self.look(tick, &ScriptWaker::Outside(bell))
    }

    fn poll_run(&self, run: &mut ScriptRun<R>, bell: Bell) -> Answer {
        self.go_on(run, &ScriptWaker::Outside(bell))
    }
}

impl<R: Wait + Copy + Drop> OnSolo<'_, R> {
    /// Runs what a tick or run has found, and says whether that was a task.
    pub fn run_found(&self, found: Found<Name>) -> bool {
        self.run_within(found, MOST_NESTED)
    }

    /// Takes what a search finds and runs it, and says whether that was a task. So many polls may run others in them.
    #[cycle(nesting)]
    fn run_next(&self, nested: u64) -> bool {
        let Taken { found, sleeper } = self.link.tasks().take();
        self.link.call_sleeper(sleeper);
        self.run_within(found, nested)
    }

    /// Runs what was found, and says whether that was a task.
    #[cycle(nesting)]
    fn run_within(&self, found: Found<Name>, nested: u64) -> bool {
        match found {
            Found::Nothing => false,
            Found::Gone => true,
            Found::Poll(lent, name) => {
                self.poll(lent, name, nested);
                true
            }
            Found::Drop(lent, name) => {
                self.drop_future(lent, name);
                true
            }
        }
    }

    #[cycle(nesting)]
    fn poll(&self, lent: Lent, name: Name, nested: u64) {
        match self.store.take(name) {
            Some(future) if future.nests() => self.poll_nesting(lent, name, future, nested),
            Some(future) => self.poll_taken(lent, name, future),
            None => self.settle_pending(lent, name),
        }
    }

    /// Polls a future that runs another in its poll: that is run here, between its beginning and its end.
    #[cycle(nesting)]
    fn poll_nesting(&self, lent: Lent, name: Name, future: ScriptFuture<R>, nested: u64) {
        let mut future = future;
        future.begin_nest();
        if nested == 0 {
            self.shelf.stage.lack_memory();
        } else {
            self.run_next(nested - 1);
        }
        future.end_nest();
        self.store.put(name, future);
        self.settle_pending(lent, name);
    }

    /// Polls a future, and drops it where it is ready.
    fn poll_taken(&self, lent: Lent, name: Name, future: ScriptFuture<R>) {
        let mut future = future;
        let waker = LentWaker::of(self.link.share(), lent.task());
        let polled = future.poll(waker.waker());
        waker.end();
        match polled {
            Poll::Ready(gift) => {
                drop(future);
                let owed = self.link.tasks().settle(lent, Back::Ready(gift));
                self.link.pay_all(owed);
            }
            Poll::Pending => {
                self.store.put(name, future);
                self.settle_pending(lent, name);
            }
        }
    }

    /// The poll of a future has given no output: it stays, or is dropped where its task is closed.
    fn settle_pending(&self, lent: Lent, name: Name) {
        let owed = self.link.tasks().settle(lent, Back::Pending(name));
        if let Some(lent) = self.link.pay(owed) {
            self.drop_future(lent, name);
        }
    }

    /// Drops a future, and ends its task.
    fn drop_future(&self, lent: Lent, name: Name) {
        drop(self.store.take(name));
        let owed = self.link.tasks().finish(lent);
        self.link.pay_all(owed);
    }
}

/// The executor ends: its futures are dropped in the order of acceptance, and its tasks closed.
pub fn end<R: Wait + Copy + Drop>(link: &Link<R>, store: &Store<R>) {
    link.tasks().close();
    for _ in link.rt().forever() {
        let drained = link.tasks().drain();
        let Some(owed) = drained else {
            return;
        };
        if let Some(name) = owed.future {
            drop(store.take(name));
        }
        if let Some(lent) = link.pay(owed) {
            let owed = link.tasks().finish(lent);
            link.pay_all(owed);
        }
    }
    unreachable!()
}

/// The executor is leaked: the wakers that it counted are called, in the order of acceptance.
pub fn leak<R: Wait + Copy + Drop>(link: &Link<R>) {
    link.tasks().leak();
    for _ in link.rt().forever() {
        let woken = link.tasks().leak_next();
        let Some(told) = woken else {
            return;
        };
        link.pay_told(told);
    }
    unreachable!()
}
