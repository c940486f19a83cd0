//! What is given up midway: a future gives up its own handle while it is polled, and calls or lets go wakers of its own. Scripts
//! drop handles in polls too; none calls a waker that then goes, or cancels and detaches there.
use async_task::{Future, Nobody, Poll, Wake};
use local_executor::{
    LocalCancel, LocalExWaker, LocalExecutor, LocalHandle, SpawnError, StaticLocalExecutor,
};
use std::alloc::Global;
use std::cell::{Cell, RefCell};
use std::mem;
use std::process::Abort;
use std::random::RandomSource;
use std::rc::Rc;
use std::sync::Wait;

/// What a future does in its first poll, before that ends, or its test once nothing is queued.
#[derive(Clone, Copy)]
enum Deed {
    Nothing,
    /// Drops the handle.
    Drops,
    Detaches,
    /// Polls a cancel with the waker of the poll, and keeps the cancel.
    Cancels,
    /// Polls the handle with the waker of the poll, and keeps it.
    Awaits,
    /// Calls a copy of the waker, which goes.
    Tells,
    /// Lets a copy of the waker go.
    LetsGo,
    /// Keeps a copy of the waker.
    Keeps,
}

/// An output, and what shows that it is there: the other copy of its `Rc` has a fellow.
type Gift = Rc<(), Global>;

/// What a future and its test share.
#[derive(Drop)]
struct Desk<R: Wait + Copy + Drop> {
    handle: RefCell<Option<LocalHandle<Gift, Nobody, R>>>,
    cancel: RefCell<Option<LocalCancel<Gift, Nobody, R>>>,
    /// The copy of the waker that a poll has kept.
    waker: RefCell<Option<LocalExWaker<Nobody, R>>>,
    polls: Cell<u64>,
}

/// A desk that a future and its test have.
type Shared<R> = Rc<Desk<R>, Global>;

impl<R: Wait + Copy + Drop> Desk<R> {
    fn new() -> Self {
        Desk {
            handle: RefCell::new(None),
            cancel: RefCell::new(None),
            waker: RefCell::new(None),
            polls: Cell::new(0),
        }
    }

    fn handle(&self) -> Option<LocalHandle<Gift, Nobody, R>> {
        self.handle.try_replace(None).unwrap_or(None)
    }

    /// Does it with this waker.
    fn does(&self, deed: Deed, waker: &LocalExWaker<Nobody, R>) {
        match deed {
            Deed::Nothing => {}
            Deed::Drops => drop(self.handle()),
            Deed::Detaches => self.detaches(),
            Deed::Cancels => self.cancels(waker),
            Deed::Awaits => self.awaits(waker),
            Deed::Tells => tells(waker.clone()),
            Deed::LetsGo => drop(waker.clone()),
            Deed::Keeps => drop(self.waker.try_replace(waker.clone())),
        }
    }

    fn detaches(&self) {
        if let Some(handle) = self.handle() {
            handle.detach();
        }
    }

    fn cancels(&self, waker: &LocalExWaker<Nobody, R>) {
        if let Some(handle) = self.handle() {
            let mut cancel = handle.cancel();
            drop(cancel.poll(waker));
            drop(self.cancel.try_replace(Some(cancel)));
        }
    }

    fn awaits(&self, waker: &LocalExWaker<Nobody, R>) {
        if let Some(mut handle) = self.handle() {
            drop(handle.poll(waker));
            drop(self.handle.try_replace(Some(handle)));
        }
    }

    /// Calls the waker that a poll has kept, or lets it go.
    fn ends_with(&self, deed: Deed) {
        let kept = self.waker.try_replace(None).unwrap_or(None);
        match deed {
            Deed::Tells => tells(kept),
            _ => drop(kept),
        }
    }
}

/// Calls a waker, which goes.
fn tells<R: Wait + Copy + Drop>(waker: Option<LocalExWaker<Nobody, R>>) {
    if let Some(waker) = waker {
        waker.wake();
    }
}

/// Does two things in its first poll, which is ready where it has an output. No later one is.
#[derive(Drop)]
struct Quitter<R: Wait + Copy + Drop> {
    desk: Shared<R>,
    deeds: (Deed, Deed),
    output: Option<Gift>,
}

impl<R: Wait + Copy + Drop> Future<LocalExWaker<Nobody, R>> for Quitter<R> {
    type Output = Gift;

    fn poll(&mut self, waker: &LocalExWaker<Nobody, R>) -> Poll<Gift> {
        let polls = self.desk.polls.get();
        self.desk.polls.set(polls.saturating_add(1));
        if polls > 0 {
            return Poll::Pending;
        }
        let (first, second) = self.deeds;
        self.desk.does(first, waker);
        self.desk.does(second, waker);
        match mem::replace(&mut self.output, None) {
            Some(gift) => Poll::Ready(gift),
            None => Poll::Pending,
        }
    }
}

/// An executor of either kind.
#[derive(Drop)]
enum Place<R: Wait + Copy + Drop> {
    Owned(LocalExecutor<Quitter<R>, Gift, Nobody, R>),
    Static(StaticLocalExecutor<Quitter<R>, Gift, Nobody, R>),
}

impl<R: Abort + RandomSource + Wait + Copy + Drop> Place<R> {
    fn new(rt: R, alloc: Global, is_static: bool) -> Self {
        if is_static {
            Place::Static(StaticLocalExecutor::new(rt, alloc, 1).expect(&rt, "memory"))
        } else {
            Place::Owned(LocalExecutor::new(rt, alloc, 1).expect(&rt, "memory"))
        }
    }

    fn spawn(
        &self,
        future: Quitter<R>,
    ) -> Result<LocalHandle<Gift, Nobody, R>, SpawnError<Quitter<R>>> {
        match self {
            Place::Owned(executor) => executor.spawn(future),
            Place::Static(executor) => executor.spawn(future),
        }
    }

    /// Runs tasks until none is queued.
    fn runs(&self) {
        for _ in 0..10 {
            let has_run = match self {
                Place::Owned(executor) => executor.try_tick(),
                Place::Static(executor) => executor.try_tick(),
            };
            if !has_run {
                return;
            }
        }
    }
}

/// What is left of a future.
#[derive(Clone, Copy, Debug, PartialEq)]
struct Left {
    polls: u64,
    has_future: bool,
    has_output: bool,
}

/// What is left once a future has done these things in its first poll, was run as long as it was queued, its kept waker was called or
/// let go, and it was run again.
fn left_behind<R: Abort + RandomSource + Wait + Copy + Drop>(
    rt: R,
    alloc: Global,
    is_static: bool,
    row: &Row,
) -> Option<Left> {
    let place = Place::new(rt, alloc, is_static);
    let desk = Rc::new(alloc, Desk::new()).expect(&rt, "memory");
    let own = desk.clone().expect(&rt, "memory");
    let gift = Rc::new(alloc, ()).expect(&rt, "memory");
    let output = if row.is_ready {
        Some(gift.clone().expect(&rt, "memory"))
    } else {
        None
    };
    let future = Quitter {
        desk: own,
        deeds: row.deeds,
        output,
    };
    let Ok(handle) = place.spawn(future) else {
        return None;
    };
    drop(desk.handle.try_replace(Some(handle)));
    place.runs();
    desk.ends_with(row.last);
    place.runs();
    Some(Left {
        polls: desk.polls.get(),
        has_future: Rc::strong_count(&desk) > 1,
        has_output: Rc::strong_count(&gift) > 1,
    })
}

/// What a future does and what is left of it.
#[derive(Clone, Copy)]
struct Row {
    deeds: (Deed, Deed),
    is_ready: bool,
    last: Deed,
    polls: u64,
    /// It is there: on an executor that isn't static, and on one that is.
    stays: (bool, bool),
}

fn pending(deeds: (Deed, Deed), last: Deed, polls: u64, stays: (bool, bool)) -> Row {
    Row {
        deeds,
        is_ready: false,
        last,
        polls,
        stays,
    }
}

/// Its future is dropped behind its first poll.
fn ready(deeds: (Deed, Deed), last: Deed) -> Row {
    Row {
        deeds,
        is_ready: true,
        last,
        polls: 1,
        stays: (false, false),
    }
}

const GONE: (bool, bool) = (false, false);

/// A static executor drops a detached future that nobody can wake.
const OWNED_STAYS: (bool, bool) = (true, false);

const STAYS: (bool, bool) = (true, true);

fn rows() -> [Row; 21] {
    [
        pending((Deed::Drops, Deed::Nothing), Deed::Nothing, 1, GONE),
        pending((Deed::Cancels, Deed::Nothing), Deed::Nothing, 1, GONE),
        pending(
            (Deed::Detaches, Deed::Nothing),
            Deed::Nothing,
            1,
            OWNED_STAYS,
        ),
        pending(
            (Deed::Detaches, Deed::LetsGo),
            Deed::Nothing,
            1,
            OWNED_STAYS,
        ),
        pending((Deed::LetsGo, Deed::Drops), Deed::Nothing, 1, GONE),
        pending((Deed::Tells, Deed::Nothing), Deed::Nothing, 2, STAYS),
        pending((Deed::Tells, Deed::Drops), Deed::Nothing, 1, GONE),
        pending((Deed::Drops, Deed::Tells), Deed::Nothing, 1, GONE),
        pending((Deed::Cancels, Deed::Tells), Deed::Nothing, 1, GONE),
        pending((Deed::Tells, Deed::Detaches), Deed::Nothing, 2, OWNED_STAYS),
        pending((Deed::Detaches, Deed::Tells), Deed::Nothing, 2, OWNED_STAYS),
        pending((Deed::Awaits, Deed::Drops), Deed::Nothing, 1, GONE),
        pending((Deed::Keeps, Deed::Detaches), Deed::LetsGo, 1, OWNED_STAYS),
        pending((Deed::Keeps, Deed::Detaches), Deed::Tells, 2, OWNED_STAYS),
        pending((Deed::Keeps, Deed::Drops), Deed::Tells, 1, GONE),
        pending((Deed::Keeps, Deed::Nothing), Deed::Tells, 2, STAYS),
        ready((Deed::Drops, Deed::Nothing), Deed::Nothing),
        ready((Deed::Detaches, Deed::Tells), Deed::Nothing),
        ready((Deed::Cancels, Deed::Nothing), Deed::Nothing),
        ready((Deed::Awaits, Deed::Drops), Deed::Nothing),
        ready((Deed::Keeps, Deed::Detaches), Deed::Tells),
    ]
}

/// The first row of which something else is left, with what that is.
fn first_wrong<R: Abort + RandomSource + Wait + Copy + Drop>(
    rt: R,
    alloc: Global,
    is_static: bool,
) -> Option<(usize, Option<Left>)> {
    for (number, row) in rows().iter().enumerate() {
        let want = Left {
            polls: row.polls,
            has_future: if is_static { row.stays.1 } else { row.stays.0 },
            has_output: false,
        };
        let found = left_behind(rt, alloc, is_static, row);
        if found != Some(want) {
            return Some((number, found));
        }
    }
    None
}

#[test]
fn what_is_given_up_in_a_poll_is_over_with_it(rt: HostRuntime) {
    for is_static in [false, true] {
        let wrong = first_wrong(rt, rt.alloc(), is_static);
        assert!(rt;
            wrong.is_none(),
            "static: {is_static}, row, and what is left: {wrong:?}"
        );
    }
}
