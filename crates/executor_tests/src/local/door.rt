//! A future that leaves its waker, and what its test sees of it.
use async_task::{Future, Nobody, Poll, Wake};
use local_executor::{LocalExWaker, LocalExecutor};
use std::alloc::Global;
use std::cell::{Cell, RefCell};
use std::process::Abort;
use std::rc::Rc;
use std::sync::Wait;

/// An executor of visitors.
pub type House<R> = LocalExecutor<Visitor<R>, u64, Nobody, R>;

/// What a future and its test share.
#[derive(Drop)]
pub struct Door<R: Wait + Copy + Drop> {
    /// A copy of the waker of its first poll.
    waker: RefCell<Option<LocalExWaker<Nobody, R>>>,
    pub polls: Cell<u64>,
}

/// A door that a visitor and its test have.
type Shared<R> = Rc<Door<R>, Global>;

/// Leaves a copy of its waker at the door with its first poll, and is never ready.
#[derive(Drop)]
pub struct Visitor<R: Wait + Copy + Drop>(pub Shared<R>);

impl<R: Wait + Copy + Drop> Future<LocalExWaker<Nobody, R>> for Visitor<R> {
    type Output = u64;

    fn poll(&mut self, waker: &LocalExWaker<Nobody, R>) -> Poll<u64> {
        let polls = self.0.polls.get();
        if polls == 0 {
            drop(self.0.waker.try_replace(waker.clone()));
        }
        self.0.polls.set(polls.saturating_add(1));
        Poll::Pending
    }
}

impl<R: Wait + Copy + Drop> Door<R> {
    /// Takes the waker.
    pub fn take(&self) -> Option<LocalExWaker<Nobody, R>> {
        self.waker.try_replace(None).unwrap_or(None)
    }
}

/// A door where nobody was, for its test and for a visitor.
pub fn new_door<R: Abort + Wait + Copy + Drop>(rt: &R, alloc: Global) -> (Shared<R>, Shared<R>) {
    let (waker, polls) = (RefCell::new(None), Cell::new(0));
    let door = Rc::new(alloc, Door { waker, polls }).expect(rt, "memory");
    let other = door.clone().expect(rt, "memory");
    (door, other)
}
