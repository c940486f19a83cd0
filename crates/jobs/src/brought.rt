//! What came back to a worker. Only what its desk brought can be among it.
use crate::Solved;
use crate::desk::{Awaits, Desk};
use async_task::{NoMemory, Poll};
use std::alloc::Global;
use std::marker::PhantomData;
use std::mem;

/// What came back to a worker that is done.
#[derive(Drop)]
pub struct Brought<D: Desk> {
    solved: Vec<Solved>,
    desk: PhantomData<D>,
    ghost theirs: { ∥ ((desk : D) × D.has_brought desk solved.items) ∥₁ },
}

impl<D: Desk> Brought<D> {
    /// The jobs with their answers.
    pub fn into_solved(self) -> Vec<Solved>
        ensures { ∥ ((desk : D) × D.has_brought desk result.items) ∥₁ }
    {
        let Brought { solved, desk: _ } = self;
        solved
    }
}

/// A desk, and what came back from it so far.
#[derive(Drop)]
pub struct Log<D: Desk + Drop> {
    alloc: Global,
    desk: D,
    solved: Vec<Solved>,
    ghost theirs: { ∥ D.has_brought desk solved.items ∥₁ },
}

impl<D: Desk + Drop> Log<D> {
    /// Makes a log for this desk, from which nothing came back yet.
    pub fn new(alloc: Global, desk: D) -> Self {
        Log {
            alloc,
            desk,
            solved: Vec::new(alloc),
        }
    }

    /// Awaits the job that was begun last, where one was, and keeps what came back.
    pub fn bring<K>(&mut self, waker: &K) -> Poll<Result<(), NoMemory>>
    where
        D: Awaits<K>,
    {
        match self.desk.bring(waker) {
            Poll::Pending => Poll::Pending,
            Poll::Ready(Err(NoMemory)) => Poll::Ready(Err(NoMemory)),
            Poll::Ready(Ok(None)) => Poll::Ready(Ok(())),
            Poll::Ready(Ok(Some(solved))) => match self.solved.push(solved) {
                Ok(()) => Poll::Ready(Ok(())),
                Err(_) => Poll::Ready(Err(NoMemory)),
            },
        }
    }

    /// Begins the next job. False where none is left.
    pub fn begin(&mut self) -> Result<bool, NoMemory> {
        self.desk.begin()
    }

    /// All that came back.
    pub fn end(&mut self) -> Brought<D> {
        let solved = mem::replace(&mut self.solved, Vec::new(self.alloc));
        Brought {
            solved,
            desk: PhantomData,
        }
    }
}
