//! Many answers, in order.
ghost use Rattle.std.specs.Prelude.{◌≡◌, ◌<◌, [], length};
ghost use Rattle.pool.specs.Answers.{HasJoined, HasStepped};

use async_task::{Future, Poll, TaskError};
use std::alloc::Global;
use std::collections::VecDeque;
use std::mem;
use waiting::oneshot::Canceled;

/// Awaits answers one after the other: a future with their outputs, in order. Its drop cancels the tasks that are left.
///
/// It is ready with `TaskClosed` at the first answer that is canceled, and with `NoMemory` where there is no room for an output.
/// The outputs that came stay. Polled again, it goes on after that answer, or with the same. In `jobs` of `first_week`:
///
/// ```
/// let mut answers = Vec::with_capacity(alloc, 1_000)?;
/// for number in 1..=1_000 {
///     answers.push(pool.spawn(Collatz(number))?)?;
/// }
/// ```
#[derive(Drop)]
#[must_use]
pub struct Answers<A: Drop, X: Drop> {
    alloc: Global,
    waiting: VecDeque<A>,
    outputs: Vec<X>,
}

impl<A: Drop, X: Drop> Answers<A, X> {
    /// Makes a future over these answers, in this order. It takes no memory.
    pub fn new(alloc: Global, answers: Vec<A>) -> Self
        ensures waiting { result.waiting.items ≡ answers.items }
        ensures outputs { result.outputs.items ≡ [] }
    {
        Answers {
            alloc,
            waiting: VecDeque::from(answers),
            outputs: Vec::new(alloc),
        }
    }

    /// Polls the first answer. It stays where its output hasn't come.
    fn step<K>(&mut self, waker: &K) -> Poll<Result<X, Canceled>>
    where
        A: Future<K, Output = Result<X, Canceled>>,
        requires some { 0 < length self.old.waiting.items }
        ensures stepped { HasStepped self.old.waiting.items self.new.waiting.items result }
        ensures outputs { self.new.outputs ≡ self.old.outputs }
    {
        let Some(first) = self.waiting.front_mut() else {
            return Poll::Pending;
        };
        match first.poll(waker) {
            Poll::Pending => Poll::Pending,
            Poll::Ready(answer) => {
                drop(self.waiting.pop_front());
                Poll::Ready(answer)
            }
        }
    }
}

impl<K, A, X: Drop> Future<K> for Answers<A, X>
where
    A: Future<K, Output = Result<X, Canceled>> + Drop,
{
    type Output = Result<Vec<X>, TaskError>;

    fn poll(&mut self, waker: &K) -> Poll<Result<Vec<X>, TaskError>>
        ensures { HasJoined self.old.outputs.items self.old.waiting.items self.new.outputs.items self.new.waiting.items result }
    {
        for _ in 0..self.waiting.len() {
            if self.outputs.reserve(1).is_err() {
                return Poll::Ready(Err(TaskError::NoMemory));
            }
            match self.step(waker) {
                Poll::Pending => return Poll::Pending,
                Poll::Ready(Err(Canceled)) => return Poll::Ready(Err(TaskError::TaskClosed)),
                Poll::Ready(Ok(output)) => self.outputs.push_reserved(output),
            }
        }
        let outputs = mem::replace(&mut self.outputs, Vec::new(self.alloc));
        Poll::Ready(Ok(outputs))
    }
}
