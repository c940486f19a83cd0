ghost use Rattle.async_task.specs.declared.poll.Poll.TheVariants as poll;
ghost use Rattle.offload.specs.Running.{IsBack, IsHeard, IsReady};
ghost use Rattle.offload.specs.declared.errors.RunError.TheVariants as run;
ghost use Rattle.offload.specs.declared.run.Stage.TheVariants as stage;
ghost use Rattle.std.specs.Prelude.{◌≡◌, Err, IfSome, IsSome};

use crate::answer::Answer;
use crate::errors::RunError;
use crate::offload::Offload;
use crate::piece::Piece;
use crate::shared::{Entrance, Put, poll_put};
use crate::work::Work;
use async_task::{Future, Poll, Wake};
use std::mem;
use std::sync::Wait;
use waiting::oneshot::{Canceled, Receiver};

/// Hands work in, and waits for a place and then for the output: a future that is ready with the output, or with an error. Once it
/// was ready it is pending, and calls no waker.
///
/// Dropped before the work was accepted, it drops the work, and waits no more: a notification of a free place that came for it
/// goes on to the next waiter. Dropped after, it drops the output, and the work is done all the same.
#[derive(Drop)]
pub struct Run<J: Work + Drop, K: Wake + Drop, R: Wait + Copy + Drop> {
    stage: Stage<J, K, R>,
    // Set once it has answered that its work was dropped.
    canceled: Option<Answer<J::Output, K, R>>,
}

/// How far the future is.
#[derive(Drop)]
pub enum Stage<J: Work + Drop, K: Wake + Drop, R: Wait + Copy + Drop> {
    /// Its work isn't accepted yet.
    Waits(Waiting<J, K, R>),
    /// Its work was accepted.
    Runs(Answer<J::Output, K, R>),
    /// It was ready.
    Ended,
}

/// Work that isn't accepted yet, and the waiter for its place.
#[derive(Drop)]
pub struct Waiting<J: Work + Drop, K: Wake + Drop, R: Wait + Copy + Drop> {
    offload: Offload<J, K, R>,
    entrance: Entrance<J, K, R>,
    piece: Piece<J, K, R>,
    receiver: Receiver<J::Output, K, R>,
}

impl<J: Work + Drop, K: Wake + Drop, R: Wait + Copy + Drop> Run<J, K, R> {
    pub(crate) fn new(
        offload: Offload<J, K, R>,
        entrance: Entrance<J, K, R>,
        piece: Piece<J, K, R>,
        receiver: Receiver<J::Output, K, R>,
    ) -> Self
        ensures { result.stage ≡ stage.Waits (record { offload = offload; entrance = entrance; piece = piece; receiver = receiver }) }
    {
        Run {
            stage: Stage::Waits(Waiting {
                offload,
                entrance,
                piece,
                receiver,
            }),
            canceled: None,
        }
    }

    /// Puts the work in, or waits for a place.
    fn put(&mut self, waiting: Waiting<J, K, R>, waker: &K) -> Poll<Result<J::Output, RunError<J>>>
        requires { self.old.stage ≡ stage.Ended }
        ensures back { IsBack waiting.piece.job result }
        ensures over { result ≡ poll.Ready (Err run.Canceled) → IsSome self.new.canceled × IfSome self.new.canceled (λ a. IsSome a.receiver.over) }
        ensures ready { IsReady result → self.new.stage ≡ stage.Ended }
        ensures waits { result ≡ poll.Pending → ¬ (self.new.stage ≡ stage.Ended) }
    {
        let Waiting {
            offload,
            mut entrance,
            piece,
            receiver,
        } = waiting;
        match poll_put(&mut entrance, waker, piece) {
            Put::Came(came) => {
                let answer = Answer::new(receiver, offload.shared().notify(came));
                self.hear(answer, waker)
            }
            Put::Closed(piece) => Poll::Ready(Err(RunError::Closed(piece.into_job()))),
            Put::NoMemory(piece) => Poll::Ready(Err(RunError::NoMemory(piece.into_job()))),
            Put::Waits(piece) => {
                self.stage = Stage::Waits(Waiting {
                    offload,
                    entrance,
                    piece,
                    receiver,
                });
                Poll::Pending
            }
        }
    }

    /// Looks whether the output has come.
    fn hear(
        &mut self,
        answer: Answer<J::Output, K, R>,
        waker: &K,
    ) -> Poll<Result<J::Output, RunError<J>>>
        requires { self.old.stage ≡ stage.Ended }
        ensures heard { IsHeard result }
        ensures over { result ≡ poll.Ready (Err run.Canceled) → IsSome self.new.canceled × IfSome self.new.canceled (λ a. IsSome a.receiver.over) }
        ensures ready { IsReady result → self.new.stage ≡ stage.Ended }
        ensures waits { result ≡ poll.Pending → ¬ (self.new.stage ≡ stage.Ended) }
    {
        let mut answer = answer;
        match answer.poll(waker) {
            Poll::Ready(Ok(output)) => Poll::Ready(Ok(output)),
            Poll::Ready(Err(Canceled)) => {
                self.canceled = Some(answer);
                Poll::Ready(Err(RunError::Canceled))
            }
            Poll::Pending => {
                self.stage = Stage::Runs(answer);
                Poll::Pending
            }
        }
    }
}

impl<J: Work + Drop, K: Wake + Drop, R: Wait + Copy + Drop> Future<K> for Run<J, K, R> {
    type Output = Result<J::Output, RunError<J>>;

    fn poll(&mut self, waker: &K) -> Poll<Result<J::Output, RunError<J>>>
        ensures back { (w : _) → self.old.stage ≡ stage.Waits w → IsBack w.piece.job result }
        ensures heard { (a : _) → self.old.stage ≡ stage.Runs a → IsHeard result }
        ensures over { result ≡ poll.Ready (Err run.Canceled) → IsSome self.new.canceled × IfSome self.new.canceled (λ a. IsSome a.receiver.over) }
        ensures ready { IsReady result → self.new.stage ≡ stage.Ended }
        ensures waits { ¬ (self.old.stage ≡ stage.Ended) → result ≡ poll.Pending → ¬ (self.new.stage ≡ stage.Ended) }
        ensures again { self.old.stage ≡ stage.Ended → result ≡ poll.Pending }
    {
        match mem::replace(&mut self.stage, Stage::Ended) {
            Stage::Waits(waiting) => self.put(waiting, waker),
            Stage::Runs(answer) => self.hear(answer, waker),
            Stage::Ended => Poll::Pending,
        }
    }
}
