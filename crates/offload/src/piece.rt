//! Work with the place for its output.
ghost use Rattle.std.specs.Arc.{arc_value};
ghost use Rattle.std.specs.Prelude.{◌≡◌, IfErr, IfOk};

use crate::work::Work;
use async_task::Wake;
use std::alloc::Global;
use std::sync::Wait;
use waiting::oneshot::{self, Receiver, Sender};

/// Work that nobody has taken yet, and the sender of its output. Its drop wakes who awaits the output: none comes.
#[derive(Drop)]
pub struct Piece<J: Work + Drop, K: Wake + Drop, R: Wait + Copy + Drop> {
    job: J,
    sender: Sender<J::Output, K, R>,
}

/// Work that a thread has taken. It has no drop: it is done.
#[must_use]
pub struct Taken<J: Work + Drop, K: Wake + Drop, R: Wait + Copy + Drop> {
    piece: Piece<J, K, R>,
}

/// The output of work. It has no drop: it is sent to who awaits it.
#[must_use]
pub struct Done<T: Drop, K: Wake + Drop, R: Wait + Copy + Drop> {
    output: T,
    sender: Sender<T, K, R>,
}

/// A piece, and the receiver of its output.
pub type Made<J, T, K, R> = (Piece<J, K, R>, Receiver<T, K, R>);

impl<J: Work + Drop, K: Wake + Drop, R: Wait + Copy + Drop> Piece<J, K, R> {
    /// Makes a place for the output of this work. It takes memory; where there is none the work comes back.
    pub fn new(rt: R, alloc: Global, job: J) -> Result<Made<J, J::Output, K, R>, J>
        ensures job { IfOk result (λ made. made.0.job ≡ job) }
        ensures same { IfOk result (λ made. arc_value made.0.sender.slot ≡ arc_value made.1.slot) }
        ensures refused { IfErr result (λ back. back ≡ job) }
    {
        match oneshot::channel(rt, alloc) {
            Ok((sender, receiver)) => Ok((Piece { job, sender }, receiver)),
            Err(_) => Err(job),
        }
    }

    /// The work, which isn't done.
    pub fn into_job(self) -> J
        ensures { result ≡ self.job }
    {
        let Piece { job, sender } = self;
        drop(sender);
        job
    }

    /// A thread takes it.
    pub fn take(self) -> Taken<J, K, R>
        ensures { result.piece ≡ self }
    {
        Taken { piece: self }
    }
}

impl<J: Work + Drop, K: Wake + Drop, R: Wait + Copy + Drop> Taken<J, K, R> {
    /// Does the work.
    pub fn work(self) -> Done<J::Output, K, R>
        ensures { result.sender ≡ self.piece.sender }
    {
        let Taken { piece } = self;
        let Piece { job, sender } = piece;
        Done {
            output: job.work(),
            sender,
        }
    }
}

impl<T: Drop, K: Wake + Drop, R: Wait + Copy + Drop> Done<T, K, R> {
    /// Sends the output to who awaits it. Where nobody does, it is dropped.
    pub fn send(self) {
        let Done { output, sender } = self;
        let _ = sender.send(output);
    }
}
