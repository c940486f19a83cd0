use crate::names::Waker;

/// What a call does with a waker, a move of its task apart.
pub enum WakerStep<F> {
    /// A copy of a waker of this future is asked for, and kept.
    CopyWaker(F),
    /// The awaiter that was taken out of this future's task is called.
    CallAwaiter(F, Waker<F>),
}

/// Parts of a poll of this future's handle, and of a notify of its awaiter.
pub enum HandleStep<F> {
    /// The first look, with this waker.
    Look(F, Waker<F>),
    /// The waker is copied, to be registered.
    CopyAwaiter(F, Waker<F>),
    /// The copy begins to be registered.
    Register(F, Waker<F>),
    EndRegister(F, Waker<F>),
    /// The poll looks again, after it has registered its waker.
    LookAgain(F),
    /// The task's awaiter is notified, by a poll of the handle where the mark is set.
    Notify(F, bool),
    EndNotify(F, bool),
    /// The cell of the task is emptied, and its awaiter is let go, where it has one.
    LetGo(F),
}
