/// What a part of a call is to do, which stands for itself: whatever led to it, no call waits for its answer.
#[derive(Drop)]
pub enum Part<F> {
    /// A Runnable of this future is handed to the executor's queue.
    Append(F),
}
