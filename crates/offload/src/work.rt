/// What a thread does. It may block.
pub trait Work {
    /// Its output.
    type Output: Drop;

    /// Does it.
    fn work(self) -> Self::Output;
}
