/// Who may drop the executor.
#[derive(Clone, Copy, Debug, PartialEq, Eq)]
pub enum Kind {
    /// Its owner, by a call.
    Owned,
    /// Nobody. Its table has no wakers, so a detached future that nobody can wake any more is dropped.
    Static,
}
