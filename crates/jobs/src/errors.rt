/// Why a list of jobs has no answers. Where there are several causes, it is the first of these.
#[derive(Clone, Copy, Debug, PartialEq, Eq)]
pub enum JobsError {
    /// A worker's thread couldn't be started.
    NoThread,
    /// Memory was refused.
    NoMemory,
    /// The job of this number didn't come back; it is the least such number.
    Missing(u64),
}
