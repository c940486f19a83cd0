/// What a schedule function is told of the Runnable that it is given.
#[derive(Clone, Copy, Debug, PartialEq, Eq)]
pub struct ScheduleInfo {
    /// Whether the task was woken while its future was being polled.
    pub woken_while_running: bool,
}
