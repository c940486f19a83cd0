//! What plays scripts whose tasks lie in a realm. `main` alone can name their types with a proof, so the rest is generic over them.

/// What plays scripts on executors, and what plays them on tasks that threads share.
#[derive(Drop)]
pub struct Players<E, T> {
    pub executors: E,
    pub tasks: T,
}
