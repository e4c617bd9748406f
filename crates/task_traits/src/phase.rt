/// How far the shutdown of the pool has come. It only moves forward (this project's own rule).
#[derive(Clone, Copy, Debug, PartialEq, Eq)]
pub enum Phase {
    /// Shutdown has not been asked for.
    Running,
    /// Shutdown was asked for, and waits for what blocks it.
    Started,
    /// Shutdown is over: nothing is accepted and nothing starts any more.
    Done,
}
