use task_base::{QueueId, RunnerId, Scope, TaskId};

/// What one call of a body's `step` did (this project's own rule).
#[derive(Clone, Copy, Debug, PartialEq, Eq)]
pub enum Act {
    /// So many compute steps were done, at least one.
    Did(u32),
    /// A task is to be posted to a runner, with a delay in microseconds.
    Post {
        task: TaskId,
        runner: RunnerId,
        delay: u64,
    },
    /// A task is to be posted to a main queue, with a delay in microseconds.
    Main {
        task: TaskId,
        queue: QueueId,
        delay: u64,
    },
    /// A blocking scope opens.
    Enter(Scope),
    /// The blocking scope closes.
    Leave,
    /// No step was left.
    Finished,
}
