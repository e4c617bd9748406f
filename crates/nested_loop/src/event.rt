use task_base::{QueueId, TaskId};

/// What happened at one place of the log of a nest (this project's own rule). A depth counts the loops that are open: 1
/// is the outermost one.
#[derive(Clone, Copy, Debug, PartialEq, Eq)]
pub enum Event {
    /// A task was posted to a main queue.
    Post { task: TaskId, queue: QueueId },
    /// A loop opened, at this depth.
    Loop { depth: u32 },
    /// The loop at this depth quit.
    Quit { depth: u32 },
    /// A task started, in the loop at this depth.
    Start { task: TaskId, depth: u32 },
    /// A task ended: its steps are done.
    End { task: TaskId },
    /// A nested loop met a task that is not nestable, and left it to the outermost loop.
    Defer { task: TaskId },
    /// The task that runs said a value.
    Say { value: u64 },
}
