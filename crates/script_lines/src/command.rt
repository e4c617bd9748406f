use task_base::{Action, Job, JobId, MainQueue, QueueId, Runner, RunnerId, Task, TaskId};

/// What one line of a script says (this project's own language).
#[derive(Debug, Drop)]
pub enum Command {
    /// Nothing: the line has no words, or is a comment.
    Nothing,
    /// There are this many worker seats.
    Workers {
        count: u32,
    },
    /// How many tasks run at once: of the foreground, of best effort in the foreground, and of the background.
    Groups {
        foreground: u32,
        foreground_best: u32,
        background: u32,
    },
    /// After how many microseconds a scope that may block counts.
    Threshold {
        microseconds: u64,
    },
    /// A runner is declared.
    Runner {
        number: RunnerId,
        runner: Runner,
    },
    /// A main queue is declared.
    Queue {
        number: QueueId,
        queue: MainQueue,
    },
    /// A task is declared.
    Task {
        number: TaskId,
        task: Task,
    },
    /// A job is declared.
    Job {
        number: JobId,
        job: Job,
    },
    /// The driver does this.
    Act {
        action: Action,
    },
}
