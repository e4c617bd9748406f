use task_base::{QueueId, RunnerId, TaskId};

/// Where a reply is posted to.
#[derive(Clone, Copy, Debug, PartialEq, Eq)]
pub enum Home {
    /// A runner of the pool.
    Runner(RunnerId),
    /// A main queue.
    Queue(QueueId),
}

/// What a line says: when `task` has done all its other steps, it posts `reply` to this home, without a delay
/// (Chromium's `PostTaskAndReply`).
#[derive(Clone, Copy, Debug, PartialEq, Eq)]
pub struct Reply {
    /// The task that posts the reply.
    pub task: TaskId,
    /// The task that is posted.
    pub reply: TaskId,
    /// Where it is posted to.
    pub home: Home,
}
