use task_base::TaskId;

/// A task that lies in a lane.
#[derive(Clone, Copy, Debug, PartialEq, Eq)]
pub struct Queued {
    /// The task.
    pub task: TaskId,
    /// Its order of arrival (Chromium's `sequence_manager/enqueue_order.h`): of two tasks the lesser goes first.
    pub order: u64,
}
