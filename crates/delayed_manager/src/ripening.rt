use task_base::{Place, TaskId};

/// A delayed task that is not ripe yet. The lesser goes first: by the moment, and at one moment by the post.
#[derive(Clone, Copy, Debug, PartialEq, Eq, PartialOrd, Ord)]
pub struct Ripening {
    /// The moment from which on it is ripe, in microseconds.
    pub ripe: u64,
    /// The place of its post in the history.
    pub post: Place,
    /// The task.
    pub task: TaskId,
}
