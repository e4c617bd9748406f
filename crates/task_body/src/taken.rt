use crate::pass::JobPass;

/// What a worker that asks for work gets (this project's own rule). `W` is what it is given of a task.
pub enum Taken<W> {
    /// A task to run.
    Task(W),
    /// An item of a job to work on.
    Item(JobPass),
    /// There is nothing that this worker may take now.
    Nothing,
    /// There will be nothing any more.
    Over,
}
