use task_base::{Cell, JobId, RunnerId, TaskId};

/// What a worker's take gives.
#[derive(Debug, Drop)]
pub enum PoolTake {
    /// The head of the best source that the seat may take, with the cell of its sequence, which is out from now on.
    Task {
        task: TaskId,
        runner: RunnerId,
        cell: Cell,
    },
    /// The best source is a job, and the seat is inside it from now on: the number that it has there, and the item that
    /// it holds.
    Item {
        job: JobId,
        id: u32,
        item: u32,
    },
    /// The seat may take nothing now.
    Nothing,
}
