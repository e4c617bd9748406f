use task_base::JobId;

/// What a seat waits for that may enter nothing.
#[derive(Clone, Copy, Debug)]
pub enum Wait {
    /// For nothing any more: the script is finished, which wants nothing of the driver, and a worker that is free takes nothing.
    Over,
    /// The worker is free, and may take no source.
    NoSource,
    /// The driver flushes, and the pool isn't idle: so many workers run a task or are inside a job, and some worker may take a
    /// source, or none.
    NotIdle { running: u32, ready: bool },
    /// The driver waits for a job that it has cancelled, or joins, and may not go in itself: so many seats are inside.
    Inside { job: JobId, seats: u32 },
    /// The driver has started shutdown: so much work blocks its end.
    Blocked { count: u32 },
}
