use crate::cause::{Bar, Busy, Edge};
use task_base::{JobId, Kind, TaskId};

/// Why an entry of a seat may not come in an open plan: by what the call that it is of gives there (`live_core`). `next` is an
/// entry of that seat that would be allowed there.
#[derive(Clone, Copy, Debug)]
pub enum OpenCause {
    /// The plan has no such seat.
    NoSeat,
    /// The driver alone makes such entries, and the seat is another.
    OnlyDriver,
    /// The call makes this entry, in place of it.
    Makes { next: Kind },
    /// The seat asks for work, and this entry takes its best source, which has this over the source that was taken.
    Best { next: Kind, edge: Edge },
    /// No source may be taken by the seat, or the driver may not go into the job: this is against the source that the entry takes.
    NoSource { bar: Bar },
    /// Shutdown is done: there is nothing to take any more.
    Over,
    /// The driver waits until the pool is idle: so many workers run a task or are inside a job, and some worker may take a
    /// source, or none.
    NotIdle { running: u32, ready: bool },
    /// The driver waits for a job that it has cancelled, or joins: so many seats are inside.
    Inside { job: JobId, seats: u32 },
    /// The driver waits until shutdown is done: so much work blocks it.
    Blocked { count: u32 },
    /// The seat may not make the call there, for this.
    Unfit { part: Part },
}

/// Why a seat may not make a call in an open plan: the first thing that the call asks for and that fails.
#[derive(Clone, Copy, Debug)]
pub enum Part {
    /// The call names what is not declared, or a number out of its range.
    Undeclared,
    /// The task was posted before.
    PostedBefore { task: TaskId },
    /// Steps of the plan post the task, and the seat runs no task that has such a step.
    OfStep { task: TaskId },
    /// The seat runs no task, and is neither the driver nor the guest: it may not post.
    NoPoster,
    /// The driver takes nothing of the pool.
    DriverTakes,
    /// The seat is the guest's, which takes nothing.
    GuestTakes,
    /// The seat runs this task.
    Runs { task: TaskId },
    /// The seat holds an item of this job.
    Holds { job: JobId },
    /// The seat runs no task.
    RunsNothing,
    /// The seat holds no item.
    HoldsNothing,
    /// The task that the seat runs is a main task.
    IsMain { task: TaskId },
    /// The task that the seat runs is one of the pool.
    IsPool { task: TaskId },
    /// A blocking scope of the task that the seat runs is open.
    ScopeOpen { task: TaskId },
    /// No blocking scope of the task that the seat runs is open.
    NoScope { task: TaskId },
    /// The task that the seat runs may not block.
    MayNotBlock { task: TaskId },
    /// Shutdown is done.
    IsDone,
    /// The job was posted before.
    JobPostedBefore { job: JobId },
    /// The job was not posted.
    JobUnposted { job: JobId },
    /// The job was not cancelled.
    NotCancelled { job: JobId },
    /// Shutdown was started before.
    StartedBefore,
    /// Shutdown was not started.
    NotStarted,
}

/// What is to be said of a log of an open plan.
#[derive(Debug, Drop)]
pub enum OpenTold {
    /// Each entry may come after those before it, and nobody is at work at the log's end.
    Legal,
    /// The entry at this place, the least such, may not come after those before it.
    Barred { place: u32, cause: OpenCause },
    /// Each entry may come, but at the log's end, which is this place, these seats run or hold something.
    AtWork { place: u32, busy: Vec<Busy> },
}
