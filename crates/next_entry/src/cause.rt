use task_base::{JobId, Kind, SeatNo, TaskId};

/// Why an entry of a seat may not come, or what a seat has left to do where a log ends. `next` is an entry of that seat
/// that would be allowed there.
#[derive(Clone, Copy, Debug)]
pub enum Cause {
    /// The script has no such seat.
    NoSeat,
    /// The driver alone makes such entries, and the seat is a worker's.
    OnlyDriver,
    /// A task or a job makes such entries, and this worker runs no task and holds no item.
    RunsNothing,
    /// The seat runs this task, and goes on by this entry.
    Runs { task: TaskId, next: Kind },
    /// The seat holds an item of this job, and goes on by this entry.
    Holds { job: JobId, next: Kind },
    /// The driver is free, and this is the entry that the script wants of it.
    Wants { next: Kind },
    /// The worker is free, and this entry takes its best source, which has this over the source that was taken.
    Best { next: Kind, edge: Edge },
    /// The worker is free, and no source may be taken by it: this is against the one that the entry takes.
    NoSource { bar: Bar },
    /// The script is finished: it wants nothing of the driver, and a worker that is free takes nothing more.
    Finished,
    /// The driver waits until the pool is idle: so many workers run a task or are inside a job, and some worker may take a
    /// source, or none.
    NotIdle { running: u32, ready: bool },
    /// The driver waits for a job that it has cancelled, or joins, and may not go in itself: so many seats are inside.
    Inside { job: JobId, seats: u32 },
    /// The driver has started shutdown, and waits until it is done: so much work blocks it.
    Blocked { count: u32 },
}

/// What the best source of a worker has over the source that an entry takes, by the first of the rules that tells them apart.
#[derive(Clone, Copy, Debug)]
pub enum Edge {
    /// Nothing, they are one: the entry takes another task or item of it, under another number, or finds another value.
    Same,
    /// A higher priority.
    Priority,
    /// The same priority, and fewer seats are inside.
    Inside,
    /// The same priority, as many seats inside, and a lesser key.
    Key,
    /// Nothing: the other would go before it, and yet may not be taken.
    Barred,
    /// The other does not wait: its task has no key on that runner, or its job was not accepted.
    Unready,
}

/// Why a worker that may take nothing may not take the source that an entry takes: the first of these that holds.
#[derive(Clone, Copy, Debug)]
pub enum Bar {
    /// The task was not accepted on that runner, or the job was not accepted.
    Unaccepted,
    /// The task was taken before.
    Taken,
    /// The job is cancelled.
    Cancelled,
    /// The phase of shutdown forbids it.
    Forbidden,
    /// The task is delayed, and is not ripe yet.
    Unripe,
    /// A task of its sequence runs.
    Busy,
    /// All items of the job are claimed.
    Claimed,
    /// As many seats are inside the job as may be.
    Full,
    /// Its runner is a single-thread one of another seat.
    OtherSeat,
    /// The policy holds it back.
    Held,
    /// There is no room for its priority by the limits.
    Limit,
}

/// What a seat runs, or is inside of.
#[derive(Clone, Copy, Debug)]
pub enum Work {
    /// It runs this task.
    Task { task: TaskId },
    /// It holds an item of this job.
    Item { job: JobId },
}

/// A seat that runs or holds something.
#[derive(Clone, Copy, Debug)]
pub struct Busy {
    pub seat: SeatNo,
    pub work: Work,
}

/// What is to be said of a log of a script.
#[derive(Debug, Drop)]
pub enum Explanation {
    /// Each entry may come after those before it, and nothing is left to be done.
    Legal,
    /// The entry at this place, the least such, may not come after those before it.
    Barred {
        place: u32,
        cause: Cause,
    },
    /// Each entry may come, but at the log's end, which is this place, a seat has something left to do; where the script is
    /// finished, this one alone.
    Unfinished {
        place: u32,
        seat: SeatNo,
        cause: Cause,
    },
    /// Each entry may come, and the script is finished, but at the log's end, which is this place, several seats still run or
    /// hold something: these.
    AtWork {
        place: u32,
        busy: Vec<Busy>,
    },
}
