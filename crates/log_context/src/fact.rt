use task_base::{Behaviour, Entry, Place, Priority, RunnerId, SeatNo, TaskId};

/// What an entry of a log is to the one that may not come.
#[derive(Clone, Copy, Debug)]
pub enum Role {
    /// It is that entry.
    Itself,
    /// It took the task that the entry takes.
    Taken,
    /// It posted the task or the job that the entry takes, or that it waits for.
    Posted,
    /// It took another task of the sequence, which still runs.
    Runs,
    /// It posted the task that is due, by the sequence of the entry's task or by the main queues.
    Due,
    /// It left the value that is in the cell of the sequence or of the main queue.
    Left,
    /// Its seat, which is the entry's, is at work since.
    Busy,
    /// It took the entry's task, on another seat.
    Elsewhere,
    /// It ended the entry's task.
    Ended,
    /// It set the policy that holds back what the entry takes.
    Policy,
    /// It started shutdown, which forbids what the entry takes, or decides on what it posts.
    Shutdown,
    /// It read the clock last, before the delay of the entry's task was over.
    Moment,
    /// It cancelled the job.
    Cancelled,
    /// It set the fence of the entry's main queue.
    Fence,
    /// It switched a voter of the entry's main queue off.
    Off,
    /// It closed the entry's main queue.
    Closed,
    /// Before it the entry would have been allowed.
    Before,
    /// After it the entry would have been allowed, had it not come at its place.
    After,
    /// Its seat is at work since, which leaves no room for the entry, or for which the driver waits.
    Works,
    /// It posted a task that waits to be taken, for which the driver waits.
    Waiting,
    /// It posted a task that blocks the end of shutdown, for which the driver waits.
    Blocks,
}

/// Which limit leaves room for work, or none.
#[derive(Clone, Copy, Debug)]
pub enum Limit {
    /// That of all work of the foreground.
    Foreground,
    /// That of best-effort work of the foreground.
    BestEffort,
    /// That of the background.
    Background,
}

/// What the log or the script has to do with an entry that may not come.
#[derive(Clone, Copy, Debug)]
pub enum Fact {
    /// This entry stands at this place, and is that to it.
    Stands {
        role: Role,
        place: Place,
        entry: Entry,
    },
    /// No entry before it posts the task that it takes.
    Unposted {
        task: TaskId,
    },
    /// The runner is a single-thread one, of this seat.
    Single {
        runner: RunnerId,
        seat: SeatNo,
    },
    /// The runner of the entry's task has this priority, and the runner of the best one that one.
    Priorities {
        runner: RunnerId,
        priority: Priority,
        best: RunnerId,
        higher: Priority,
    },
    /// How much work may run at once: of the foreground, best-effort work there, and of the background.
    Limits {
        foreground: u32,
        best_effort: u32,
        background: u32,
    },
    /// How many workers run work of this limit, and how many may: as many as the script says, and one more for each that runs such
    /// work and is blocked.
    Room {
        limit: Limit,
        running: u64,
        most: u64,
    },
    /// Shutdown does this with tasks of the runner.
    Behaves {
        runner: RunnerId,
        behaviour: Behaviour,
    },
    /// In its place this entry may come, by which a seat takes what waits. No past tells it: it is asked of a replay.
    MayTake {
        place: Place,
        entry: Entry,
    },
}
