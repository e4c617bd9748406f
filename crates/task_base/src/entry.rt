use crate::policy::Policy;
use crate::script::{FenceAt, JobId, QueueId, RunnerId, SeatNo, TaskId};
use crate::step::Scope;
use task_traits::Priority;

/// How a job that is joined has ended (Chromium's `post_job.h` has the notion of a join; the replies are this
/// project's own).
#[derive(Clone, Copy, Debug, PartialEq, Eq)]
pub enum JobReply {
    /// Its post was refused.
    Refused,
    /// All its items are done; `sum` is that of their values, modulo 2^64. A log writes `done`.
    Finished { sum: u64 },
    /// It was cancelled.
    Cancelled,
    /// Shutdown forbids it to go on.
    Stopped,
}

/// What happened at one place of the history (this project's own rule).
#[derive(Clone, Copy, Debug, PartialEq, Eq)]
pub enum Kind {
    /// A task was posted to a runner, with a delay in microseconds; `ok` says whether it was accepted.
    Post {
        task: TaskId,
        runner: RunnerId,
        delay: u64,
        ok: bool,
    },
    /// A task was posted to a main queue, with a delay in microseconds; `ok` says whether it was accepted.
    Main {
        task: TaskId,
        queue: QueueId,
        delay: u64,
        ok: bool,
    },
    /// The clock was read: from here on this is the moment, in microseconds.
    Tick {
        now: u64,
    },
    /// A worker took a task, and found this value in the cell of the task's sequence.
    Take {
        task: TaskId,
        runner: RunnerId,
        found: u64,
    },
    /// A worker ended the task that it ran, and left this value.
    End {
        task: TaskId,
        left: u64,
    },
    /// The task that the seat runs opened a blocking scope.
    Enter {
        task: TaskId,
        scope: Scope,
    },
    /// The task that the seat runs closed its blocking scope.
    Leave {
        task: TaskId,
    },
    /// Another policy is in force.
    Policy {
        policy: Policy,
    },
    /// A runner was given another priority.
    Reprio {
        runner: RunnerId,
        priority: Priority,
    },
    /// A fence was set on a main queue, in place of an older one.
    Fence {
        queue: QueueId,
        at: FenceAt,
    },
    /// The fence of a main queue was removed.
    Unfence {
        queue: QueueId,
    },
    /// A voter of a main queue voted.
    Vote {
        queue: QueueId,
        voter: u8,
        on: bool,
    },
    /// A main queue was given another priority class.
    Rank {
        queue: QueueId,
        class: u8,
    },
    /// A main queue was closed: its tasks that have not started are dropped.
    Close {
        queue: QueueId,
    },
    /// The driver took a task of a main queue, and found this value in the queue's cell.
    MainTake {
        task: TaskId,
        queue: QueueId,
        found: u64,
    },
    /// The driver ended the main task that it ran, and left this value.
    MainEnd {
        task: TaskId,
        left: u64,
    },
    /// The driver found no main task to take.
    MainNone,
    /// A job was posted; `ok` says whether it was accepted.
    JobPost {
        job: JobId,
        ok: bool,
    },
    /// A seat entered a job under a number of its own, and claimed an item.
    JobTake {
        job: JobId,
        id: u32,
        item: u32,
    },
    /// A seat ended the item that it held, with its value. It claimed the next one, or left the job.
    JobStep {
        job: JobId,
        id: u32,
        item: u32,
        value: u64,
        next: Option<u32>,
    },
    /// A job was told to stop.
    JobCancel {
        job: JobId,
    },
    /// Nobody is inside the cancelled job any more.
    Cancelled {
        job: JobId,
    },
    /// A job was joined, with this reply.
    Joined {
        job: JobId,
        reply: JobReply,
    },
    /// Nothing of the pool ran, and nothing could be taken.
    Idle,
    /// Shutdown started: from here on only block work is let in and may start.
    Shutdown,
    /// Shutdown is done: nothing that it waits for was left, and nothing is let in any more.
    Done,
}

/// One entry of the history: one event, by one seat.
#[derive(Clone, Copy, Debug, PartialEq, Eq)]
pub struct Entry {
    /// Who did it.
    pub seat: SeatNo,
    /// What was done.
    pub kind: Kind,
}
