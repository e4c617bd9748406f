ghost use Rattle.std.specs.Prelude.{◌≡◌, ◌==◌, if◌then◌else◌};
ghost use Rattle.live_core.specs.Calls.{call_of, seat_of};

use task_base::{FenceAt, JobId, Kind, Policy, Priority, QueueId, RunnerId, Scope, SeatNo, TaskId};

/// One call of a live environment: what a seat asks for (the notions are Chromium's of `base/task`, the calls this project's
/// own). Seat 0 is the driver, the seats from 1 on are workers, and the last one is the guest, under which all is posted that
/// comes from threads of no seat. Moments and delays are in microseconds.
#[derive(Clone, Copy, Debug)]
pub enum Call {
    /// The driver, the guest, or a seat that runs a task posts a task to a runner: the one that is named, or else a new one,
    /// which the entry names. A task that steps of the plan post is posted by name, while its seat runs a task with such a step.
    Post {
        seat: SeatNo,
        task: Option<TaskId>,
        runner: RunnerId,
        delay: u64,
    },
    /// The same to a main queue.
    Main {
        seat: SeatNo,
        task: Option<TaskId>,
        queue: QueueId,
        delay: u64,
    },
    /// The driver has read the clock, also amid a task or an item. A reading before the last moment counts as that one.
    Tick {
        reading: u64,
    },
    /// A worker that does nothing asks for work: a task, or an item of a job.
    Take {
        seat: SeatNo,
    },
    /// A worker has ended its task.
    End {
        seat: SeatNo,
    },
    /// A worker's task opens a blocking scope.
    Enter {
        seat: SeatNo,
        scope: Scope,
    },
    /// A worker's task closes its blocking scope.
    Leave {
        seat: SeatNo,
    },
    /// The driver puts another policy in force.
    Policy {
        policy: Policy,
    },
    /// The driver gives a runner another priority.
    Reprio {
        runner: RunnerId,
        priority: Priority,
    },
    /// The driver sets a fence on a main queue.
    Fence {
        queue: QueueId,
        at: FenceAt,
    },
    /// The driver removes the fence of a main queue.
    Unfence {
        queue: QueueId,
    },
    /// The driver votes on a main queue.
    Vote {
        queue: QueueId,
        voter: u8,
        on: bool,
    },
    /// The driver puts a main queue in another class, from 0 to 7.
    Rank {
        queue: QueueId,
        class: u8,
    },
    /// The driver closes a main queue.
    Close {
        queue: QueueId,
    },
    /// The driver asks for a main task.
    MainTake,
    /// The driver has ended its main task.
    MainEnd,
    /// The driver posts a job.
    JobPost {
        job: JobId,
    },
    /// The driver, which joins a job, asks for an item of it.
    JobTake {
        job: JobId,
    },
    /// A seat has ended its item of a job.
    JobStep {
        seat: SeatNo,
    },
    /// The driver cancels a job.
    JobCancel {
        job: JobId,
    },
    /// The driver asks whether nobody is inside a job any more that it has cancelled.
    Cancelled {
        job: JobId,
    },
    /// The driver asks for the reply of a job.
    Joined {
        job: JobId,
    },
    /// The driver asks whether the pool has nothing to do.
    Idle,
    /// The driver starts shutdown.
    Shutdown,
    /// The driver asks whether nothing blocks shutdown any more, and ends it.
    Done,
}

impl Call {
    /// The seat that makes the call.
    pub fn seat(&self) -> SeatNo
        ensures { result ≡ seat_of self.now }
    {
        match *self {
            Call::Post { seat, .. }
            | Call::Main { seat, .. }
            | Call::Take { seat }
            | Call::End { seat }
            | Call::Enter { seat, .. }
            | Call::Leave { seat }
            | Call::JobStep { seat } => seat,
            _ => 0,
        }
    }

    /// The call that an entry of this seat and kind is of. Where the entry may come, the call makes it (`calls_are_exact`).
    pub fn of_entry(seat: SeatNo, kind: Kind) -> Call
        ensures { result ≡ call_of seat kind }
    {
        match kind {
            Kind::Post {
                task,
                runner,
                delay,
                ..
            } => Call::Post {
                seat,
                task: Some(task),
                runner,
                delay,
            },
            Kind::Main {
                task,
                queue,
                delay,
                ..
            } => Call::Main {
                seat,
                task: Some(task),
                queue,
                delay,
            },
            Kind::Tick { now } => Call::Tick { reading: now },
            Kind::Take { .. } => Call::Take { seat },
            Kind::End { .. } => Call::End { seat },
            Kind::Enter { scope, .. } => Call::Enter { seat, scope },
            Kind::Leave { .. } => Call::Leave { seat },
            Kind::Policy { policy } => Call::Policy { policy },
            Kind::Reprio { runner, priority } => Call::Reprio { runner, priority },
            Kind::Fence { queue, at } => Call::Fence { queue, at },
            Kind::Unfence { queue } => Call::Unfence { queue },
            Kind::Vote { queue, voter, on } => Call::Vote { queue, voter, on },
            Kind::Rank { queue, class } => Call::Rank { queue, class },
            Kind::Close { queue } => Call::Close { queue },
            Kind::MainTake { .. } | Kind::MainNone => Call::MainTake,
            Kind::MainEnd { .. } => Call::MainEnd,
            Kind::JobPost { job, .. } => Call::JobPost { job },
            Kind::JobTake { job, .. } => job_take_of(seat, job),
            Kind::JobStep { .. } => Call::JobStep { seat },
            Kind::JobCancel { job } => Call::JobCancel { job },
            Kind::Cancelled { job } => Call::Cancelled { job },
            Kind::Joined { job, .. } => Call::Joined { job },
            Kind::Idle => Call::Idle,
            Kind::Shutdown => Call::Shutdown,
            Kind::Done => Call::Done,
        }
    }
}

// The call by which a seat goes into a job.
fn job_take_of(seat: SeatNo, job: JobId) -> Call
    ensures { result ≡ if seat == 0 then Call.JobTake job else Call.Take seat }
{
    if seat == 0 {
        Call::JobTake { job }
    } else {
        Call::Take { seat }
    }
}
