ghost use Rattle.std.specs.Prelude.{◌≡◌};
ghost use Rattle.task_model.specs.Jobs.{cancels};
ghost use Rattle.task_model.specs.Posts.{ends, main_takes, takes};
ghost use Rattle.task_model.specs.Refusal.{closes};
ghost use Rattle.pool_laws.specs.Posts.{main_ends};
ghost use Rattle.log_context.specs.Marks.{does_work, is_marked, is_plain, posts, posts_job, posts_main, sets_fence, takes_of, takes_of_queue, votes, votes_off};

use task_base::{Entry, JobId, Kind, QueueId, RunnerId, SeatNo, TaskId};

/// What is looked for among the entries.
#[derive(Clone, Copy, Debug)]
pub enum Mark {
    /// The post of a task to a runner.
    Post { task: TaskId },
    /// The post of a task to a main queue.
    Main { task: TaskId },
    /// The post of a job.
    JobPost { job: JobId },
    /// The take of a task of the pool.
    Take { task: TaskId },
    /// The take of some task of a runner.
    TakeOf { runner: RunnerId },
    /// The take of a main task.
    MainTake { task: TaskId },
    /// The take of some task of a main queue.
    MainTakeOf { queue: QueueId },
    /// The end of a task of the pool.
    End { task: TaskId },
    /// The end of a main task.
    MainEnd { task: TaskId },
    /// A seat starts or ends a task, or enters or leaves a job.
    Work { seat: SeatNo },
    /// A job is told to stop.
    JobCancel { job: JobId },
    /// A main queue's fence is set, or removed.
    Fence { queue: QueueId },
    /// A voter of a main queue votes.
    Vote { queue: QueueId, voter: u8 },
    /// Some voter of a main queue is switched off.
    Off { queue: QueueId },
    /// A main queue is closed.
    Close { queue: QueueId },
    /// An event that has no number.
    Plain(Plain),
}

/// An event that names neither a task, a job, a seat nor a queue.
#[derive(Clone, Copy, Debug)]
pub enum Plain {
    /// Another policy is in force.
    Policy,
    /// Shutdown starts.
    Shutdown,
    /// The clock is read.
    Tick,
}

/// Whether an entry is what is looked for.
pub fn is_marked(mark: Mark, entry: &Entry) -> bool
    ensures { result ≡ is_marked mark entry.now }
{
    let kind = &entry.kind;
    match mark {
        Mark::Post { task } => posts(task, kind),
        Mark::Main { task } => posts_main(task, kind),
        Mark::JobPost { job } => posts_job(job, kind),
        Mark::Take { task } => takes(task, kind),
        Mark::TakeOf { runner } => takes_of(runner, kind),
        Mark::MainTake { task } => main_takes(task, kind),
        Mark::MainTakeOf { queue } => takes_of_queue(queue, kind),
        Mark::End { task } => ends(task, kind),
        Mark::MainEnd { task } => main_ends(task, kind),
        Mark::Work { seat } => entry.seat == seat && does_work(kind),
        Mark::JobCancel { job } => cancels(job, kind),
        Mark::Fence { queue } => sets_fence(queue, kind),
        Mark::Vote { queue, voter } => votes(queue, voter, kind),
        Mark::Off { queue } => votes_off(queue, kind),
        Mark::Close { queue } => closes(queue, kind),
        Mark::Plain(plain) => is_plain(plain, kind),
    }
}

/// Whether the entry posts the task to a runner.
fn posts(task: TaskId, kind: &Kind) -> bool
    ensures { result ≡ posts task kind.now }
{
    match *kind {
        Kind::Post { task: t, .. } => t == task,
        _ => false,
    }
}

/// Whether the entry posts the task to a main queue.
fn posts_main(task: TaskId, kind: &Kind) -> bool
    ensures { result ≡ posts_main task kind.now }
{
    match *kind {
        Kind::Main { task: t, .. } => t == task,
        _ => false,
    }
}

/// Whether the entry posts the job.
fn posts_job(job: JobId, kind: &Kind) -> bool
    ensures { result ≡ posts_job job kind.now }
{
    match *kind {
        Kind::JobPost { job: j, .. } => j == job,
        _ => false,
    }
}

/// Whether the entry takes the task of the pool.
fn takes(task: TaskId, kind: &Kind) -> bool
    ensures { result ≡ takes task kind.now }
{
    match *kind {
        Kind::Take { task: t, .. } => t == task,
        _ => false,
    }
}

/// Whether the entry takes a task of the runner.
fn takes_of(runner: RunnerId, kind: &Kind) -> bool
    ensures { result ≡ takes_of runner kind.now }
{
    match *kind {
        Kind::Take { runner: r, .. } => r == runner,
        _ => false,
    }
}

/// Whether the entry takes the main task.
fn main_takes(task: TaskId, kind: &Kind) -> bool
    ensures { result ≡ main_takes task kind.now }
{
    match *kind {
        Kind::MainTake { task: t, .. } => t == task,
        _ => false,
    }
}

/// Whether the entry takes a task of the main queue.
fn takes_of_queue(queue: QueueId, kind: &Kind) -> bool
    ensures { result ≡ takes_of_queue queue kind.now }
{
    match *kind {
        Kind::MainTake { queue: q, .. } => q == queue,
        _ => false,
    }
}

/// Whether the entry ends the task of the pool.
fn ends(task: TaskId, kind: &Kind) -> bool
    ensures { result ≡ ends task kind.now }
{
    match *kind {
        Kind::End { task: t, .. } => t == task,
        _ => false,
    }
}

/// Whether the entry ends the main task.
fn main_ends(task: TaskId, kind: &Kind) -> bool
    ensures { result ≡ main_ends task kind.now }
{
    match *kind {
        Kind::MainEnd { task: t, .. } => t == task,
        _ => false,
    }
}

/// Whether the entry starts or ends a task, or enters or leaves a job.
fn does_work(kind: &Kind) -> bool
    ensures { result ≡ does_work kind.now }
{
    match *kind {
        Kind::Take { .. } | Kind::MainTake { .. } | Kind::JobTake { .. } => true,
        Kind::End { .. } | Kind::MainEnd { .. } => true,
        Kind::JobStep { next, .. } => next.is_none(),
        _ => false,
    }
}

/// Whether the entry cancels the job.
fn cancels(job: JobId, kind: &Kind) -> bool
    ensures { result ≡ cancels job kind.now }
{
    match *kind {
        Kind::JobCancel { job: j } => j == job,
        _ => false,
    }
}

/// Whether the entry sets the fence of the main queue, or removes it.
fn sets_fence(queue: QueueId, kind: &Kind) -> bool
    ensures { result ≡ sets_fence queue kind.now }
{
    match *kind {
        Kind::Fence { queue: q, .. } => q == queue,
        Kind::Unfence { queue: q } => q == queue,
        _ => false,
    }
}

/// Whether the entry is a vote of this voter of the main queue.
fn votes(queue: QueueId, voter: u8, kind: &Kind) -> bool
    ensures { result ≡ votes queue voter kind.now }
{
    match *kind {
        Kind::Vote {
            queue: q,
            voter: v,
            ..
        } => q == queue && v == voter,
        _ => false,
    }
}

/// Whether the entry switches a voter of the main queue off.
fn votes_off(queue: QueueId, kind: &Kind) -> bool
    ensures { result ≡ votes_off queue kind.now }
{
    match *kind {
        Kind::Vote { queue: q, on, .. } => q == queue && !on,
        _ => false,
    }
}

/// Whether the entry closes the main queue.
fn closes(queue: QueueId, kind: &Kind) -> bool
    ensures { result ≡ closes queue kind.now }
{
    match *kind {
        Kind::Close { queue: q } => q == queue,
        _ => false,
    }
}

/// Whether the entry is this event.
fn is_plain(plain: Plain, kind: &Kind) -> bool
    ensures { result ≡ is_plain plain kind.now }
{
    match plain {
        Plain::Policy => matches!(*kind, Kind::Policy { .. }),
        Plain::Shutdown => matches!(*kind, Kind::Shutdown),
        Plain::Tick => matches!(*kind, Kind::Tick { .. }),
    }
}
