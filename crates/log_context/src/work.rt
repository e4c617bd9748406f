ghost use Rattle.std.specs.Prelude.{◌≡◌};
ghost use Rattle.task_model.specs.Capacity.{work_at};
ghost use Rattle.log_context.specs.Work.{IsWorkOf, work_after};

use past_lookup::{job_priority, priority_of};
use task_base::{Entry, JobId, Kind, Priority, Script, SeatNo, TaskId};

/// The work of a seat.
#[derive(Clone, Copy, Debug)]
pub struct Work {
    /// The task that it runs.
    pub task: Option<TaskId>,
    /// The priority that it was taken with, if it is one of the pool.
    pub taken: Option<Priority>,
    /// The job of which it holds an item.
    pub job: Option<JobId>,
}

/// The work of a seat after the past.
pub fn work_of(script: &Script, past: &[Entry], seat: SeatNo) -> Work
    ensures { IsWorkOf script.now past.now seat result }
{
    let mut work = Work {
        task: None,
        taken: None,
        job: None,
    };
    for i in 0..past.len() {
        work = work_after(script, &past[..i], seat, work, &past[i]);
    }
    work
}

/// The work of a seat after an entry.
fn work_after(script: &Script, before: &[Entry], seat: SeatNo, now: Work, entry: &Entry) -> Work
    ensures { result ≡ work_after script.now before.now seat now entry.now }
{
    if entry.seat != seat {
        return now;
    }
    let Work { task, taken, job } = now;
    match entry.kind {
        Kind::Take { task, runner, .. } => Work {
            task: Some(task),
            taken: Some(priority_of(script, before, runner)),
            job,
        },
        Kind::MainTake { task, .. } => Work {
            task: Some(task),
            taken: None,
            job,
        },
        Kind::End { .. } | Kind::MainEnd { .. } => Work {
            task: None,
            taken: None,
            job,
        },
        Kind::JobTake { job, .. } => Work {
            task,
            taken,
            job: Some(job),
        },
        Kind::JobStep { job, next, .. } => Work {
            task,
            taken,
            job: if next.is_some() { Some(job) } else { None },
        },
        _ => now,
    }
}

/// The priority of the pool's work that a seat does.
pub fn work_at(script: &Script, past: &[Entry], seat: SeatNo) -> Option<Priority>
    ensures { result ≡ work_at script.now past.now seat }
{
    let work = work_of(script, past, seat);
    if work.task.is_some() {
        work.taken
    } else {
        Some(job_priority(script, work.job?))
    }
}
