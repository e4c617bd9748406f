//! What a script declares of its runners, tasks and jobs, by their numbers.
ghost use Rattle.std.specs.Prelude.{◌≡◌, slice_get};
ghost use Rattle.list_laws.specs.Lists.{holds_of};
ghost use Rattle.task_base.specs.Groups.{is_best_effort};
ghost use Rattle.task_base.specs.Runners.{is_parallel, seat_of, sequence_of};
ghost use Rattle.task_model.specs.Capacity.{declared_priority, priority_of_job};
ghost use Rattle.task_model.specs.Jobs.{cap_of, items_of};
ghost use Rattle.task_model.specs.Refusal.{behaviour_of_job, effective_at};

use task_base::{Behaviour, JobId, Priority, RunnerId, RunnerKind, Script, SeatNo, TaskId};
use task_traits::effective;

/// The priority that the script declares for a runner.
pub fn declared_priority(script: &Script, runner: RunnerId) -> Priority
    ensures { result ≡ declared_priority script.now runner }
{
    match script.runners.at(runner as usize) {
        None => Priority::BestEffort,
        Some(runner) => runner.traits.priority,
    }
}

/// Whether a runner makes a sequence of each task.
fn is_parallel(script: &Script, runner: RunnerId) -> bool
    ensures { result ≡ holds_of (λ r. is_parallel r.kind) (slice_get script.now.runners runner) }
{
    match script.runners.at(runner as usize) {
        None => false,
        Some(runner) => matches!(runner.kind, RunnerKind::Parallel),
    }
}

/// The sequence of a task on a runner.
pub fn sequence_of(script: &Script, runner: RunnerId, task: TaskId) -> usize
    ensures { result ≡ sequence_of script.now runner task }
{
    if is_parallel(script, runner) {
        script.runners.len() + task as usize
    } else {
        runner as usize
    }
}

/// The only seat that takes tasks of a runner, if there is one.
pub fn seat_of(script: &Script, runner: RunnerId) -> Option<SeatNo>
    ensures { result ≡ seat_of script.now runner }
{
    match script.runners.at(runner as usize) {
        None => None,
        Some(runner) => match runner.kind {
            RunnerKind::Single(seat) => Some(seat),
            RunnerKind::Parallel | RunnerKind::Sequenced => None,
        },
    }
}

/// The behaviour in effect of a task that is posted to a runner with a delay in microseconds.
pub fn effective_at(script: &Script, runner: RunnerId, delay: u64) -> Behaviour
    ensures { result ≡ effective_at script.now runner delay }
{
    match script.runners.at(runner as usize) {
        None => effective(Behaviour::ContinueOnShutdown, delay > 0),
        Some(runner) => effective(runner.traits.behaviour, delay > 0),
    }
}

/// The priority of a job.
pub fn priority_of_job(script: &Script, job: JobId) -> Priority
    ensures { result ≡ priority_of_job script.now job }
{
    match script.jobs.at(job as usize) {
        None => Priority::BestEffort,
        Some(job) => job.priority,
    }
}

/// What shutdown does with a job.
pub fn behaviour_of_job(script: &Script, job: JobId) -> Behaviour
    ensures { result ≡ behaviour_of_job script.now job }
{
    match script.jobs.at(job as usize) {
        None => Behaviour::ContinueOnShutdown,
        Some(job) => job.behaviour,
    }
}

/// How many items a job has.
pub fn items_of(script: &Script, job: JobId) -> u32
    ensures { result ≡ items_of script.now job }
{
    match script.jobs.at(job as usize) {
        None => 0,
        Some(job) => job.items,
    }
}

/// How many workers may be inside a job by its own word.
pub fn cap_of(script: &Script, job: JobId) -> u32
    ensures { result ≡ cap_of script.now job }
{
    match script.jobs.at(job as usize) {
        None => 0,
        Some(job) => job.cap,
    }
}

/// Whether work of a priority is best-effort work.
pub fn is_best_effort(priority: Priority) -> bool
    ensures { result ≡ is_best_effort priority }
{
    match priority {
        Priority::BestEffort => true,
        Priority::UserVisible | Priority::UserBlocking => false,
    }
}
