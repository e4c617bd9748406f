//! What an entry's kind says, by itself.
ghost use Rattle.std.specs.Prelude.{◌≡◌};
ghost use Rattle.task_model.specs.Capacity.{priority_after};
ghost use Rattle.task_model.specs.Jobs.{cancels, claims};
ghost use Rattle.task_model.specs.Phase.{phase_after};
ghost use Rattle.task_model.specs.Policies.{policy_after};
ghost use Rattle.task_model.specs.Posts.{takes};
ghost use Rattle.task_model.specs.Time.{is_tick_from, now_after};

use task_base::{JobId, Kind, Phase, Policy, Priority, RunnerId, TaskId};

/// The moment after an entry.
pub(crate) fn now_after(now: u64, kind: Kind) -> u64
    ensures { result ≡ now_after now kind }
{
    match kind {
        Kind::Tick { now } => now,
        _ => now,
    }
}

/// Whether the entry is a tick of a moment or a later one.
pub(crate) fn is_tick_from(moment: u64, kind: Kind) -> bool
    ensures { result ≡ is_tick_from moment kind }
{
    match kind {
        Kind::Tick { now } => moment <= now,
        _ => false,
    }
}

/// The phase after an entry.
pub(crate) fn phase_after(phase: Phase, kind: Kind) -> Phase
    ensures { result ≡ phase_after phase kind }
{
    match kind {
        Kind::Shutdown => match phase {
            Phase::Running | Phase::Started => Phase::Started,
            Phase::Done => Phase::Done,
        },
        Kind::Done => Phase::Done,
        _ => phase,
    }
}

/// The policy in force after an entry.
pub(crate) fn policy_after(policy: Policy, kind: Kind) -> Policy
    ensures { result ≡ policy_after policy kind }
{
    match kind {
        Kind::Policy { policy } => policy,
        _ => policy,
    }
}

/// The priority of a runner after an entry.
pub(crate) fn priority_after(runner: RunnerId, priority: Priority, kind: Kind) -> Priority
    ensures { result ≡ priority_after runner priority kind }
{
    match kind {
        Kind::Reprio {
            runner: changed,
            priority: given,
        } => { if changed == runner { given } else { priority } }
        _ => priority,
    }
}

/// Whether the entry cancels a job.
pub(crate) fn cancels(job: JobId, kind: Kind) -> bool
    ensures { result ≡ cancels job kind }
{
    match kind {
        Kind::JobCancel { job: cancelled } => cancelled == job,
        _ => false,
    }
}

/// Whether the entry claims an item of a job.
pub(crate) fn claims(job: JobId, kind: Kind) -> bool
    ensures { result ≡ claims job kind }
{
    match kind {
        Kind::JobTake { job: claimed, .. } => claimed == job,
        Kind::JobStep {
            job: claimed,
            next,
            ..
        } => claimed == job && next.is_some(),
        _ => false,
    }
}

/// Whether the entry takes a task.
pub(crate) fn takes(task: TaskId, kind: Kind) -> bool
    ensures { result ≡ takes task kind }
{
    match kind {
        Kind::Take { task: taken, .. } => taken == task,
        _ => false,
    }
}
