ghost use Rattle.std.specs.Prelude.{◌≡◌, ◌<◌, ◌^◌, length};
ghost use Rattle.log_context.specs.Sources.{behaves, due, forbids, held, is_unripe, left, only_seat, priorities, ripens};
ghost use Rattle.log_context.specs.Sources.{runs_still, sequence, shut, stopped, task_of_take};

use crate::fact::{Fact, Role};
use crate::mark::{Mark, Plain};
use crate::posts::is_answered_otherwise;
use crate::seats::is_at_work;
use crate::seen::{Seen, last_marked, stands_as, tells};
use past_lookup::{
    is_forbidden, is_held, is_job_forbidden, is_parallel, job_priority, key_of, post_of,
    priority_of,
};
use task_base::{Entry, Kind, RunnerId, RunnerKind, Script, SeatNo, TaskId};

/// Where another seat took the task of the sequence that runs, of which the entry takes a task.
pub fn sequence(script: &Script, past: &[Entry], seat: SeatNo, kind: &Kind) -> Option<Fact>
    requires { length past.now < 2 ^ 32 }
    ensures { result ≡ sequence script.now past.now seat kind.now }
{
    match *kind {
        Kind::Take { runner, .. } if !is_parallel(script, runner) => runs_still(
            past,
            seat,
            last_marked(Mark::TakeOf { runner }, past),
        ),
        _ => None,
    }
}

/// Where a task was taken by another seat that is at work with it.
fn runs_still(past: &[Entry], seat: SeatNo, last: Option<Seen>) -> Option<Fact>
    requires { length past.now < 2 ^ 32 }
    ensures { result ≡ runs_still past.now seat last }
{
    let seen = last?;
    if seen.entry.seat != seat && is_at_work(past, &seen) {
        stands_as(Role::Runs, Some(seen))
    } else {
        None
    }
}

/// Where the task was posted that is due in place of the one that the entry takes, of the same sequence or of the main queues.
pub fn due(script: &Script, past: &[Entry], kind: &Kind, named: Option<Kind>) -> Option<Fact>
    requires { length past.now < 2 ^ 32 }
    ensures { result ≡ due script.now past.now kind.now named }
{
    match (*kind, named?) {
        (
            Kind::Take { task, runner, .. },
            Kind::Take {
                task: next,
                runner: other,
                ..
            },
        ) => {
            if task != next && runner == other && !is_parallel(script, runner) {
                tells(Role::Due, Mark::Post { task: next }, past)
            } else {
                None
            }
        }
        (Kind::MainTake { task, .. }, Kind::MainTake { task: next, .. }) => {
            if task != next {
                tells(Role::Due, Mark::Main { task: next }, past)
            } else {
                None
            }
        }
        (Kind::MainNone, Kind::MainTake { task: next, .. }) => {
            tells(Role::Due, Mark::Main { task: next }, past)
        }
        _ => None,
    }
}

/// The task that an entry takes.
fn task_of_take(kind: &Kind) -> Option<TaskId>
    ensures { result ≡ task_of_take kind.now }
{
    match *kind {
        Kind::Take { task, .. } => Some(task),
        Kind::MainTake { task, .. } => Some(task),
        _ => None,
    }
}

/// Where the value was left that is in the cell, where the entry finds another one.
pub fn left(script: &Script, past: &[Entry], kind: &Kind, named: Option<Kind>) -> Option<Fact>
    requires { length past.now < 2 ^ 32 }
    ensures { result ≡ left script.now past.now kind.now named }
{
    match (*kind, named?) {
        (
            Kind::Take {
                task,
                runner,
                found,
            },
            Kind::Take {
                task: next,
                found: value,
                ..
            },
        ) => {
            if task == next && found != value && !is_parallel(script, runner) {
                let last = last_marked(Mark::TakeOf { runner }, past)?;
                let task = task_of_take(&last.entry.kind)?;
                tells(Role::Left, Mark::End { task }, past)
            } else {
                None
            }
        }
        (
            Kind::MainTake { task, queue, found },
            Kind::MainTake {
                task: next,
                found: value,
                ..
            },
        ) => {
            if task == next && found != value {
                let last = last_marked(Mark::MainTakeOf { queue }, past)?;
                let task = task_of_take(&last.entry.kind)?;
                tells(Role::Left, Mark::MainEnd { task }, past)
            } else {
                None
            }
        }
        _ => None,
    }
}

/// Where the policy was set that holds back what the entry takes.
pub fn held(script: &Script, past: &[Entry], kind: &Kind) -> Option<Fact>
    requires { length past.now < 2 ^ 32 }
    ensures { result ≡ held script.now past.now kind.now }
{
    let priority = match *kind {
        Kind::Take { runner, .. } => priority_of(script, past, runner),
        Kind::JobTake { job, .. } => job_priority(script, job),
        _ => return None,
    };
    if is_held(past, priority) {
        tells(Role::Policy, Mark::Plain(Plain::Policy), past)
    } else {
        None
    }
}

/// Whether shutdown forbids what the entry takes, or decides on the post that the entry is.
fn forbids(script: &Script, past: &[Entry], kind: &Kind, named: Option<Kind>) -> bool
    requires { length past.now < 2 ^ 32 }
    ensures { result ≡ forbids script.now past.now kind.now named }
{
    match *kind {
        Kind::Take { task, .. } => match post_of(past, task) {
            None => false,
            Some(post) => is_forbidden(script, past, &post),
        },
        Kind::JobTake { job, .. } => is_job_forbidden(script, past, job),
        _ => is_answered_otherwise(kind, named),
    }
}

/// Where shutdown started, which forbids what the entry takes, or decides on the post that the entry is.
pub fn shut(script: &Script, past: &[Entry], kind: &Kind, named: Option<Kind>) -> Option<Fact>
    requires { length past.now < 2 ^ 32 }
    ensures { result ≡ shut script.now past.now kind.now named }
{
    if forbids(script, past, kind, named) {
        tells(Role::Shutdown, Mark::Plain(Plain::Shutdown), past)
    } else {
        None
    }
}

/// What shutdown does with the tasks of the runner that the entry posts to, where another reply may come.
pub fn behaves(script: &Script, kind: &Kind, named: Option<Kind>) -> Option<Fact>
    ensures { result ≡ behaves script.now kind.now named }
{
    match *kind {
        Kind::Post { runner, .. } if is_answered_otherwise(kind, named) => {
            let declared = script.runners.at(runner as usize)?;
            Some(Fact::Behaves {
                runner,
                behaviour: declared.traits.behaviour,
            })
        }
        _ => None,
    }
}

/// Where the clock was read last, where the task that the entry takes is not ripe yet.
pub fn ripens(past: &[Entry], kind: &Kind) -> Option<Fact>
    requires { length past.now < 2 ^ 32 }
    ensures { result ≡ ripens past.now kind.now }
{
    match *kind {
        Kind::Take { task, .. } if is_unripe(past, task) => {
            tells(Role::Moment, Mark::Plain(Plain::Tick), past)
        }
        _ => None,
    }
}

/// Whether a task was accepted and has no key yet.
fn is_unripe(past: &[Entry], task: TaskId) -> bool
    requires { length past.now < 2 ^ 32 }
    ensures { result ≡ is_unripe past.now task }
{
    match post_of(past, task) {
        None => false,
        Some(post) => key_of(past, &post).is_none(),
    }
}

/// Where the job was cancelled that the entry enters.
pub fn stopped(past: &[Entry], kind: &Kind) -> Option<Fact>
    requires { length past.now < 2 ^ 32 }
    ensures { result ≡ stopped past.now kind.now }
{
    match *kind {
        Kind::JobTake { job, .. } => tells(Role::Cancelled, Mark::JobCancel { job }, past),
        _ => None,
    }
}

/// Which seat alone takes tasks of the entry's runner, where that is another one.
pub fn only_seat(script: &Script, seat: SeatNo, kind: &Kind) -> Option<Fact>
    ensures { result ≡ only_seat script.now seat kind.now }
{
    match *kind {
        Kind::Take { runner, .. } => match script.runners.at(runner as usize)?.kind {
            RunnerKind::Single(only) if only != seat => Some(Fact::Single { runner, seat: only }),
            _ => None,
        },
        _ => None,
    }
}

/// The priorities of two runners, where the entry takes a task of the one, and the best source is of the other.
pub fn priorities(script: &Script, past: &[Entry], kind: &Kind, named: Option<Kind>) -> Option<Fact>
    ensures { result ≡ priorities script.now past.now kind.now named }
{
    match (*kind, named?) {
        (Kind::Take { runner, .. }, Kind::Take { runner: best, .. }) => {
            if runner == best {
                return None;
            }
            Some(Fact::Priorities {
                runner,
                priority: priority_of(script, past, runner),
                best,
                higher: priority_of(script, past, best),
            })
        }
        _ => None,
    }
}
