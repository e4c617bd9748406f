//! Which limit a line passes.
ghost use Rattle.std.specs.Prelude.{◌≡◌, ◌<◌, ◌^◌, sum_by};
ghost use Rattle.script_model.specs.Bound.{events_of_action};
ghost use Rattle.script_model.specs.Canonical.{IsValid};
ghost use Rattle.script_model.specs.Laws.Sound.{IsSound};
ghost use Rattle.script_lint.specs.Limits.{action_limit, job_limit, limit_passed, most_of, task_limit};

use lint_text::Limited;
use script_bound::events_bound;
use script_lines::Command;
use task_base::{
    Action, Job, MOST_EVENTS, MOST_ITEMS, MOST_JOBS, MOST_QUEUES, MOST_RUNNERS, MOST_STEPS,
    MOST_TASKS, MOST_TICKS, Script, Step, is_act,
};

/// What there is too much of with the command behind the script.
pub(crate) fn limit_passed(script: &Script, command: &Command) -> Limited
    requires valid { IsValid script.now }
    requires sound { IsSound script.now }
    ensures { result ≡ limit_passed script.now command.now }
{
    match command {
        Command::Runner { .. } => Limited::Runners,
        Command::Queue { .. } => Limited::Queues,
        Command::Task { task, .. } => task_limit(script, task.steps.as_slice()),
        Command::Job { job, .. } => job_limit(script, job),
        Command::Act { action } => action_limit(script, action),
        _ => Limited::Entries,
    }
}

/// What there is too much of with a task.
fn task_limit(script: &Script, steps: &[Step]) -> Limited
    requires { IsValid script.now }
    ensures { result ≡ task_limit script.now steps.now }
{
    let acts = steps.iter().filter(|step| is_act(step)).count();
    if script.tasks.len() + 1 > MOST_TASKS {
        Limited::Tasks
    } else if events_bound(script) as usize + (2 + acts) > MOST_EVENTS {
        Limited::Entries
    } else {
        Limited::Steps
    }
}

/// What there is too much of with a job.
fn job_limit(script: &Script, job: &Job) -> Limited
    requires valid { IsValid script.now }
    requires sound { IsSound script.now }
    ensures { result ≡ job_limit script.now job.now }
{
    let items = job.items as usize;
    if script.jobs.len() + 1 > MOST_JOBS {
        Limited::Jobs
    } else if events_bound(script) as usize + 2 * items > MOST_EVENTS {
        Limited::Entries
    } else if items_of(script.jobs.as_slice()) + items > MOST_ITEMS {
        Limited::Items
    } else {
        Limited::Steps
    }
}

/// How many items the jobs have.
fn items_of(jobs: &[Job]) -> usize
    requires { sum_by (λ job. job.items) jobs.now < 2 ^ 32 }
    ensures { result ≡ sum_by (λ job. job.items) jobs.now }
{
    let mut items = 0;
    for job in jobs {
        items += job.items as usize;
    }
    items
}

/// What there is too much of with an action.
fn action_limit(script: &Script, action: &Action) -> Limited
    requires { IsValid script.now }
    ensures { result ≡ action_limit script.now action.now }
{
    if events_bound(script) as usize + events_of_action(action) > MOST_EVENTS {
        Limited::Entries
    } else {
        Limited::Ticks
    }
}

/// How many entries an action takes at most.
fn events_of_action(action: &Action) -> usize
    ensures events { result ≡ events_of_action action.now }
    ensures few { result < 2 ^ 32 }
{
    match *action {
        Action::Tick { count } => count as usize,
        Action::Cancel { .. } | Action::Shutdown => 2,
        _ => 1,
    }
}

/// How many there may be.
pub(crate) fn most_of(of: Limited) -> usize
    ensures { result ≡ most_of of }
{
    match of {
        Limited::Runners => MOST_RUNNERS,
        Limited::Queues => MOST_QUEUES,
        Limited::Tasks => MOST_TASKS,
        Limited::Jobs => MOST_JOBS,
        Limited::Items => MOST_ITEMS,
        Limited::Steps => MOST_STEPS,
        Limited::Ticks => MOST_TICKS,
        Limited::Entries | Limited::Actions => MOST_EVENTS,
    }
}
