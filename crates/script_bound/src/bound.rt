ghost use Rattle.std.specs.Prelude.{◌≡◌, ◌+◌, ◌<◌, ◌^◌, sum_by};
ghost use Rattle.task_base.specs.Steps.{is_act};
ghost use Rattle.script_model.specs.Bound.{events_bound_of, events_of_task, events_of_job, events_of_action};
ghost use Rattle.script_model.specs.Canonical.{IsValid};

use task_base::{Action, Job, Script, Task, is_act};

/// How many entries the history of a run of the script has at most.
#[tactic(auto, using(crate::proofs::Bounds::bound_fits))]
pub fn events_bound(script: &Script) -> u32
    requires { IsValid script.now }
    ensures { result ≡ events_bound_of script.now }
{
    let tasks = events_of_tasks(script.tasks.as_slice());
    let jobs = events_of_jobs(script.jobs.as_slice());
    let actions = events_of_actions(script.actions.as_slice());
    tasks + jobs + actions
}

fn events_of_tasks(tasks: &[Task]) -> u32
    requires { sum_by events_of_task tasks.now < 2 ^ 32 }
    ensures { result ≡ sum_by events_of_task tasks.now }
{
    let mut events = 0;
    for task in tasks {
        events += events_of_task(task);
    }
    events
}

fn events_of_jobs(jobs: &[Job]) -> u32
    requires { sum_by events_of_job jobs.now < 2 ^ 32 }
    ensures { result ≡ sum_by events_of_job jobs.now }
{
    let mut events = 0;
    for job in jobs {
        events += 2 * job.items;
    }
    events
}

fn events_of_actions(actions: &[Action]) -> u32
    requires { sum_by events_of_action actions.now < 2 ^ 32 }
    ensures { result ≡ sum_by events_of_action actions.now }
{
    let mut events = 0;
    for action in actions {
        events += events_of_action(action);
    }
    events
}

// The entries of a task: its take, its end, and one for each act step.
fn events_of_task(task: &Task) -> u32
    requires { events_of_task task.now < 2 ^ 32 }
    ensures { result ≡ events_of_task task.now }
{
    let steps = task.steps.as_slice();
    2 + steps.iter().filter(|step| is_act(step)).count() as u32
}

// The entries of an action: a tick for each reading of the clock, a start and an end of a wait, or one.
fn events_of_action(action: &Action) -> u32
    ensures { result ≡ events_of_action action.now }
{
    match *action {
        Action::Tick { count } => count,
        Action::Cancel { .. } | Action::Shutdown => 2,
        Action::Post { .. }
        | Action::Main { .. }
        | Action::Policy { .. }
        | Action::Reprio { .. }
        | Action::Fence { .. }
        | Action::Unfence { .. }
        | Action::Vote { .. }
        | Action::Rank { .. }
        | Action::Close { .. }
        | Action::Pump { .. }
        | Action::Flush
        | Action::StartJob { .. }
        | Action::Join { .. } => 1,
    }
}
