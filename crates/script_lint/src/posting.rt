//! Tasks that are posted a second time.
ghost use Rattle.std.specs.Prelude.{◌≡◌, ◌≤◌, ◌||◌};
ghost use Rattle.std.specs.List.{list_any};
ghost use Rattle.script_lint.specs.Earlier.{action_posts, step_posts};
ghost use Rattle.script_lint.specs.Posting.{is_posted, posted_again, task_again, task_of};

use crate::earlier::{action_posts, posts_task};
use crate::steps::words_in;
use task_base::{Script, Step, TaskId};

/// The first of steps, which stand from this place on, whose task the script posts, or a step before it: the place of the task, and
/// the task. It takes time by the steps that post, each times the posts of the script and the steps before it.
#[tactic(auto, unfolding(crate::specs::Posting::posted_again))]
pub(crate) fn posted_again(script: &Script, steps: &[Step], from: usize) -> Option<(usize, TaskId)>
    requires { from ≤ 8 }
    ensures { result ≡ posted_again script.now steps.now 0 steps.now from }
{
    let mut place = from;
    for (index, step) in steps.iter().enumerate() {
        if let Some(task) = task_again(script, &steps[..index], step) {
            return Some((place + 1, task));
        }
        place += words_in(step);
    }
    None
}

/// The task of a step, if the script posts it, or one of the steps before.
fn task_again(script: &Script, before: &[Step], step: &Step) -> Option<TaskId>
    ensures { result ≡ task_again script.now before.now step.now }
{
    let task = task_of(step)?;
    if is_posted(script, task) || posts_task(before, task) {
        Some(task)
    } else {
        None
    }
}

/// The task that a step posts.
fn task_of(step: &Step) -> Option<TaskId>
    ensures { result ≡ task_of step.now }
{
    match *step {
        Step::Post { task, .. } | Step::Main { task, .. } => Some(task),
        _ => None,
    }
}

/// Whether the script posts the task.
pub(crate) fn is_posted(script: &Script, task: TaskId) -> bool
    ensures { result ≡ is_posted script.now task }
{
    posted_by_actions(script, task) || posted_by_tasks(script, task)
}

/// Whether an action of the script posts the task.
fn posted_by_actions(script: &Script, task: TaskId) -> bool
    ensures { result ≡ list_any (action_posts task) script.now.actions }
{
    script
        .actions
        .as_slice()
        .iter()
        .any(|action| action_posts(task, action))
}

/// Whether a task of the script posts the task.
fn posted_by_tasks(script: &Script, task: TaskId) -> bool
    ensures { result ≡ list_any (λ steps. list_any (step_posts task) steps) script.now.tasks }
{
    script
        .tasks
        .as_slice()
        .iter()
        .any(|posting| posts_task(posting.steps.as_slice(), task))
}
