ghost use Rattle.std.specs.Prelude.{◌≡◌, ◌==◌, ◌++◌, ◌∷◌, [], false, flat_map, IfOk};
ghost use Rattle.std.specs.List.{list_any};
ghost use Rattle.script_model.specs.Draft.{is_any_posted};
ghost use Rattle.nested_loop.specs.Sound.{posts_of_nest_step, posts_of_nest_action};

use crate::nest::{NestAction, NestStep};
use std::alloc::AllocError;
use task_base::{Rows, TaskId};

/// Whether a step posts a task of the list, or one that a step before it posts. If not, the tasks that the steps post
/// are put behind those of the list. The error is want of memory.
#[tactic(auto, using(crate::proofs::Posted::is_any_posted_append))]
pub(crate) fn steps_post_again(
    posted: &mut Rows<TaskId>,
    steps: &[NestStep],
) -> Result<bool, AllocError>
    ensures again { IfOk result (λ again. again ≡ is_any_posted posted.old.items (flat_map posts_of_nest_step steps.now)) }
    ensures noted { IfOk result (λ again. again ≡ false → posted.new.items ≡ posted.old.items ++ flat_map posts_of_nest_step steps.now) }
{
    for step in steps {
        if step_posts_again(posted, step)? {
            return Ok(true);
        }
    }
    Ok(false)
}

/// The same of one step.
fn step_posts_again(posted: &mut Rows<TaskId>, step: &NestStep) -> Result<bool, AllocError>
    ensures again { IfOk result (λ again. again ≡ is_any_posted posted.old.items (posts_of_nest_step step.now)) }
    ensures noted { IfOk result (λ again. again ≡ false → posted.new.items ≡ posted.old.items ++ posts_of_nest_step step.now) }
{
    match *step {
        NestStep::Post { task, .. } => is_posted_again(posted, task),
        NestStep::Say(_) | NestStep::Loop(_) => Ok(false),
    }
}

/// The same of an action.
pub(crate) fn action_posts_again(
    posted: &mut Rows<TaskId>,
    action: NestAction,
) -> Result<bool, AllocError>
    ensures again { IfOk result (λ again. again ≡ is_any_posted posted.old.items (posts_of_nest_action action)) }
    ensures noted { IfOk result (λ again. again ≡ false → posted.new.items ≡ posted.old.items ++ posts_of_nest_action action) }
{
    match action {
        NestAction::Post { task, .. } => is_posted_again(posted, task),
        NestAction::Run(_) => Ok(false),
    }
}

/// Whether the task is in the list. If not, it is put behind it.
fn is_posted_again(posted: &mut Rows<TaskId>, task: TaskId) -> Result<bool, AllocError>
    ensures again { IfOk result (λ again. again ≡ is_any_posted posted.old.items (task ∷ [])) }
    ensures noted { IfOk result (λ again. again ≡ false → posted.new.items ≡ posted.old.items ++ task ∷ []) }
{
    if has_task(posted.as_slice(), task) {
        return Ok(true);
    }
    posted.reserve(1)?;
    posted.push_spare(task);
    Ok(false)
}

fn has_task(tasks: &[TaskId], task: TaskId) -> bool
    ensures { result ≡ list_any (λ earlier. earlier == task) tasks.now }
{
    tasks.iter().any(|earlier| *earlier == task)
}
