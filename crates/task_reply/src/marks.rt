ghost use Rattle.std.specs.Prelude.{◌≡◌, IfOk, false, flat_map, length, replicate, slice_set, true};
ghost use Rattle.script_model.specs.Laws.Postings.{posts_of_action, posts_of_step, postings};
ghost use Rattle.task_reply.specs.Tables.{marked};

use std::alloc::{AllocError, Global};
use task_base::{Action, Script, Step, Task, TaskId};

/// Whether the script posts the task, for each task.
pub(crate) fn posted_marks(alloc: Global, script: &Script) -> Result<Vec<bool>, AllocError>
    ensures { IfOk result (λ marks. marks.items ≡ marked (replicate (length script.now.tasks) false) (postings script.now)) }
{
    let mut marks = vec![in alloc; false; script.tasks.len()]?;
    mark_postings(&mut marks, script);
    Ok(marks)
}

/// Gives the tasks that the script posts their marks.
#[tactic(auto, unfolding(script_model::specs::Laws::Postings::postings))]
fn mark_postings(marks: &mut [bool], script: &Script)
    ensures { marks.new ≡ marked marks.old (postings script.now) }
{
    mark_actions(marks, script.actions.as_slice());
    mark_tasks(marks, script.tasks.as_slice());
}

/// Gives the tasks that the actions post their marks.
fn mark_actions(marks: &mut [bool], actions: &[Action])
    ensures { marks.new ≡ marked marks.old (flat_map posts_of_action actions.now) }
{
    for action in actions {
        mark_action(marks, action);
    }
}

/// Gives the tasks that the steps of the tasks post their marks.
fn mark_tasks(marks: &mut [bool], tasks: &[Task])
    ensures { marks.new ≡ marked marks.old (flat_map (λ steps. flat_map posts_of_step steps) tasks.now) }
{
    for task in tasks {
        mark_steps(marks, task.steps.as_slice());
    }
}

/// Gives the tasks that the steps post their marks.
fn mark_steps(marks: &mut [bool], steps: &[Step])
    ensures { marks.new ≡ marked marks.old (flat_map posts_of_step steps.now) }
{
    for step in steps {
        mark_step(marks, step);
    }
}

/// Gives the task that an action posts, if it posts one, its mark.
fn mark_action(marks: &mut [bool], action: &Action)
    ensures { marks.new ≡ marked marks.old (posts_of_action action.now) }
{
    match *action {
        Action::Post { task, .. } | Action::Main { task, .. } => mark(marks, task),
        _ => {}
    }
}

/// Gives the task that a step posts, if it posts one, its mark.
fn mark_step(marks: &mut [bool], step: &Step)
    ensures { marks.new ≡ marked marks.old (posts_of_step step.now) }
{
    match *step {
        Step::Post { task, .. } | Step::Main { task, .. } => mark(marks, task),
        Step::Add(_) | Step::Mul(_) | Step::Set(_) | Step::Block(_) | Step::Unblock => {}
    }
}

/// Gives a task its mark, if it is one of the marks.
pub(crate) fn mark(marks: &mut [bool], task: TaskId)
    ensures { marks.new ≡ slice_set marks.old task true }
{
    let place = task as usize;
    if place < marks.len() {
        marks[place] = true;
    }
}
