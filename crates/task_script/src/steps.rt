ghost use Rattle.std.specs.Prelude.{◌≡◌, false, count_by, flat_map, slice_index_or, slice_set, true, Option, Some, None};
ghost use Rattle.std.specs.List.{list_any};
ghost use Rattle.task_base.specs.Steps.{is_act};
ghost use Rattle.script_model.specs.Draft.{has_bad_scopes, is_block};
ghost use Rattle.script_model.specs.Laws.Postings.{posts_of_step};
ghost use Rattle.task_script.specs.Marks.{marked, is_any_marked};
ghost use Rattle.task_script.specs.Scopes.{next_inside};

use task_base::{Step, TaskId, is_act};

/// Whether a step posts a task that has a mark, or one that a step before it posts. If not, all tasks that the steps post
/// have their marks.
pub(crate) fn is_any_posted(marks: &mut [bool], steps: &[Step]) -> bool
    ensures found { result ≡ is_any_marked marks.old (flat_map posts_of_step steps.now) }
    ensures marked { result ≡ false → marks.new ≡ marked marks.old (flat_map posts_of_step steps.now) }
{
    for step in steps {
        if mark_posted(marks, step) {
            return true;
        }
    }
    false
}

/// Gives the task that a step posts its mark. Whether it had one.
fn mark_posted(marks: &mut [bool], step: &Step) -> bool
    ensures found { result ≡ is_any_marked marks.old (posts_of_step step.now) }
    ensures marked { marks.new ≡ marked marks.old (posts_of_step step.now) }
{
    match *step {
        Step::Post { task, .. } | Step::Main { task, .. } => mark(marks, task),
        Step::Add(_) | Step::Mul(_) | Step::Set(_) | Step::Block(_) | Step::Unblock => false,
    }
}

/// Gives a task its mark, if it is one of the marks. Whether it had one.
fn mark(marks: &mut [bool], task: TaskId) -> bool
    ensures found { result ≡ slice_index_or marks.old task false }
    ensures marked { marks.new ≡ slice_set marks.old task true }
{
    let place = task as usize;
    if place >= marks.len() {
        return false;
    }
    let had = marks[place];
    marks[place] = true;
    had
}

/// Whether the blocking scopes of a task do not open and close in turn.
pub(crate) fn has_bad_scopes(steps: &[Step]) -> bool
    ensures { result ≡ has_bad_scopes false steps.now }
{
    let mut inside = false;
    for step in steps {
        match inside_behind(inside, step) {
            Some(next) => inside = next,
            None => return true,
        }
    }
    inside
}

/// Whether a blocking scope is open behind a step, or nothing where the step opens a second scope or closes none.
fn inside_behind(inside: bool, step: &Step) -> Option<bool>
    ensures { result ≡ next_inside inside step.now }
{
    match *step {
        Step::Block(_) => (!inside).then_some(true),
        Step::Unblock => inside.then_some(false),
        Step::Add(_) | Step::Mul(_) | Step::Set(_) | Step::Post { .. } | Step::Main { .. } => {
            Some(inside)
        }
    }
}

/// Whether a step opens a blocking scope.
pub(crate) fn opens_scope(steps: &[Step]) -> bool
    ensures { result ≡ list_any is_block steps.now }
{
    steps.iter().any(|step| matches!(*step, Step::Block(_)))
}

/// Whether a step makes an entry of the history.
pub(crate) fn has_act_step(steps: &[Step]) -> bool
    ensures { result ≡ list_any is_act steps.now }
{
    steps.iter().any(|step| is_act(step))
}

/// How many steps make an entry of the history.
pub(crate) fn count_act_steps(steps: &[Step]) -> usize
    ensures { result ≡ count_by is_act steps.now }
{
    steps.iter().filter(|step| is_act(step)).count()
}
