//! Steps, and the places at which they stand in their line.
ghost use Rattle.std.specs.Prelude.{◌≡◌, ◌≤◌, ◌<◌, ◌^◌, IfSome};
ghost use Rattle.std.specs.List.{list_any};
ghost use Rattle.script_lint.specs.Steps.{first_step, moved, must_not_block, no_job_step, step_objection, undeclared, undeclared_step, words_in};
ghost use Rattle.script_model.specs.Draft.{is_block, may_block_on, opens_scope};

use line_places::Thing;
use lint_text::{Complaint, Objection, at, none_of};
use task_base::{RunnerId, Script, Step, TaskId, is_act};

/// What a step is asked.
#[derive(Clone, Copy)]
pub(crate) enum Question {
    /// Whether what it names is declared.
    Declared,
    /// Whether the task that it posts may block there.
    Blocking,
    /// Whether it computes.
    Computing,
}

/// What is wrong with the first step that does not pass, of steps that stand from this place on.
#[tactic(auto, unfolding(crate::specs::Steps::first_step))]
pub(crate) fn first_step(
    script: &Script,
    question: Question,
    steps: &[Step],
    from: usize,
) -> Option<Objection>
    requires { from ≤ 8 }
    ensures { result ≡ first_step script.now question steps.now from }
{
    let mut place = from;
    for step in steps {
        let here = moved(place, step_objection(script, question, step));
        if here.is_some() {
            return here;
        }
        place += words_in(step);
    }
    None
}

/// An objection to a step, at the place in its line where the step begins.
pub(crate) fn moved(by: usize, objection: Option<Objection>) -> Option<Objection>
    requires far { by < 2 ^ 63 }
    requires near { IfSome objection (λ objection. objection.place ≤ 2) }
    ensures { result ≡ moved by objection }
{
    let objection = objection?;
    Some(at(by + objection.place, objection.complaint))
}

/// How many words a step has, and the `;` behind it.
pub(crate) fn words_in(step: &Step) -> usize
    ensures words { result ≡ words_in step.now }
    ensures few { result ≤ 5 }
{
    match *step {
        Step::Post { .. } | Step::Main { .. } => 5,
        Step::Unblock => 2,
        Step::Add(_) | Step::Mul(_) | Step::Set(_) | Step::Block(_) => 3,
    }
}

/// What is wrong with a step, at a place counted from its own first word.
fn step_objection(script: &Script, question: Question, step: &Step) -> Option<Objection>
    ensures objection { result ≡ step_objection script.now question step.now }
    ensures near { IfSome result (λ objection. objection.place ≤ 2) }
{
    match question {
        Question::Declared => undeclared_step(script, step),
        Question::Blocking => must_not_block(script, step),
        Question::Computing => no_job_step(step),
    }
}

/// That the step posts a task, or to a home, that is not declared.
pub(crate) fn undeclared_step(script: &Script, step: &Step) -> Option<Objection>
    ensures objection { result ≡ undeclared_step script.now step.now }
    ensures near { IfSome result (λ objection. objection.place ≤ 2) }
{
    match *step {
        Step::Post { task, runner, .. } => undeclared(
            task,
            script.tasks.len(),
            Thing::Runner,
            runner,
            script.runners.len(),
        ),
        Step::Main { task, queue, .. } => undeclared(
            task,
            script.tasks.len(),
            Thing::Queue,
            queue,
            script.queues.len(),
        ),
        _ => None,
    }
}

/// That of so many tasks this is none, or of so many of its homes that is none.
fn undeclared(task: TaskId, tasks: usize, of: Thing, home: u32, homes: usize) -> Option<Objection>
    ensures objection { result ≡ undeclared task tasks of home homes }
    ensures near { IfSome result (λ objection. objection.place ≤ 2) }
{
    if task as usize >= tasks {
        return Some(at(1, none_of(Thing::Task, tasks)));
    }
    if home as usize >= homes {
        return Some(at(2, none_of(of, homes)));
    }
    None
}

/// That the step posts a task that opens a blocking scope where it must not block.
pub(crate) fn must_not_block(script: &Script, step: &Step) -> Option<Objection>
    ensures objection { result ≡ must_not_block script.now step.now }
    ensures near { IfSome result (λ objection. objection.place ≤ 2) }
{
    match *step {
        Step::Post { task, runner, .. }
            if opens_scope(script, task) && !may_block_on(script, runner) => {
            Some(at(
                1,
                Complaint::MayNotBlock {
                    task,
                    runner: Some(runner),
                },
            ))
        }
        Step::Main { task, .. } if opens_scope(script, task) => {
            Some(at(1, Complaint::MayNotBlock { task, runner: None }))
        }
        _ => None,
    }
}

/// Whether the task opens a blocking scope.
fn opens_scope(script: &Script, task: TaskId) -> bool
    ensures { result ≡ opens_scope script.now.tasks task }
{
    match script.tasks.at(task as usize) {
        Some(task) => has_block(task.steps.as_slice()),
        None => false,
    }
}

/// Whether one of the steps opens a blocking scope.
fn has_block(steps: &[Step]) -> bool
    ensures { result ≡ list_any is_block steps.now }
{
    steps.iter().any(|step| matches!(*step, Step::Block(_)))
}

/// Whether the runner takes tasks that may block.
fn may_block_on(script: &Script, runner: RunnerId) -> bool
    ensures { result ≡ may_block_on script.now.runners runner }
{
    match script.runners.at(runner as usize) {
        Some(runner) => runner.traits.may_block,
        None => false,
    }
}

/// That the step does not compute.
fn no_job_step(step: &Step) -> Option<Objection>
    ensures objection { result ≡ no_job_step step.now }
    ensures near { IfSome result (λ objection. objection.place ≤ 2) }
{
    if is_act(step) {
        Some(at(0, Complaint::NoJobStep))
    } else {
        None
    }
}
