ghost use Rattle.std.specs.Prelude.{◌≡◌, ◌++◌, [], flat_map, map, IfOk, OnOk};
ghost use Rattle.nested_loop.specs.Waiting.{main_of_action, main_of_step, main_of_task, queue_of_class, nest_script};

use crate::nest::{Nest, NestAction, NestStep, NestTask};
use std::alloc::{AllocError, Global};
use task_base::{Action, MainQueue, Rows, Script, Task};

/// The script of which the manager of the main queues is made: the queues of the nest, its tasks without steps, and an
/// action for each post. The error is want of memory.
pub(crate) fn script_of(alloc: Global, nest: &Nest) -> Result<Script, AllocError>
    ensures { IfOk result (λ script. script ≡ nest_script nest.now) }
{
    let queues = queues_of(alloc, nest.classes.as_slice())?;
    let tasks = empty_tasks(alloc, nest.tasks.as_slice())?;
    let mut actions = Rows::new(alloc);
    add_actions(&mut actions, nest.actions.as_slice())?;
    add_tasks(&mut actions, nest.tasks.as_slice())?;
    Ok(Script {
        workers: 1,
        foreground: 1,
        foreground_best: 1,
        background: 0,
        threshold: 0,
        runners: Rows::new(alloc),
        queues,
        tasks,
        jobs: Rows::new(alloc),
        actions,
    })
}

// A queue without voters for each class.
fn queues_of(alloc: Global, classes: &[u8]) -> Result<Rows<MainQueue>, AllocError>
    ensures { IfOk result (λ queues. queues.items ≡ map queue_of_class classes.now) }
{
    let mut queues = Rows::new(alloc);
    queues.reserve(classes.len())?;
    for class in classes {
        queues.push_spare(MainQueue {
            class: *class,
            voters: 0,
        });
    }
    Ok(queues)
}

// A task without steps for each task.
fn empty_tasks(alloc: Global, tasks: &[NestTask]) -> Result<Rows<Task>, AllocError>
    ensures { IfOk result (λ empty. empty.items ≡ map (λ task. []) tasks.now) }
{
    let mut empty = Rows::new(alloc);
    empty.reserve(tasks.len())?;
    for _task in tasks {
        empty.push_spare(Task {
            steps: Rows::new(alloc),
        });
    }
    Ok(empty)
}

// Adds an action for each post of these actions.
fn add_actions(added: &mut Rows<Action>, actions: &[NestAction]) -> Result<(), AllocError>
    ensures { OnOk result (added.new.items ≡ added.old.items ++ flat_map main_of_action actions.now) }
{
    added.reserve(actions.len())?;
    for action in actions {
        if let NestAction::Post { task, queue } = *action {
            added.push_spare(Action::Main {
                task,
                queue,
                delay: 0,
            });
        }
    }
    Ok(())
}

// Adds an action for each post of the steps of these tasks.
fn add_tasks(added: &mut Rows<Action>, tasks: &[NestTask]) -> Result<(), AllocError>
    ensures { OnOk result (added.new.items ≡ added.old.items ++ flat_map main_of_task tasks.now) }
{
    for task in tasks {
        add_steps(added, task.steps.as_slice())?;
    }
    Ok(())
}

// Adds an action for each post of these steps.
fn add_steps(added: &mut Rows<Action>, steps: &[NestStep]) -> Result<(), AllocError>
    ensures { OnOk result (added.new.items ≡ added.old.items ++ flat_map main_of_step steps.now) }
{
    added.reserve(steps.len())?;
    for step in steps {
        if let NestStep::Post { task, queue } = *step {
            added.push_spare(Action::Main {
                task,
                queue,
                delay: 0,
            });
        }
    }
    Ok(())
}
