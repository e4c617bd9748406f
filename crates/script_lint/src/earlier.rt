ghost use Rattle.std.specs.Prelude.{◌≡◌, ◌≤◌, length, IfOk};
ghost use Rattle.std.specs.List.{list_any};
ghost use Rattle.script_lines.specs.Said.{line_said};
ghost use Rattle.script_lint.specs.Earlier.{action_posts, first_line, is_sought, is_sought_action, says, step_posts};

use line_places::Lines;
use script_lines::{Command, LineFault, read_line};
use std::alloc::{AllocError, Global};
use task_base::{Action, JobId, Step, TaskId};

/// What an earlier line is looked for by.
#[derive(Clone, Copy)]
pub(crate) enum Sought {
    /// It posts the task, by an action or a step.
    Posts { task: TaskId },
    /// It starts the job.
    Starts { job: JobId },
    /// It starts shutdown.
    ShutsDown,
    /// It is an action.
    Acts,
    /// It declares something.
    Declares,
    /// It says how many workers there are.
    Workers,
    /// It says the limits of the groups.
    Groups,
    /// It says the threshold.
    Threshold,
}

/// The first line of a text, counted from 1, that is what is looked for. The text has at most 4,294,967,294 bytes. The error is
/// want of memory.
#[tactic(auto, unfolding(crate::specs::Earlier::first_line))]
pub(crate) fn first_line(
    alloc: Global,
    text: &[u8],
    sought: Sought,
) -> Result<Option<u32>, AllocError>
    requires { length text.now ≤ 4294967294 }
    ensures { IfOk result (λ line. line ≡ first_line sought text.now) }
{
    let mut lines = Lines::of(text);
    let mut number = 0;
    while let Some(line) = lines.next() {
        number += 1;
        if says(alloc, sought, line)? {
            return Ok(Some(number));
        }
    }
    Ok(None)
}

/// Whether the line is what is looked for. The error is want of memory.
fn says(alloc: Global, sought: Sought, line: &[u8]) -> Result<bool, AllocError>
    ensures { IfOk result (λ said. said ≡ says sought line.now) }
{
    match read_line(alloc, line) {
        Ok(command) => Ok(is_sought(sought, &command)),
        Err(LineFault::Bad { .. }) => Ok(false),
        Err(LineFault::Memory(error)) => Err(error),
    }
}

/// Whether a command is what is looked for.
fn is_sought(sought: Sought, command: &Command) -> bool
    ensures { result ≡ is_sought sought command.now }
{
    match (sought, command) {
        (Sought::Posts { task }, Command::Task { task: steps, .. }) => {
            posts_task(steps.steps.as_slice(), task)
        }
        (sought, Command::Act { action }) => is_sought_action(sought, action),
        (
            Sought::Declares,
            Command::Runner { .. }
            | Command::Queue { .. }
            | Command::Task { .. }
            | Command::Job { .. },
        ) => true,
        (Sought::Workers, Command::Workers { .. }) => true,
        (Sought::Groups, Command::Groups { .. }) => true,
        (Sought::Threshold, Command::Threshold { .. }) => true,
        _ => false,
    }
}

/// Whether an action is what is looked for.
fn is_sought_action(sought: Sought, action: &Action) -> bool
    ensures { result ≡ is_sought_action sought action.now }
{
    match (sought, *action) {
        (Sought::Posts { task }, _) => action_posts(task, action),
        (Sought::Starts { job }, Action::StartJob { job: started }) => started == job,
        (Sought::ShutsDown, Action::Shutdown) => true,
        (Sought::Acts, _) => true,
        _ => false,
    }
}

/// Whether an action posts the task.
pub(crate) fn action_posts(task: TaskId, action: &Action) -> bool
    ensures { result ≡ action_posts task action.now }
{
    match *action {
        Action::Post { task: posted, .. } | Action::Main { task: posted, .. } => posted == task,
        _ => false,
    }
}

/// Whether one of the steps posts the task.
pub(crate) fn posts_task(steps: &[Step], task: TaskId) -> bool
    ensures { result ≡ list_any (step_posts task) steps.now }
{
    steps.iter().any(|step| step_posts(task, step))
}

/// Whether a step posts the task.
pub(crate) fn step_posts(task: TaskId, step: &Step) -> bool
    ensures { result ≡ step_posts task step.now }
{
    match *step {
        Step::Post { task: posted, .. } | Step::Main { task: posted, .. } => posted == task,
        _ => false,
    }
}
