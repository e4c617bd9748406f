//! What is wrong with a line whose words are right, by what stands before it.
ghost use Rattle.std.specs.Prelude.{◌≡◌, ◌≤◌, length, IfOk};
ghost use Rattle.script_model.specs.Canonical.{IsValid};
ghost use Rattle.script_model.specs.Laws.Sound.{IsSound};
ghost use Rattle.script_lint.specs.Lines.{bad_block, is_declaration, is_late, is_posted_twice, is_start_wrong, kind_objection, late_at, line_objection, once, order_objection, posted_place, posting_of, started_before, stands_before, too_many, undeclared_act, undeclared_in, voter_objection};

use crate::earlier::{Sought, first_line};
use crate::limits::{limit_passed, most_of};
use crate::posting::posted_again;
use crate::scopes::block_in;
use crate::steps::{Question, first_step};
use line_places::Thing;
use lint_text::{Complaint, Objection, at, none_of};
use script_lines::Command;
use std::alloc::{AllocError, Global};
use task_base::{Action, JobId, QueueId, RunnerKind, Script, Step, TaskId};

/// What is wrong with a command behind the script of the lines before it, whose bytes these are, by the reason: one of 6 to 14.
/// The error is want of memory.
pub(crate) fn line_objection(
    alloc: Global,
    script: &Script,
    front: &[u8],
    command: &Command,
    reason: u8,
) -> Result<Option<Objection>, AllocError>
    requires valid { IsValid script.now }
    requires sound { IsSound script.now }
    requires short { length front.now ≤ 4294967294 }
    ensures { IfOk result (λ objection. objection ≡ line_objection script.now front.now command.now reason) }
{
    match reason {
        6 => Ok(order_objection(script, command)),
        7 => Ok(undeclared_in(script, command)),
        8 => is_posted_twice(alloc, script, front, command),
        9 => is_late(alloc, front, command),
        10 => Ok(bad_block(script, command)),
        11 => is_start_wrong(alloc, script, front, command),
        12 | 13 => stands_before(alloc, front, command),
        14 => Ok(too_many(script, command)),
        _ => Ok(None),
    }
}

/// That the number of a declaration is not the next one.
fn order_objection(script: &Script, command: &Command) -> Option<Objection>
    ensures { result ≡ order_objection script.now command.now }
{
    let (of, next) = match command {
        Command::Runner { .. } => (Thing::Runner, script.runners.len()),
        Command::Queue { .. } => (Thing::Queue, script.queues.len()),
        Command::Task { .. } => (Thing::Task, script.tasks.len()),
        Command::Job { .. } => (Thing::Job, script.jobs.len()),
        _ => return None,
    };
    Some(at(
        2,
        Complaint::OutOfOrder {
            of,
            next: next as u64,
        },
    ))
}

/// That the command names something that is not declared.
fn undeclared_in(script: &Script, command: &Command) -> Option<Objection>
    ensures { result ≡ undeclared_in script.now command.now }
{
    match command {
        Command::Runner { runner, .. } => kind_objection(script, runner.kind),
        Command::Task { task, .. } => {
            first_step(script, Question::Declared, task.steps.as_slice(), 3)
        }
        Command::Job { job, .. } => {
            first_step(script, Question::Declared, job.steps.as_slice(), 7)
        }
        Command::Act { action } => undeclared_act(script, action),
        _ => None,
    }
}

/// That a runner is for a worker seat that there is not.
fn kind_objection(script: &Script, kind: RunnerKind) -> Option<Objection>
    ensures { result ≡ kind_objection script.now kind }
{
    match kind {
        RunnerKind::Single(_) => Some(at(
            3,
            Complaint::NoSeat {
                workers: u64::from(script.workers),
            },
        )),
        _ => None,
    }
}

/// That an action names something that is not declared.
fn undeclared_act(script: &Script, action: &Action) -> Option<Objection>
    ensures { result ≡ undeclared_act script.now action.now }
{
    match *action {
        Action::Post { .. } | Action::Main { .. } => {
            first_step(script, Question::Declared, &[posting_of(action)?], 1)
        }
        Action::Reprio { .. } => Some(at(2, none_of(Thing::Runner, script.runners.len()))),
        Action::Vote { queue, .. } => Some(voter_objection(script, queue)),
        Action::Fence { .. }
        | Action::Unfence { .. }
        | Action::Rank { .. }
        | Action::Close { .. } => { Some(at(2, none_of(Thing::Queue, script.queues.len()))) }
        Action::StartJob { .. } | Action::Join { .. } | Action::Cancel { .. } => {
            Some(at(2, none_of(Thing::Job, script.jobs.len())))
        }
        _ => None,
    }
}

/// That a queue is not declared, or has no such voter.
fn voter_objection(script: &Script, queue: QueueId) -> Objection
    ensures { result ≡ voter_objection script.now queue }
{
    match script.queues.at(queue as usize) {
        None => at(2, none_of(Thing::Queue, script.queues.len())),
        Some(declared) => at(
            3,
            Complaint::NoVoter {
                voters: u64::from(declared.voters),
            },
        ),
    }
}

/// The step that posts what an action posts.
fn posting_of(action: &Action) -> Option<Step>
    ensures { result ≡ posting_of action.now }
{
    match *action {
        Action::Post {
            task,
            runner,
            delay,
        } => Some(Step::Post {
            task,
            runner,
            delay,
        }),
        Action::Main { task, queue, delay } => Some(Step::Main { task, queue, delay }),
        _ => None,
    }
}

/// That the command posts a task that is posted before. The error is want of memory.
fn is_posted_twice(
    alloc: Global,
    script: &Script,
    front: &[u8],
    command: &Command,
) -> Result<Option<Objection>, AllocError>
    requires { length front.now ≤ 4294967294 }
    ensures { IfOk result (λ objection. objection ≡ is_posted_twice script.now front.now command.now) }
{
    let Some((place, task)) = posted_place(script, command) else {
        return Ok(None);
    };
    let line = first_line(alloc, front, Sought::Posts { task })?;
    Ok(Some(at(place, Complaint::PostedTwice { task, line })))
}

/// The place of a task that the command posts, and that is posted before, and the task.
fn posted_place(script: &Script, command: &Command) -> Option<(usize, TaskId)>
    ensures { result ≡ posted_place script.now command.now }
{
    match command {
        Command::Task { task, .. } => posted_again(script, task.steps.as_slice(), 3),
        Command::Job { job, .. } => posted_again(script, job.steps.as_slice(), 7),
        Command::Act { action } => posted_again(script, &[posting_of(action)?], 1),
        _ => None,
    }
}

/// That the command declares after an action, or configures after a declaration. The error is want of memory.
fn is_late(alloc: Global, front: &[u8], command: &Command) -> Result<Option<Objection>, AllocError>
    requires { length front.now ≤ 4294967294 }
    ensures { IfOk result (λ objection. objection ≡ is_late front.now command.now) }
{
    let declared = if is_declaration(command) {
        None
    } else {
        first_line(alloc, front, Sought::Declares)?
    };
    if declared.is_some() {
        return Ok(Some(late_at(false, declared)));
    }
    let line = first_line(alloc, front, Sought::Acts)?;
    Ok(Some(late_at(true, line)))
}

/// That a line stands after an action, or after a declaration.
fn late_at(action: bool, line: Option<u32>) -> Objection
    ensures { result ≡ late_at action line }
{
    at(1, Complaint::Late { action, line })
}

/// Whether a command declares something.
fn is_declaration(command: &Command) -> bool
    ensures { result ≡ is_declaration command.now }
{
    matches!(
        command,
        Command::Runner { .. } | Command::Queue { .. } | Command::Task { .. } | Command::Job { .. }
    )
}

/// That scopes do not open and close in turn, or that a task is posted where it must not block.
fn bad_block(script: &Script, command: &Command) -> Option<Objection>
    ensures { result ≡ bad_block script.now command.now }
{
    match command {
        Command::Task { task, .. } => block_in(script, task.steps.as_slice(), 3),
        Command::Job { job, .. } => {
            first_step(script, Question::Blocking, job.steps.as_slice(), 7)
        }
        Command::Act { action } => {
            first_step(script, Question::Blocking, &[posting_of(action)?], 1)
        }
        _ => None,
    }
}

/// That a step of a job does not compute, or that a job is started before, or is not. The error is want of memory.
fn is_start_wrong(
    alloc: Global,
    script: &Script,
    front: &[u8],
    command: &Command,
) -> Result<Option<Objection>, AllocError>
    requires { length front.now ≤ 4294967294 }
    ensures { IfOk result (λ objection. objection ≡ is_start_wrong script.now front.now command.now) }
{
    match command {
        Command::Job { job, .. } => Ok(first_step(
            script,
            Question::Computing,
            job.steps.as_slice(),
            7,
        )),
        Command::Act {
            action: Action::StartJob { job },
        } => Ok(Some(started_before(alloc, front, *job)?)),
        Command::Act {
            action: Action::Join { job } | Action::Cancel { job },
        } => Ok(Some(at(2, Complaint::NotStarted { job: *job }))),
        _ => Ok(None),
    }
}

/// That the job is started before. The error is want of memory.
fn started_before(alloc: Global, front: &[u8], job: JobId) -> Result<Objection, AllocError>
    requires { length front.now ≤ 4294967294 }
    ensures { IfOk result (λ objection. objection ≡ started_before front.now job) }
{
    let line = first_line(alloc, front, Sought::Starts { job })?;
    Ok(at(2, Complaint::StartedBefore { job, line }))
}

/// That the command stands before. The error is want of memory.
fn stands_before(
    alloc: Global,
    front: &[u8],
    command: &Command,
) -> Result<Option<Objection>, AllocError>
    requires { length front.now ≤ 4294967294 }
    ensures { IfOk result (λ objection. objection ≡ stands_before front.now command.now) }
{
    let Some(sought) = once(command) else {
        return Ok(None);
    };
    let line = first_line(alloc, front, sought)?;
    Ok(Some(at(1, Complaint::StandsBefore { line })))
}

/// What is looked for that may stand once, as this command.
fn once(command: &Command) -> Option<Sought>
    ensures { result ≡ once command.now }
{
    match command {
        Command::Workers { .. } => Some(Sought::Workers),
        Command::Groups { .. } => Some(Sought::Groups),
        Command::Threshold { .. } => Some(Sought::Threshold),
        Command::Act {
            action: Action::Shutdown,
        } => Some(Sought::ShutsDown),
        _ => None,
    }
}

/// That with the command a limit is passed.
fn too_many(script: &Script, command: &Command) -> Option<Objection>
    requires valid { IsValid script.now }
    requires sound { IsSound script.now }
    ensures { result ≡ too_many script.now command.now }
{
    let of = limit_passed(script, command);
    let most = most_of(of) as u64;
    Some(at(1, Complaint::TooMany { of, most }))
}
