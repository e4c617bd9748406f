//! What is wrong with a reply, by what stands before it.
ghost use Rattle.std.specs.Prelude.{◌≡◌, ◌≤◌, length};
ghost use Rattle.script_model.specs.Canonical.{IsValid};
ghost use Rattle.reply_lint.specs.Objections.{limit_passed, posted_by, reply_objection, runner_of, too_many, undeclared, undeclared_home};

use crate::earlier::{first_reply, replies_in};
use line_places::Thing;
use lint_text::{Complaint, Limited, Objection, at, none_of};
use script_bound::events_bound;
use task_base::{MOST_EVENTS, MOST_STEPS, RunnerId, Script, TaskId};
use task_reply::{Home, Reply};

/// What is wrong with a reply behind the lines before it, whose bytes these are, by the reason: one of 2 to 5.
pub(crate) fn reply_objection(script: &Script, front: &[u8], reply: &Reply, reason: u8) -> Objection
    requires valid { IsValid script.now }
    requires short { length front.now ≤ 4294967294 }
    ensures { result ≡ reply_objection script.now front.now reply.now reason }
{
    match reason {
        2 => undeclared(script, reply),
        3 => at(3, posted_by(reply.reply, first_reply(front, reply.reply))),
        4 => at(
            3,
            Complaint::MayNotBlock {
                task: reply.reply,
                runner: runner_of(&reply.home),
            },
        ),
        5 => too_many(script, front),
        _ => at(1, Complaint::Breaks { reason }),
    }
}

/// That a task or the home is not declared, or the reply not before the task.
fn undeclared(script: &Script, reply: &Reply) -> Objection
    ensures { result ≡ undeclared script.now reply.now }
{
    let tasks = script.tasks.len();
    if reply.task as usize >= tasks {
        at(2, none_of(Thing::Task, tasks))
    } else if reply.reply as usize >= tasks {
        at(3, none_of(Thing::Task, tasks))
    } else if reply.reply >= reply.task {
        at(3, Complaint::NotBefore { task: reply.task })
    } else {
        at(5, undeclared_home(script, &reply.home))
    }
}

/// That the home is not declared.
fn undeclared_home(script: &Script, home: &Home) -> Complaint
    ensures { result ≡ undeclared_home script.now home.now }
{
    match *home {
        Home::Runner(_) => none_of(Thing::Runner, script.runners.len()),
        Home::Queue(_) => none_of(Thing::Queue, script.queues.len()),
    }
}

/// That the task is posted, by the earlier line of this number, or by the script where there is none.
fn posted_by(task: TaskId, line: Option<u32>) -> Complaint
    ensures { result ≡ posted_by task line }
{
    if line.is_some() {
        Complaint::PostedTwice { task, line }
    } else {
        Complaint::PostedByScript { task }
    }
}

/// The runner, where the home is one.
fn runner_of(home: &Home) -> Option<RunnerId>
    ensures { result ≡ runner_of home.now }
{
    match *home {
        Home::Runner(runner) => Some(runner),
        Home::Queue(_) => None,
    }
}

/// That with one reply more a limit is passed.
fn too_many(script: &Script, front: &[u8]) -> Objection
    requires valid { IsValid script.now }
    requires short { length front.now ≤ 4294967294 }
    ensures { result ≡ too_many script.now front.now }
{
    let (of, most) = limit_passed(script, front);
    at(
        1,
        Complaint::TooMany {
            of,
            most: most as u64,
        },
    )
}

/// What there is too much of with one reply more, each of which is a step and an entry, and how many there may be.
fn limit_passed(script: &Script, front: &[u8]) -> (Limited, usize)
    requires valid { IsValid script.now }
    requires short { length front.now ≤ 4294967294 }
    ensures { result ≡ limit_passed script.now front.now }
{
    if events_bound(script) as usize + replies_in(front) + 1 > MOST_EVENTS {
        (Limited::Entries, MOST_EVENTS)
    } else {
        (Limited::Steps, MOST_STEPS)
    }
}
