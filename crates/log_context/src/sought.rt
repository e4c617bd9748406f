ghost use Rattle.std.specs.Prelude.{◌≡◌, ◌<◌, ◌^◌, IfOk, List, OnOk, length};
ghost use Rattle.task_base.specs.declared.entry.Entry.{Entry as AnyEntry};
ghost use Rattle.task_model.specs.Posts.{is_ended};
ghost use Rattle.task_model.specs.Refusal.{effective_at};
ghost use Rattle.past_lookup.specs.Posts.{posted};
ghost use Rattle.log_context.specs.Sought.{is_blocking, is_sought, is_waiting, known_after, known_in, known_of, posts_sought, role_of};

use crate::fact::{Fact, Role};
use past_lookup::{Post, is_forbidden, is_taken, key_of, post_of};
use std::alloc::{AllocError, Global};
use task_base::{Behaviour, Entry, Kind, Place, RunnerId, Script, TaskId};
use task_traits::effective;

/// How many tasks at most are shown that the driver waits for.
pub const TASKS_SHOWN: usize = 3;
/// After more entries than these no such task is looked for, and no work is counted, since each look goes through them all.
pub const MOST_SEARCHED: usize = 16_384;

/// Which tasks are looked for.
#[derive(Clone, Copy, Debug)]
pub enum Sought {
    /// Those that wait to be taken.
    Waiting,
    /// Those that block the end of shutdown.
    Blocking,
}

/// The first posts of such tasks; none after more than `MOST_SEARCHED` entries. The error is out of memory.
pub fn known_of(
    alloc: Global,
    script: &Script,
    past: &[Entry],
    sought: Sought,
) -> Result<Vec<Fact>, AllocError>
    requires { length past.now < 2 ^ 32 }
    ensures { IfOk result (λ known. known.items ≡ known_of script.now past.now sought) }
{
    if past.len() > MOST_SEARCHED {
        return Ok(Vec::new(alloc));
    }
    known_in(alloc, script, past, sought)
}

/// The first posts of such tasks. The error is out of memory.
fn known_in(
    alloc: Global,
    script: &Script,
    past: &[Entry],
    sought: Sought,
) -> Result<Vec<Fact>, AllocError>
    requires { length past.now < 2 ^ 32 }
    ensures { IfOk result (λ known. known.items ≡ known_in script.now past.now sought past.now) }
{
    let mut known = Vec::new(alloc);
    let mut place = 0;
    for entry in past {
        add_sought(script, past, sought, place, &mut known, entry)?;
        place += 1;
    }
    Ok(known)
}

/// Adds the entry at this place, where it posts such a task, and few are known. The error is out of memory.
fn add_sought(
    script: &Script,
    past: &[Entry],
    sought: Sought,
    place: Place,
    known: &mut Vec<Fact>,
    entry: &Entry,
) -> Result<(), AllocError>
    requires { length past.now < 2 ^ 32 }
    ensures { OnOk result ((before : List AnyEntry) → place ≡ length before
        → known.new.items ≡ known_after script.now past.now sought before known.old.items entry.now) }
{
    if known.len() < TASKS_SHOWN && posts_sought(script, past, sought, &entry.kind) {
        known.push(Fact::Stands {
            role: role_of(sought),
            place,
            entry: *entry,
        })?;
    }
    Ok(())
}

/// What the post of such a task is to the entry that may not come.
fn role_of(sought: Sought) -> Role
    ensures { result ≡ role_of sought }
{
    match sought {
        Sought::Waiting => Role::Waiting,
        Sought::Blocking => Role::Blocks,
    }
}

/// Whether the entry posts such a task.
fn posts_sought(script: &Script, past: &[Entry], sought: Sought, kind: &Kind) -> bool
    requires { length past.now < 2 ^ 32 }
    ensures { result ≡ posts_sought script.now past.now sought kind.now }
{
    match *kind {
        Kind::Post { task, ok: true, .. } => match post_of(past, task) {
            None => false,
            Some(post) => is_sought(script, past, sought, &post),
        },
        _ => false,
    }
}

/// Whether an accepted task is one that is looked for.
fn is_sought(script: &Script, past: &[Entry], sought: Sought, post: &Post) -> bool
    requires { length past.now < 2 ^ 32 }
    ensures { result ≡ is_sought script.now past.now sought (posted post.now) }
{
    match sought {
        Sought::Waiting => is_waiting(script, past, post),
        Sought::Blocking => is_blocking(script, past, post),
    }
}

/// Whether an accepted task waits to be taken.
fn is_waiting(script: &Script, past: &[Entry], post: &Post) -> bool
    requires { length past.now < 2 ^ 32 }
    ensures { result ≡ is_waiting script.now past.now (posted post.now) }
{
    !is_taken(past, post.task) && !is_forbidden(script, past, post) && key_of(past, post).is_some()
}

/// Whether an accepted task blocks the end of shutdown.
fn is_blocking(script: &Script, past: &[Entry], post: &Post) -> bool
    ensures { result ≡ is_blocking script.now past.now (posted post.now) }
{
    match effective_at(script, post.runner, post.delay) {
        Behaviour::ContinueOnShutdown => false,
        Behaviour::SkipOnShutdown => is_taken(past, post.task) && !is_ended(past, post.task),
        Behaviour::BlockShutdown => !is_ended(past, post.task),
    }
}

/// The behaviour in effect of a task that is posted to a runner with a delay.
fn effective_at(script: &Script, runner: RunnerId, delay: u64) -> Behaviour
    ensures { result ≡ effective_at script.now runner delay }
{
    let behaviour = match script.runners.at(runner as usize) {
        None => Behaviour::ContinueOnShutdown,
        Some(declared) => declared.traits.behaviour,
    };
    effective(behaviour, delay > 0)
}

/// Whether a task of the pool has ended.
#[tactic(auto, unfolding(task_model::specs::Posts::is_ended))]
fn is_ended(past: &[Entry], task: TaskId) -> bool
    ensures { result ≡ is_ended past.now task }
{
    past.iter().any(|entry| match entry.kind {
        Kind::End { task: ended, .. } => ended == task,
        _ => false,
    })
}
