ghost use Rattle.std.specs.Prelude.{◌≡◌, ◌≤◌, cond};
ghost use Rattle.task_base.specs.Groups.{is_best_effort};
ghost use Rattle.task_model.specs.Capacity.{is_blocked};
ghost use Rattle.log_context.specs.Rooms.{counted, counted_by, first_room, is_counted, is_of, most_of, priority_by, room, second_room};

use crate::fact::{Fact, Limit};
use crate::scopes::is_blocked_in;
use crate::sought::MOST_SEARCHED;
use crate::work::{work_at, work_of};
use past_lookup::{job_priority, priority_of};
use task_base::{Entry, Kind, Priority, Script, SeatNo};

/// What runs, and may, of the group of what the entry takes.
pub fn first_room(script: &Script, past: &[Entry], kind: &Kind) -> Option<Fact>
    ensures { result ≡ first_room script.now past.now kind.now }
{
    let priority = counted_by(script, past, kind)?;
    if is_best_effort(priority) && script.background > 0 {
        Some(room(script, past, Limit::Background))
    } else {
        Some(room(script, past, Limit::Foreground))
    }
}

/// The same of best-effort work in a group with other work, where the entry takes such work.
pub fn second_room(script: &Script, past: &[Entry], kind: &Kind) -> Option<Fact>
    ensures { result ≡ second_room script.now past.now kind.now }
{
    let priority = counted_by(script, past, kind)?;
    if is_best_effort(priority) && script.background == 0 {
        Some(room(script, past, Limit::BestEffort))
    } else {
        None
    }
}

/// The priority of what the entry takes, where the past is not too long.
fn counted_by(script: &Script, past: &[Entry], kind: &Kind) -> Option<Priority>
    ensures { result ≡ counted_by script.now past.now kind.now }
{
    if past.len() > MOST_SEARCHED {
        None
    } else {
        priority_by(script, past, kind)
    }
}

/// The priority of what the entry takes.
fn priority_by(script: &Script, past: &[Entry], kind: &Kind) -> Option<Priority>
    ensures { result ≡ priority_by script.now past.now kind.now }
{
    match *kind {
        Kind::Take { runner, .. } => Some(priority_of(script, past, runner)),
        Kind::JobTake { job, .. } => Some(job_priority(script, job)),
        _ => None,
    }
}

/// Whether work of this priority is best-effort work.
fn is_best_effort(priority: Priority) -> bool
    ensures { result ≡ is_best_effort priority }
{
    match priority {
        Priority::BestEffort => true,
        Priority::UserVisible | Priority::UserBlocking => false,
    }
}

/// How much work of a limit runs, and how much may.
fn room(script: &Script, past: &[Entry], limit: Limit) -> Fact
    ensures { result ≡ room script.now past.now limit }
{
    let running = u64::from(counted(script, past, limit, false));
    let blocked = u64::from(counted(script, past, limit, true));
    let most = u64::from(most_of(script, limit)) + blocked;
    Fact::Room {
        limit,
        running,
        most,
    }
}

/// How much work of a limit may run by the script.
fn most_of(script: &Script, limit: Limit) -> u32
    ensures { result ≡ most_of script.now limit }
{
    match limit {
        Limit::Foreground => script.foreground,
        Limit::BestEffort => script.foreground_best,
        Limit::Background => script.background,
    }
}

/// How many workers do work of a limit, or do and are blocked.
fn counted(script: &Script, past: &[Entry], limit: Limit, blocked: bool) -> u32
    ensures { result ≡ counted script.now past.now limit blocked }
{
    let mut count = 0;
    for seat in 0..script.workers {
        count += share(is_counted(script, past, limit, blocked, seat + 1));
    }
    count
}

/// What a test adds to a count.
fn share(passes: bool) -> u32
    ensures share { result ≡ cond passes 1 0 }
    ensures few { result ≤ 1 }
{
    if passes { 1 } else { 0 }
}

/// Whether a seat does work of a limit, or does and is blocked.
fn is_counted(script: &Script, past: &[Entry], limit: Limit, blocked: bool, seat: SeatNo) -> bool
    ensures { result ≡ is_counted script.now past.now limit blocked seat }
{
    if blocked {
        is_blocked(script, past, limit, seat)
    } else {
        match work_at(script, past, seat) {
            None => false,
            Some(priority) => is_of(script, limit, priority),
        }
    }
}

/// Whether a seat runs a task of the pool that is work of a limit, and is blocked in it.
fn is_blocked(script: &Script, past: &[Entry], limit: Limit, seat: SeatNo) -> bool
    ensures { result ≡ is_blocked script.now past.now (is_of script.now limit) seat }
{
    let work = work_of(script, past, seat);
    match (work.task, work.taken) {
        (Some(task), Some(priority)) => {
            is_of(script, limit, priority) && is_blocked_in(script, past, task)
        }
        _ => false,
    }
}

/// Whether work of this priority is of a limit.
fn is_of(script: &Script, limit: Limit, priority: Priority) -> bool
    ensures { result ≡ is_of script.now limit priority }
{
    let best = is_best_effort(priority);
    let in_background = best && script.background > 0;
    match limit {
        Limit::Foreground => !in_background,
        Limit::BestEffort => best && !in_background,
        Limit::Background => in_background,
    }
}
