//! Who waits in the line after an entry.
ghost use Rattle.std.specs.Prelude.{◌≡◌, ℕ, ◌+◌, ◌^◌, ◌<◌, IfOk, [], ◌∷◌, filter, map, nat_le, if◌then◌else◌, ◌&&◌, ◌==◌, not, is_none};
ghost use Rattle.log_count.specs.After.{claims_after, is_open_after, line_after};
ghost use Rattle.log_count.specs.Parts.{claimed_in, reply_in};
ghost use Rattle.situation.specs.Onward.{coming, stays, task_stays, waiter_of_unripe};
ghost use Rattle.situation_steps.specs.Waits.{waiter_by};
ghost use Rattle.task_model.specs.Phase.{phase_after};
ghost use Rattle.task_model.specs.Refusal.{effective_at};
ghost use Rattle.task_traits.specs.Behaviour.{forbids};

use crate::jobs::{claims_after, is_open_after};
use crate::kinds::{cancels, phase_after, takes};
use situation_steps::{Situation, Unripe, Waiter, Waits, behaviour_of_job, effective_at, items_of};
use std::alloc::{AllocError, Global};
use task_base::{JobId, Kind, Phase, RunnerId, Script, TaskId};
use task_traits::forbids;

/// Whether a task stays where it is: the entry doesn't take it, and the phase after it doesn't forbid it.
pub(crate) fn task_stays(
    script: &Script,
    phase: Phase,
    kind: Kind,
    task: TaskId,
    home: RunnerId,
    delay: u64,
) -> bool
    ensures { result ≡ task_stays script.now phase kind task home delay }
{
    !takes(task, kind) && !forbids(phase, effective_at(script, home, delay))
}

/// Whether who waits stays in the line at an entry.
fn stays(script: &Script, s: &Situation, kind: Kind, waiter: Waiter) -> bool
    requires { (job : ℕ) → claimed_in s.now job + 1 < 2 ^ 32 }
    ensures { result ≡ stays script.now (phase_after s.now.phase kind) (claims_after s.now kind) kind waiter }
{
    let phase = phase_after(s.phase, kind);
    match waiter.waits {
        Waits::Task { task, home, delay } => task_stays(script, phase, kind, task, home, delay),
        Waits::OfJob(job) => {
            !cancels(job, kind)
                && !forbids(phase, behaviour_of_job(script, job))
                && claims_after(s, kind, job) < items_of(script, job)
        }
    }
}

/// Who stays in the line at an entry. The error is out of memory.
fn staying(
    alloc: Global,
    script: &Script,
    s: &Situation,
    kind: Kind,
) -> Result<Vec<Waiter>, AllocError>
    requires { (job : ℕ) → claimed_in s.now job + 1 < 2 ^ 32 }
    ensures { IfOk result (λ line. line.items ≡ filter (stays script.now (phase_after s.now.phase kind) (claims_after s.now kind) kind) s.now.line) }
{
    s.line
        .iter()
        .copied()
        .filter(|waiter| stays(script, s, kind, *waiter))
        .collect(alloc)
}

/// A task that was not ripe, as it waits in the line.
fn waiter_of_unripe(u: Unripe) -> Waiter
    ensures { result ≡ waiter_of_unripe u }
{
    Waiter {
        waits: Waits::Task {
            task: u.task,
            home: u.home,
            delay: u.delay,
        },
    }
}

/// The tasks that are ripe at a moment, as they wait in the line. The error is out of memory.
fn ripened(alloc: Global, unripe: &[Unripe], now: u64) -> Result<Vec<Waiter>, AllocError>
    ensures { IfOk result (λ line. line.items ≡ map waiter_of_unripe (filter (λ u. nat_le u.ripe now) unripe.now)) }
{
    unripe
        .iter()
        .copied()
        .filter(|u| u.ripe <= now)
        .map(|u| waiter_of_unripe(u))
        .collect(alloc)
}

/// A line of one, or an empty one. The error is out of memory.
fn line_of(alloc: Global, comes: bool, waits: Waits) -> Result<Vec<Waiter>, AllocError>
    ensures { IfOk result (λ line. line.items ≡ (if comes then waiter_by waits ∷ [] else [])) }
{
    let mut line = Vec::new(alloc);
    if comes {
        line.push(Waiter { waits })?;
    }
    Ok(line)
}

/// Whether a post is accepted of a task that waits in the line from then on.
fn is_ready(script: &Script, phase: Phase, runner: RunnerId, delay: u64, ok: bool) -> bool
    ensures { result ≡ (ok && (delay == 0 && not (forbids phase (effective_at script.now runner delay)))) }
{
    ok && delay == 0 && !forbids(phase, effective_at(script, runner, delay))
}

/// Whether a job comes into the line as it is posted.
fn is_entering(script: &Script, s: &Situation, kind: Kind, job: JobId, ok: bool) -> bool
    requires { claimed_in s.now job + 1 < 2 ^ 32 }
    ensures { result ≡ (is_none (reply_in s.now job) && ok && is_open_after script.now s.now kind job) }
{
    s.reply(job).is_none() && ok && is_open_after(script, s, kind, job)
}

/// Who comes into the line at an entry. The error is out of memory.
fn coming(
    alloc: Global,
    script: &Script,
    s: &Situation,
    kind: Kind,
) -> Result<Vec<Waiter>, AllocError>
    requires { (job : ℕ) → claimed_in s.now job + 1 < 2 ^ 32 }
    ensures { IfOk result (λ line. line.items
        ≡ coming script.now (phase_after s.now.phase kind) (is_open_after script.now s.now kind) (reply_in s.now) s.now.unripe kind) }
{
    match kind {
        Kind::Post {
            task,
            runner,
            delay,
            ok,
        } => {
            let comes = is_ready(script, phase_after(s.phase, kind), runner, delay, ok);
            line_of(
                alloc,
                comes,
                Waits::Task {
                    task,
                    home: runner,
                    delay,
                },
            )
        }
        Kind::JobPost { job, ok } => {
            let comes = is_entering(script, s, kind, job, ok);
            line_of(alloc, comes, Waits::OfJob(job))
        }
        Kind::Tick { now } => ripened(alloc, s.unripe.as_slice(), now),
        _ => Ok(Vec::new(alloc)),
    }
}

/// Who waits in the line after an entry. The error is out of memory.
pub(crate) fn line_after(
    alloc: Global,
    script: &Script,
    s: &Situation,
    kind: Kind,
) -> Result<Vec<Waiter>, AllocError>
    requires { (job : ℕ) → claimed_in s.now job + 1 < 2 ^ 32 }
    ensures { IfOk result (λ line. line.items ≡ line_after script.now s.now kind) }
{
    let mut line = staying(alloc, script, s, kind)?;
    let more = coming(alloc, script, s, kind)?;
    line.extend_from_slice(&more)?;
    Ok(line)
}
