//! The cells of runners, and what shutdown waits for, after an entry.
ghost use Rattle.std.specs.Prelude.{◌≡◌, ◌≤◌, ◌+◌, ◌^◌, ◌<◌};
ghost use Rattle.list_laws.specs.Lists.{holds_of};
ghost use Rattle.log_count.specs.After.{blocks_after, cell_by, skips_after};
ghost use Rattle.log_count.specs.Parts.{runs_in};
ghost use Rattle.pool_laws.specs.Room.{share};
ghost use Rattle.task_model.specs.Blockers.{is_block, is_skip};
ghost use Rattle.task_model.specs.Seats.{runs_of};

use crate::seats::behaviour_of_taken;
use situation_steps::{Running, Situation, effective_at, sequence_of};
use task_base::{Behaviour, Kind, Script, SeatNo};

/// Whether a task that runs is of a sequence.
fn runs_of(script: &Script, sequence: usize, w: Running) -> bool
    ensures { result ≡ runs_of script.now sequence w }
{
    !w.is_main && sequence_of(script, w.home, w.task) == sequence
}

/// Whether a seat runs a task of a sequence.
fn seat_runs(script: &Script, s: &Situation, seat: SeatNo, sequence: usize) -> bool
    ensures { result ≡ holds_of (runs_of script.now sequence) (runs_in s.now seat) }
{
    match s.runs(seat) {
        None => false,
        Some(w) => runs_of(script, sequence, w),
    }
}

/// The cell of a runner after an entry of this seat.
pub(crate) fn cell_by(script: &Script, s: &Situation, by: SeatNo, kind: Kind, runner: usize) -> u64
    ensures { result ≡ cell_by script.now s.now by kind runner }
{
    match kind {
        Kind::End { left, .. } => {
            if seat_runs(script, s, by, runner) {
                left
            } else {
                s.cell(runner)
            }
        }
        _ => s.cell(runner),
    }
}

/// One where a test holds.
fn share(holds: bool) -> u32
    ensures share { result ≡ share holds }
    ensures few { result ≤ 1 }
{
    if holds { 1 } else { 0 }
}

/// Whether a behaviour blocks shutdown.
fn is_block(behaviour: Behaviour) -> bool
    ensures { result ≡ is_block behaviour }
{
    matches!(behaviour, Behaviour::BlockShutdown)
}

/// Whether a behaviour is skipped on shutdown.
fn is_skip(behaviour: Behaviour) -> bool
    ensures { result ≡ is_skip behaviour }
{
    matches!(behaviour, Behaviour::SkipOnShutdown)
}

/// Whether there is a behaviour and it blocks shutdown.
fn is_block_of(behaviour: Option<Behaviour>) -> bool
    ensures { result ≡ holds_of is_block behaviour }
{
    match behaviour {
        None => false,
        Some(behaviour) => is_block(behaviour),
    }
}

/// Whether there is a behaviour and it is skipped on shutdown.
fn is_skip_of(behaviour: Option<Behaviour>) -> bool
    ensures { result ≡ holds_of is_skip behaviour }
{
    match behaviour {
        None => false,
        Some(behaviour) => is_skip(behaviour),
    }
}

/// The block tasks that have not ended, after an entry of this seat.
pub(crate) fn blocks_after(script: &Script, s: &Situation, by: SeatNo, kind: Kind) -> u32
    requires { s.now.blocks + 1 < 2 ^ 32 }
    ensures { result ≡ blocks_after script.now s.now by kind }
{
    match kind {
        Kind::Post {
            runner,
            delay,
            ok: true,
            ..
        } => s.blocks + share(is_block(effective_at(script, runner, delay))),
        Kind::End { .. } => s.blocks.saturating_sub(share(is_block_of(s.behaviour(by)))),
        _ => s.blocks,
    }
}

/// The skip tasks that run, after an entry of this seat.
pub(crate) fn skips_after(script: &Script, s: &Situation, by: SeatNo, kind: Kind) -> u32
    requires { s.now.skips + 1 < 2 ^ 32 }
    ensures { result ≡ skips_after script.now s.now by kind }
{
    match kind {
        Kind::Take { task, runner, .. } => {
            s.skips + share(is_skip_of(behaviour_of_taken(script, s, task, runner)))
        }
        Kind::End { .. } => s.skips.saturating_sub(share(is_skip_of(s.behaviour(by)))),
        _ => s.skips,
    }
}
