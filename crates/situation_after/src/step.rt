//! The situation after an entry.
ghost use Rattle.std.specs.Prelude.{◌≡◌, ℕ, ◌+◌, ◌^◌, ◌<◌, IfOk, length, map, if◌then◌else◌, ◌==◌};
ghost use Rattle.std.specs.List.{range_with_len};
ghost use Rattle.log_count.specs.After.{after_in, cell_by, driver_after, job_known_after, seat_after};
ghost use Rattle.log_count.specs.Parts.{actions_in, acts_in, claimed_in, priority_in};
ghost use Rattle.situation_after.specs.ComesNext.{ComesNext};
ghost use Rattle.situation_after.specs.Counted.{FitsOnward};
ghost use Rattle.task_model.specs.Capacity.{priority_after};
ghost use Rattle.task_model.specs.Seats.{all_seats};

use crate::counts::{blocks_after, cell_by, skips_after};
use crate::driver::driver_after;
use crate::jobs::job_known_after;
use crate::kinds::{now_after, phase_after, policy_after, priority_after};
use crate::line::line_after;
use crate::seats::seat_after;
use crate::unripe::unripe_after;
use situation_steps::{DriverAt, JobAt, SeatAt, Situation};
use std::alloc::{AllocError, Global};
use task_base::{Kind, Priority, Script, SeatNo};

/// Where the driver is after an entry of this seat.
fn driver_by(script: &Script, s: &Situation, by: SeatNo, kind: Kind) -> DriverAt
    requires { s.now.driver.made + 1 < 2 ^ 32 }
    ensures { result ≡ (if by == 0 then driver_after (actions_in script.now s.now) s.now.driver.made kind else s.now.driver) }
{
    if by == 0 {
        driver_after(s.actions_left(script), s.driver.made, kind)
    } else {
        s.driver
    }
}

/// The priority of each runner after an entry. The error is out of memory.
fn priorities_after(
    alloc: Global,
    script: &Script,
    s: &Situation,
    kind: Kind,
) -> Result<Vec<Priority>, AllocError>
    requires { length script.now.runners < 2 ^ 32 }
    ensures { IfOk result (λ found. found.items
        ≡ map (λ runner. priority_after runner (priority_in script.now s.now runner) kind) (range_with_len 0 (length script.now.runners))) }
{
    let runners = script.runners.len() as u32;
    (0..runners)
        .map(|runner| priority_after(runner, s.priority(script, runner), kind))
        .collect(alloc)
}

/// What each seat does after an entry of this seat. The error is out of memory.
fn seats_after(
    alloc: Global,
    script: &Script,
    s: &Situation,
    by: SeatNo,
    kind: Kind,
) -> Result<Vec<SeatAt>, AllocError>
    requires workers { script.now.workers + 1 < 2 ^ 32 }
    requires acts { (seat : ℕ) → acts_in s.now seat + 1 < 2 ^ 32 }
    requires moment { s.now.now + script.now.threshold < 2 ^ 64 }
    ensures { IfOk result (λ found. found.items ≡ map (seat_after script.now s.now by kind) (all_seats script.now)) }
{
    (0..script.workers + 1)
        .map(|seat| seat_after(script, s, by, kind, seat))
        .collect(alloc)
}

/// What is known of each job after an entry. The error is out of memory.
fn jobs_after(
    alloc: Global,
    script: &Script,
    s: &Situation,
    kind: Kind,
) -> Result<Vec<JobAt>, AllocError>
    requires jobs { length script.now.jobs < 2 ^ 32 }
    requires claims { (job : ℕ) → claimed_in s.now job + 1 < 2 ^ 32 }
    ensures { IfOk result (λ found. found.items ≡ map (job_known_after s.now kind) (range_with_len 0 (length script.now.jobs))) }
{
    let jobs = script.jobs.len() as u32;
    (0..jobs)
        .map(|job| job_known_after(s, kind, job))
        .collect(alloc)
}

/// The cell of each runner after an entry of this seat. The error is out of memory.
fn cells_after(
    alloc: Global,
    script: &Script,
    s: &Situation,
    by: SeatNo,
    kind: Kind,
) -> Result<Vec<u64>, AllocError>
    ensures { IfOk result (λ found. found.items ≡ map (cell_by script.now s.now by kind) (range_with_len 0 (length script.now.runners))) }
{
    (0..script.runners.len())
        .map(|runner| cell_by(script, s, by, kind, runner))
        .collect(alloc)
}

/// The situation after an entry of this seat and kind, where the numbers fit. The error is out of memory.
#[tactic(auto, unfolding(log_count::specs::After::after_in))]
fn fitting_after(
    alloc: Global,
    script: &Script,
    s: &Situation,
    seat: SeatNo,
    kind: Kind,
) -> Result<Situation, AllocError>
    requires { FitsOnward script.now s.now kind }
    ensures { IfOk result (λ next. next ≡ after_in script.now s.now seat kind) }
{
    let priorities = priorities_after(alloc, script, s, kind)?;
    let seats = seats_after(alloc, script, s, seat, kind)?;
    let line = line_after(alloc, script, s, kind)?;
    let unripe = unripe_after(alloc, script, s, kind)?;
    let jobs = jobs_after(alloc, script, s, kind)?;
    let cells = cells_after(alloc, script, s, seat, kind)?;
    Ok(Situation {
        driver: driver_by(script, s, seat, kind),
        moment: now_after(s.moment, kind),
        phase: phase_after(s.phase, kind),
        policy: policy_after(s.policy, kind),
        priorities,
        seats,
        line,
        unripe,
        jobs,
        cells,
        blocks: blocks_after(script, s, seat, kind),
        skips: skips_after(script, s, seat, kind),
    })
}

/// The situation after the entry that comes next by this seat, told without the item of a job. The error is out of memory.
pub fn after(
    alloc: Global,
    script: &Script,
    s: &Situation,
    seat: SeatNo,
    kind: Kind,
) -> Result<Situation, AllocError>
    requires { ComesNext script.now s.now seat kind }
    ensures { IfOk result (λ next. next ≡ after_in script.now s.now seat kind) }
{
    fitting_after(alloc, script, s, seat, kind)
}
