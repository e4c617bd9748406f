//! The situation of a script at its start.
ghost use Rattle.std.specs.Prelude.{◌≡◌, ◌+◌, ◌^◌, ◌<◌, IfOk, [], length, map};
ghost use Rattle.std.specs.List.{range_with_len};
ghost use Rattle.script_model.specs.Laws.Sound.{IsSound};
ghost use Rattle.situation.specs.Situation.{situation_of};
ghost use Rattle.situation_after.specs.Begins.{free_seat, start_of, unposted_job};
ghost use Rattle.task_model.specs.Capacity.{declared_priority};
ghost use Rattle.task_model.specs.Seats.{all_seats};

use crate::driver::driver_of;
use situation_steps::{JobAt, SeatAt, Situation, declared_priority};
use std::alloc::{AllocError, Global};
use task_base::{Phase, Policy, Priority, Script};

/// A seat that does nothing.
fn free_seat() -> SeatAt
    ensures { result ≡ free_seat }
{
    SeatAt {
        runs: None,
        acts: 0,
        taken: None,
        scope: None,
        behaviour: None,
        job: None,
    }
}

/// A job that was not posted.
fn unposted_job() -> JobAt
    ensures { result ≡ unposted_job }
{
    JobAt {
        reply: None,
        cancelled: false,
        claims: 0,
    }
}

/// The priority that the script declares for each runner. The error is out of memory.
fn declared_priorities(alloc: Global, script: &Script) -> Result<Vec<Priority>, AllocError>
    requires { length script.now.runners < 2 ^ 32 }
    ensures { IfOk result (λ found. found.items ≡ map (declared_priority script.now) (range_with_len 0 (length script.now.runners))) }
{
    let runners = script.runners.len() as u32;
    (0..runners)
        .map(|runner| declared_priority(script, runner))
        .collect(alloc)
}

/// All seats, doing nothing. The error is out of memory.
fn free_seats(alloc: Global, script: &Script) -> Result<Vec<SeatAt>, AllocError>
    requires { script.now.workers + 1 < 2 ^ 32 }
    ensures { IfOk result (λ found. found.items ≡ map (λ seat. free_seat) (all_seats script.now)) }
{
    (0..script.workers + 1).map(|_| free_seat()).collect(alloc)
}

/// All jobs, not posted. The error is out of memory.
fn unposted_jobs(alloc: Global, script: &Script) -> Result<Vec<JobAt>, AllocError>
    ensures { IfOk result (λ found. found.items ≡ map (λ job. unposted_job) (range_with_len 0 (length script.now.jobs))) }
{
    (0..script.jobs.len())
        .map(|_| unposted_job())
        .collect(alloc)
}

/// The cell of each runner, with nothing left in it. The error is out of memory.
fn empty_cells(alloc: Global, script: &Script) -> Result<Vec<u64>, AllocError>
    ensures { IfOk result (λ found. found.items ≡ map (λ runner. 0) (range_with_len 0 (length script.now.runners))) }
{
    (0..script.runners.len()).map(|_| 0).collect(alloc)
}

/// The situation of a script at its start, by its parts. The error is out of memory.
fn start_of(alloc: Global, script: &Script) -> Result<Situation, AllocError>
    requires workers { script.now.workers + 1 < 2 ^ 32 }
    requires runners { length script.now.runners < 2 ^ 32 }
    ensures { IfOk result (λ first. first ≡ start_of script.now) }
{
    let priorities = declared_priorities(alloc, script)?;
    let seats = free_seats(alloc, script)?;
    let jobs = unposted_jobs(alloc, script)?;
    let cells = empty_cells(alloc, script)?;
    Ok(Situation {
        driver: driver_of(script.actions.as_slice()),
        moment: 0,
        phase: Phase::Running,
        policy: Policy::All,
        priorities,
        seats,
        line: Vec::new(alloc),
        unripe: Vec::new(alloc),
        jobs,
        cells,
        blocks: 0,
        skips: 0,
    })
}

/// The situation of a sound script at its start. The error is out of memory.
#[tactic(auto, using(crate::proofs::Begins::starts_so))]
pub fn start(alloc: Global, script: &Script) -> Result<Situation, AllocError>
    requires { IsSound script.now }
    ensures { IfOk result (λ first. first ≡ situation_of script.now []) }
{
    start_of(alloc, script)
}
