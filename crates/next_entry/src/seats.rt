//! What a seat runs or holds, looked up in the past.
ghost use Rattle.std.specs.Prelude.{◌≡◌, ◌==◌, ◌<◌, if◌then◌else◌};
ghost use Rattle.std.specs.Option.{option_map};
ghost use Rattle.list_laws.specs.Lists.{holds_of};
ghost use Rattle.task_base.specs.Runners.{sequence_of};
ghost use Rattle.task_model.specs.Seats.{holding, holding_after, running, running_after, runs_of, runs_sequence};
ghost use Rattle.next_entry.specs.Seats.{holding_seen, running_seen};

use past_lookup::is_parallel;
use task_base::{Entry, JobId, Kind, RunnerId, Script, SeatNo, TaskId};

/// A task that a seat runs.
#[derive(Clone, Copy, Debug)]
pub struct Runs {
    pub task: TaskId,
    /// Its runner, or its main queue.
    pub home: u32,
    /// What it found in the cell.
    pub found: u64,
    pub is_main: bool,
}

/// An item of a job that a seat holds.
#[derive(Clone, Copy, Debug)]
pub struct Held {
    pub job: JobId,
    /// The number of the seat inside the job.
    pub id: u32,
    pub item: u32,
}

/// What a seat runs: the task that it took last, until it ends it.
pub fn running(past: &[Entry], seat: SeatNo) -> Option<Runs>
    ensures { option_map running_seen result ≡ running past.now seat }
{
    let mut runs = None;
    for entry in past {
        runs = running_after(runs, seat, entry);
    }
    runs
}

/// What a seat runs after an entry.
fn running_after(now: Option<Runs>, seat: SeatNo, entry: &Entry) -> Option<Runs>
    ensures { option_map running_seen result
        ≡ (if entry.now.seat == seat then running_after (option_map running_seen now) entry.now.kind else option_map running_seen now) }
{
    if entry.seat != seat {
        return now;
    }
    match entry.kind {
        Kind::Take {
            task,
            runner,
            found,
        } => Some(Runs {
            task,
            home: runner,
            found,
            is_main: false,
        }),
        Kind::MainTake { task, queue, found } => Some(Runs {
            task,
            home: queue,
            found,
            is_main: true,
        }),
        Kind::End { .. } | Kind::MainEnd { .. } => None,
        _ => now,
    }
}

/// What a seat holds: the item that it claimed last, until it leaves the job.
pub fn holding(past: &[Entry], seat: SeatNo) -> Option<Held>
    ensures { option_map holding_seen result ≡ holding past.now seat }
{
    let mut held = None;
    for entry in past {
        held = holding_after(held, seat, entry);
    }
    held
}

/// What a seat holds after an entry.
fn holding_after(now: Option<Held>, seat: SeatNo, entry: &Entry) -> Option<Held>
    ensures { option_map holding_seen result
        ≡ (if entry.now.seat == seat then holding_after (option_map holding_seen now) entry.now.kind else option_map holding_seen now) }
{
    if entry.seat != seat {
        return now;
    }
    match entry.kind {
        Kind::JobTake { job, id, item } => Some(Held { job, id, item }),
        Kind::JobStep { job, id, next, .. } => Some(Held {
            job,
            id,
            item: next?,
        }),
        _ => now,
    }
}

/// Whether some seat runs a task of the sequence of this task.
#[tactic(auto, unfolding(task_model::specs::Seats::runs_sequence))]
pub(crate) fn runs_sequence(script: &Script, past: &[Entry], runner: RunnerId, task: TaskId) -> bool
    requires { script.now.workers < u32.MAX }
    ensures { result ≡ runs_sequence script.now past.now (sequence_of script.now runner task) }
{
    let sequence = sequence_of(script, runner, task);
    for seat in 0..script.workers + 1 {
        if runs_of(script, past, sequence, seat) {
            return true;
        }
    }
    false
}

/// Whether the seat runs a task of this sequence.
fn runs_of(script: &Script, past: &[Entry], sequence: usize, seat: SeatNo) -> bool
    ensures { result ≡ holds_of (runs_of script.now sequence) (running past.now seat) }
{
    match running(past, seat) {
        None => false,
        Some(runs) => !runs.is_main && sequence_of(script, runs.home, runs.task) == sequence,
    }
}

/// The sequence of a task on a runner.
fn sequence_of(script: &Script, runner: RunnerId, task: TaskId) -> usize
    ensures { result ≡ sequence_of script.now runner task }
{
    if is_parallel(script, runner) {
        script.runners.len() + task as usize
    } else {
        runner as usize
    }
}
