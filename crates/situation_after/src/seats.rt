//! What a seat does after an entry.
ghost use Rattle.std.specs.Prelude.{◌≡◌, ◌+◌, ◌^◌, ◌<◌, find, if◌then◌else◌};
ghost use Rattle.std.specs.Option.{option_map};
ghost use Rattle.log_count.specs.After.{behaviour_by, behaviour_of_taken, delay_of_waiter, runs_after, seat_after, taken_by};
ghost use Rattle.log_count.specs.Parts.{acts_in};
ghost use Rattle.situation.specs.Line.{waits_at};
ghost use Rattle.situation.specs.Onward.{from_after, job_after, once_come};
ghost use Rattle.task_base.specs.Groups.{has_come};
ghost use Rattle.task_base.specs.Runners.{sequence_of};
ghost use Rattle.task_base.specs.declared.source.TaskSource.TheVariants.{Sequence};
ghost use Rattle.task_model.specs.Seats.{acts_after, running_after};

use crate::kinds::now_after;
use situation_steps::{Running, SeatAt, Situation, Waiter, Waits, effective_at, sequence_of};
use task_base::{Behaviour, JobId, Kind, Priority, RunnerId, Scope, Script, SeatNo, TaskId};

/// What a seat runs after an entry of its own.
fn running_after(runs: Option<Running>, kind: Kind) -> Option<Running>
    ensures { result ≡ running_after runs kind }
{
    match kind {
        Kind::Take {
            task,
            runner,
            found,
        } => Some(Running {
            task,
            home: runner,
            found,
            is_main: false,
        }),
        Kind::MainTake { task, queue, found } => Some(Running {
            task,
            home: queue,
            found,
            is_main: true,
        }),
        Kind::End { .. } | Kind::MainEnd { .. } => None,
        _ => runs,
    }
}

/// What a seat runs after an entry of this seat.
fn runs_after(s: &Situation, by: SeatNo, kind: Kind, seat: SeatNo) -> Option<Running>
    ensures { result ≡ runs_after s.now by kind seat }
{
    let runs = s.runs(seat);
    if by == seat {
        running_after(runs, kind)
    } else {
        runs
    }
}

/// How many act steps are entered after an entry of the seat's own.
fn acts_after(acts: u32, kind: Kind) -> u32
    requires { acts + 1 < 2 ^ 32 }
    ensures { result ≡ acts_after acts kind }
{
    match kind {
        Kind::Take { .. } | Kind::MainTake { .. } => 0,
        Kind::Post { .. } | Kind::Main { .. } | Kind::Enter { .. } | Kind::Leave { .. } => acts + 1,
        _ => acts,
    }
}

/// The priority that a seat's task is taken with, after an entry of its own.
fn taken_by(script: &Script, s: &Situation, taken: Option<Priority>, kind: Kind) -> Option<Priority>
    ensures { result ≡ taken_by script.now s.now taken kind }
{
    match kind {
        Kind::Take { runner, .. } => Some(s.priority(script, runner)),
        Kind::MainTake { .. } | Kind::End { .. } | Kind::MainEnd { .. } => None,
        _ => taken,
    }
}

/// Whether who waits is a task of a sequence.
fn waits_in(script: &Script, sequence: usize, waiter: Waiter) -> bool
    ensures { result ≡ waits_at script.now (Sequence sequence) waiter }
{
    match waiter.waits {
        Waits::Task { task, home, .. } => sequence_of(script, home, task) == sequence,
        Waits::OfJob(_) => false,
    }
}

/// The delay of a task that waits, in microseconds.
fn delay_of_waiter(waiter: Waiter) -> u64
    ensures { result ≡ delay_of_waiter waiter }
{
    match waiter.waits {
        Waits::Task { delay, .. } => delay,
        Waits::OfJob(_) => 0,
    }
}

/// The first task of a sequence in the line.
fn first_of(script: &Script, sequence: usize, line: &[Waiter]) -> Option<Waiter>
    ensures { result ≡ find (waits_at script.now (Sequence sequence)) line.now }
{
    line.iter()
        .copied()
        .find(|waiter| waits_in(script, sequence, *waiter))
}

/// The behaviour in effect of a task that is taken.
pub(crate) fn behaviour_of_taken(
    script: &Script,
    s: &Situation,
    task: TaskId,
    runner: RunnerId,
) -> Option<Behaviour>
    ensures { result ≡ behaviour_of_taken script.now s.now task runner }
{
    match first_of(script, sequence_of(script, runner, task), s.line.as_slice()) {
        None => None,
        Some(waiter) => Some(effective_at(script, runner, delay_of_waiter(waiter))),
    }
}

/// The behaviour in effect of a seat's task after an entry of its own.
fn behaviour_by(
    script: &Script,
    s: &Situation,
    behaviour: Option<Behaviour>,
    kind: Kind,
) -> Option<Behaviour>
    ensures { result ≡ behaviour_by script.now s.now behaviour kind }
{
    match kind {
        Kind::Take { task, runner, .. } => behaviour_of_taken(script, s, task, runner),
        Kind::MainTake { .. } | Kind::End { .. } | Kind::MainEnd { .. } => None,
        _ => behaviour,
    }
}

/// A moment from which a scope counts, at a later moment: 0 once it has come.
fn once_come(now: u64, from: u64) -> u64
    ensures { result ≡ once_come now from }
{
    if from <= now { 0 } else { from }
}

/// The same, where there is such a moment.
fn still_from(now: u64, from: Option<u64>) -> Option<u64>
    ensures { result ≡ option_map (once_come now) from }
{
    from.map(|moment| once_come(now, moment))
}

/// From which moment a scope counts that is opened, where it is due at this moment.
fn opened_from(scope: Scope, due: u64, now: u64) -> u64
    ensures { result ≡ (if has_come scope due now then 0 else due) }
{
    match scope {
        Scope::Will => 0,
        Scope::May => once_come(now, due),
    }
}

/// From which moment the open scope of a task counts after an entry, with the moments before and after the entry.
fn from_after(
    script: &Script,
    before: u64,
    now: u64,
    task: TaskId,
    from: Option<u64>,
    kind: Kind,
) -> Option<u64>
    requires { before + script.now.threshold < 2 ^ 64 }
    ensures { result ≡ from_after script.now before now task from kind }
{
    match kind {
        Kind::Enter { task: opens, scope } => {
            if opens == task {
                Some(opened_from(scope, before + script.threshold, now))
            } else {
                still_from(now, from)
            }
        }
        Kind::Leave { task: closes } => {
            if closes == task {
                None
            } else {
                still_from(now, from)
            }
        }
        _ => still_from(now, from),
    }
}

/// The job that a seat is inside after an entry of its own.
fn job_after(job: Option<JobId>, kind: Kind) -> Option<JobId>
    ensures { result ≡ job_after job kind }
{
    match kind {
        Kind::JobTake { job, .. } => Some(job),
        Kind::JobStep { job, next, .. } => match next {
            Some(_) => Some(job),
            None => None,
        },
        _ => job,
    }
}

/// What a seat does after an entry of this seat, by what it runs after it.
pub(crate) fn seat_after(
    script: &Script,
    s: &Situation,
    by: SeatNo,
    kind: Kind,
    seat: SeatNo,
) -> SeatAt
    requires acts { acts_in s.now seat + 1 < 2 ^ 32 }
    requires moment { s.now.now + script.now.threshold < 2 ^ 64 }
    ensures { result ≡ seat_after script.now s.now by kind seat }
{
    let own = by == seat;
    let (acts, taken, behaviour, job) = (
        s.acts(seat),
        s.taken(seat),
        s.behaviour(seat),
        s.job(seat),
    );
    let behaviour = if own {
        behaviour_by(script, s, behaviour, kind)
    } else {
        behaviour
    };
    let job = if own { job_after(job, kind) } else { job };
    match runs_after(s, by, kind, seat) {
        None => SeatAt {
            runs: None,
            acts: 0,
            taken: None,
            scope: None,
            behaviour,
            job,
        },
        Some(runs) => SeatAt {
            runs: Some(runs),
            acts: if own { acts_after(acts, kind) } else { acts },
            taken: if own {
                taken_by(script, s, taken, kind)
            } else {
                taken
            },
            scope: from_after(
                script,
                s.moment,
                now_after(s.moment, kind),
                runs.task,
                s.scope(seat),
                kind,
            ),
            behaviour,
            job,
        },
    }
}
