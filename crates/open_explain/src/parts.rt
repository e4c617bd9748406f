//! Why a seat may not make the call of an entry. What is asked for last is not looked at: where all before it holds, it fails.
ghost use Rattle.std.specs.Prelude.{◌≡◌, ℕ, IfSome, List, if◌then◌else◌, length, nat_lt};
ghost use Rattle.std.specs.List.{list_any};
ghost use Rattle.task_base.specs.Plan.{opened};
ghost use Rattle.task_base.specs.declared.entry.Entry.{Entry as AnyEntry};
ghost use Rattle.script_model.specs.Draft.{may_block_on};
ghost use Rattle.task_model.specs.Phase.{phase_of};
ghost use Rattle.hist_model.specs.Open.{is_done, is_kept, is_post_within, posts_task, step_posts, was_posted};
ghost use Rattle.next_entry.specs.declared.open_cause.Part.{Part as AnyPart};
ghost use Rattle.open_explain.specs.Parts.{busy_part, declared_part, driving_part, end_part, enter_part, leave_part};
ghost use Rattle.open_explain.specs.Parts.{main_end_part, named_part, part_of, post_part, take_part, task_part};

use next_entry::{Part, Runs, holding, running};
use task_base::{
    Entry, JobId, Kind, MOST_MICROSECONDS, RunnerId, Script, SeatNo, Step, Task, TaskId,
};

/// The first thing that the call of an entry asks for and that fails, where one does, and where shutdown is done or not.
pub(crate) fn part_of(script: &Script, past: &[Entry], done: bool, entry: &Entry) -> Part
    requires { done ≡ is_done (phase_of past.now) }
    ensures { IfSome (part_of (opened script.now) past.now entry.now.seat entry.now.kind) (λ part. result ≡ part) }
{
    let seat = entry.seat;
    match entry.kind {
        Kind::Post {
            task,
            runner,
            delay,
            ..
        } => post_part(
            script,
            past,
            task,
            Kind::Post {
                task,
                runner,
                delay,
                ok: true,
            },
        ),
        Kind::Main {
            task,
            queue,
            delay,
            ..
        } => post_part(
            script,
            past,
            task,
            Kind::Main {
                task,
                queue,
                delay,
                ok: true,
            },
        ),
        Kind::Tick { .. } => Part::IsDone,
        Kind::Take { .. } => take_part(script, past, seat),
        Kind::End { .. } => end_part(past, seat),
        Kind::Enter { .. } => enter_part(script, past, seat),
        Kind::Leave { .. } => leave_part(past, seat),
        Kind::MainEnd { .. } => main_end_part(past),
        Kind::JobTake { .. } if seat > 0 => take_part(script, past, seat),
        Kind::JobStep { .. } => Part::HoldsNothing,
        kind => driving_part(script, past, done, &kind),
    }
}

/// Why the task may not be posted by this entry.
fn post_part(script: &Script, past: &[Entry], task: TaskId, kind: Kind) -> Part
    ensures { (seat : ℕ) → IfSome (post_part (opened script.now) past.now seat task kind) (λ part. result ≡ part) }
{
    if !is_post_within(script, kind) {
        return Part::Undeclared;
    }
    if was_posted(past, task) {
        return Part::PostedBefore { task };
    }
    if is_kept(script, task) {
        return Part::OfStep { task };
    }
    Part::NoPoster
}

/// Whether a post names what is declared, and its delay is in its range.
fn is_post_within(script: &Script, kind: Kind) -> bool
    ensures { result ≡ is_post_within script.now kind }
{
    match kind {
        Kind::Post {
            task,
            runner,
            delay,
            ..
        } => {
            (task as usize) < script.tasks.len()
                && (runner as usize) < script.runners.len()
                && delay <= MOST_MICROSECONDS
        }
        Kind::Main {
            task,
            queue,
            delay,
            ..
        } => {
            (task as usize) < script.tasks.len()
                && (queue as usize) < script.queues.len()
                && delay <= MOST_MICROSECONDS
        }
        _ => false,
    }
}

/// Whether a task was posted, accepted or refused.
#[tactic(auto, unfolding(hist_model::specs::Open::was_posted))]
fn was_posted(past: &[Entry], task: TaskId) -> bool
    ensures { result ≡ was_posted past.now task }
{
    past.iter().any(|entry| posts_task(task, &entry.kind))
}

/// Whether the entry posts the task.
fn posts_task(task: TaskId, kind: &Kind) -> bool
    ensures { result ≡ posts_task task kind.now }
{
    match *kind {
        Kind::Post { task: posted, .. } | Kind::Main { task: posted, .. } => posted == task,
        _ => false,
    }
}

/// Whether a step of some task posts the task.
fn is_kept(script: &Script, task: TaskId) -> bool
    ensures { result ≡ is_kept script.now task }
{
    script
        .tasks
        .as_slice()
        .iter()
        .any(|other| has_post(other, task))
}

/// Whether a step of this task posts the task.
fn has_post(other: &Task, task: TaskId) -> bool
    ensures { result ≡ list_any (step_posts task) other.now }
{
    other
        .steps
        .as_slice()
        .iter()
        .any(|step| step_posts(task, step))
}

/// Whether the step posts the task.
fn step_posts(task: TaskId, step: &Step) -> bool
    ensures { result ≡ step_posts task step.now }
{
    match *step {
        Step::Post { task: posted, .. } | Step::Main { task: posted, .. } => posted == task,
        _ => false,
    }
}

/// Why the seat may not ask for work.
fn take_part(script: &Script, past: &[Entry], seat: SeatNo) -> Part
    ensures { IfSome (take_part (opened script.now) past.now seat) (λ part. result ≡ part) }
{
    if seat == 0 {
        return Part::DriverTakes;
    }
    if seat >= script.workers {
        return Part::GuestTakes;
    }
    busy_part(past, seat).unwrap_or(Part::RunsNothing)
}

/// What the seat is at work with.
fn busy_part(past: &[Entry], seat: SeatNo) -> Option<Part>
    ensures { result ≡ busy_part past.now seat }
{
    match running(past, seat) {
        Some(work) => Some(Part::Runs { task: work.task }),
        None => Some(Part::Holds {
            job: holding(past, seat)?.job,
        }),
    }
}

/// Why the seat may not end a task of the pool.
fn end_part(past: &[Entry], seat: SeatNo) -> Part
    ensures { IfSome (task_part (end_part past.now) past.now seat) (λ part. result ≡ part) }
{
    match running(past, seat) {
        None => Part::RunsNothing,
        Some(
            Runs {
                task,
                is_main: true,
                ..
            },
        ) => Part::IsMain { task },
        Some(Runs { task, .. }) => Part::ScopeOpen { task },
    }
}

/// Why the seat may not open a scope.
fn enter_part(script: &Script, past: &[Entry], seat: SeatNo) -> Part
    ensures { IfSome (task_part (enter_part (opened script.now) past.now) past.now seat) (λ part. result ≡ part) }
{
    match running(past, seat) {
        None => Part::RunsNothing,
        Some(
            Runs {
                task,
                is_main: true,
                ..
            },
        ) => Part::IsMain { task },
        Some(Runs { task, home, .. }) => {
            if may_block_on(script, home) {
                Part::ScopeOpen { task }
            } else {
                Part::MayNotBlock { task }
            }
        }
    }
}

/// Whether the tasks of a runner may open scopes.
fn may_block_on(script: &Script, runner: RunnerId) -> bool
    ensures { result ≡ may_block_on script.now.runners runner }
{
    match script.runners.at(runner as usize) {
        Some(runner) => runner.traits.may_block,
        None => false,
    }
}

/// Why the seat may not close a scope.
fn leave_part(past: &[Entry], seat: SeatNo) -> Part
    ensures { IfSome (task_part (leave_part past.now) past.now seat) (λ part. result ≡ part) }
{
    match running(past, seat) {
        None => Part::RunsNothing,
        Some(
            Runs {
                task,
                is_main: true,
                ..
            },
        ) => Part::IsMain { task },
        Some(Runs { task, .. }) => Part::NoScope { task },
    }
}

/// Why the driver may not end a main task.
fn main_end_part(past: &[Entry]) -> Part
    ensures { IfSome (task_part (main_end_part past.now) past.now 0) (λ part. result ≡ part) }
{
    match running(past, 0) {
        None => Part::RunsNothing,
        Some(
            Runs {
                task,
                is_main: true,
                ..
            },
        ) => Part::ScopeOpen { task },
        Some(Runs { task, .. }) => Part::IsPool { task },
    }
}

/// Why a call of the driver may not be made.
fn driving_part(script: &Script, past: &[Entry], done: bool, kind: &Kind) -> Part
    requires { done ≡ is_done (phase_of past.now) }
    ensures { IfSome (driving_part (opened script.now) past.now kind.now) (λ part. result ≡ part) }
{
    if done {
        return Part::IsDone;
    }
    busy_part(past, 0).unwrap_or(named_part(script, kind))
}

/// Why it may not, by what it names.
fn named_part(script: &Script, kind: &Kind) -> Part
    ensures { (past : List AnyEntry) → IfSome (named_part (opened script.now) past kind.now) (λ part. result ≡ part) }
{
    match *kind {
        Kind::JobPost { job, .. } => job_part(script, job, Part::JobPostedBefore { job }),
        Kind::JobCancel { job } | Kind::Joined { job, .. } => {
            job_part(script, job, Part::JobUnposted { job })
        }
        Kind::Cancelled { job } => job_part(script, job, Part::NotCancelled { job }),
        Kind::Shutdown => Part::StartedBefore,
        Kind::Done => Part::NotStarted,
        _ => Part::Undeclared,
    }
}

/// That the job is not declared, or else this.
fn job_part(script: &Script, job: JobId, part: Part) -> Part
    ensures { result ≡ (if nat_lt job (length script.now.jobs) then part else AnyPart.Undeclared) }
{
    if (job as usize) < script.jobs.len() {
        part
    } else {
        Part::Undeclared
    }
}
