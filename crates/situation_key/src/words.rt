//! The numbers of the parts of a situation.
ghost use Rattle.std.specs.Prelude.{◌≡◌, ◌≤◌};
ghost use Rattle.pool_laws.specs.Room.{share};
ghost use Rattle.situation_key.specs.Words.{behaviour_number, head_words, job_words, number_if, phase_number, policy_number};
ghost use Rattle.situation_key.specs.Words.{running_words, scope_words, seat_rest_words, unripe_words, waiter_words};
ghost use Rattle.task_base.specs.Groups.{importance};

use situation_steps::{JobAt, Running, SeatAt, Situation, Unripe, Waiter, Waits};
use task_base::{Behaviour, JobId, Phase, Policy, Priority};

/// The number of a phase.
fn phase_number(phase: Phase) -> u64
    ensures { result ≡ phase_number phase }
{
    match phase {
        Phase::Running => 0,
        Phase::Started => 1,
        Phase::Done => 2,
    }
}

/// The number of a policy.
fn policy_number(policy: Policy) -> u64
    ensures { result ≡ policy_number policy }
{
    match policy {
        Policy::All => 0,
        Policy::Foreground => 1,
        Policy::Nothing => 2,
    }
}

/// The number of a behaviour.
fn behaviour_number(behaviour: Behaviour) -> u64
    ensures number { result ≡ behaviour_number behaviour }
    ensures few { result ≤ 2 }
{
    match behaviour {
        Behaviour::ContinueOnShutdown => 0,
        Behaviour::SkipOnShutdown => 1,
        Behaviour::BlockShutdown => 2,
    }
}

/// The number of a priority.
pub(crate) fn importance(priority: Priority) -> u64
    ensures number { result ≡ importance priority }
    ensures few { result ≤ 2 }
{
    match priority {
        Priority::BestEffort => 0,
        Priority::UserVisible => 1,
        Priority::UserBlocking => 2,
    }
}

/// One where it holds.
fn share(holds: bool) -> u64
    ensures number { result ≡ share holds }
    ensures few { result ≤ 1 }
{
    if holds { 1 } else { 0 }
}

/// One more than the number of a priority, and 0 for none.
fn taken_number(taken: Option<Priority>) -> u64
    ensures { result ≡ number_if importance taken }
{
    match taken {
        None => 0,
        Some(priority) => importance(priority) + 1,
    }
}

/// One more than the number of a behaviour, and 0 for none.
fn behaviour_if(behaviour: Option<Behaviour>) -> u64
    ensures { result ≡ number_if behaviour_number behaviour }
{
    match behaviour {
        None => 0,
        Some(behaviour) => behaviour_number(behaviour) + 1,
    }
}

/// One more than the number of a job, and 0 for none.
fn job_if(job: Option<JobId>) -> u64
    ensures { result ≡ number_if (λ n. n) job }
{
    match job {
        None => 0,
        Some(job) => u64::from(job) + 1,
    }
}

/// 0 for no reply, 1 for a refusal, 2 where the post was accepted.
fn reply_number(reply: Option<bool>) -> u64
    ensures { result ≡ number_if share reply }
{
    match reply {
        None => 0,
        Some(ok) => share(ok) + 1,
    }
}

/// The words of a task that a seat runs.
pub(crate) fn running_words(runs: Option<Running>) -> [u64; 4]
    ensures { result ≡ running_words runs }
{
    match runs {
        None => [0, 0, 0, 0],
        Some(w) => [
            u64::from(w.task) + 1,
            u64::from(w.home),
            w.found,
            share(w.is_main),
        ],
    }
}

/// The words of a scope.
pub(crate) fn scope_words(scope: Option<u64>) -> [u64; 2]
    ensures { result ≡ scope_words scope }
{
    match scope {
        None => [0, 0],
        Some(from) => [1, from],
    }
}

/// The words of what a seat has beside the task that it runs and the scope of that.
pub(crate) fn seat_rest_words(seat: SeatAt) -> [u64; 4]
    ensures { result ≡ seat_rest_words seat }
{
    [
        u64::from(seat.acts),
        taken_number(seat.taken),
        behaviour_if(seat.behaviour),
        job_if(seat.job),
    ]
}

/// The words of who waits in the line.
pub(crate) fn waiter_words(waiter: Waiter) -> [u64; 4]
    ensures { result ≡ waiter_words waiter }
{
    match waiter.waits {
        Waits::Task { task, home, delay } => [1, u64::from(task), u64::from(home), delay],
        Waits::OfJob(job) => [0, u64::from(job), 0, 0],
    }
}

/// The words of a task that is not ripe.
pub(crate) fn unripe_words(u: Unripe) -> [u64; 4]
    ensures { result ≡ unripe_words u }
{
    [u64::from(u.task), u64::from(u.home), u.delay, u.ripe]
}

/// The words of a job.
pub(crate) fn job_words(job: JobAt) -> [u64; 3]
    ensures { result ≡ job_words job }
{
    [
        reply_number(job.reply),
        share(job.cancelled),
        u64::from(job.claims),
    ]
}

/// The words of what a situation has beside its lists.
pub(crate) fn head_words(s: &Situation) -> [u64; 7]
    ensures { result ≡ head_words s.now }
{
    [
        s.driver.left as u64,
        u64::from(s.driver.made),
        s.moment,
        phase_number(s.phase),
        policy_number(s.policy),
        u64::from(s.blocks),
        u64::from(s.skips),
    ]
}
