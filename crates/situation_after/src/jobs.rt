//! What is known of a job after an entry.
ghost use Rattle.std.specs.Prelude.{◌≡◌, ◌+◌, ◌^◌, ◌<◌, ◌||◌};
ghost use Rattle.log_count.specs.After.{claims_after, is_open_after, job_known_after};
ghost use Rattle.log_count.specs.Parts.{claimed_in, is_cancelled_in};
ghost use Rattle.situation.specs.Onward.{reply_after};
ghost use Rattle.task_model.specs.Jobs.{cancels};

use crate::kinds::{cancels, claims, phase_after};
use situation_steps::{JobAt, Situation, behaviour_of_job, items_of};
use task_base::{JobId, Kind, Script};
use task_traits::forbids;

/// The reply to a job's post after an entry: the first post counts.
fn reply_after(job: JobId, reply: Option<bool>, kind: Kind) -> Option<bool>
    ensures { result ≡ reply_after job reply kind }
{
    match reply {
        Some(_) => reply,
        None => match kind {
            Kind::JobPost { job: posted, ok } => { if posted == job { Some(ok) } else { None } }
            _ => None,
        },
    }
}

/// How many items of a job are claimed after an entry.
pub(crate) fn claims_after(s: &Situation, kind: Kind, job: JobId) -> u32
    requires { claimed_in s.now job + 1 < 2 ^ 32 }
    ensures { result ≡ claims_after s.now kind job }
{
    let claimed = s.claimed(job);
    if claims(job, kind) {
        claimed + 1
    } else {
        claimed
    }
}

/// Whether a job is cancelled after an entry.
pub(crate) fn is_cancelled_after(s: &Situation, kind: Kind, job: JobId) -> bool
    ensures { result ≡ (is_cancelled_in s.now job || cancels job kind) }
{
    s.is_cancelled(job) || cancels(job, kind)
}

/// What is known of a job after an entry.
pub(crate) fn job_known_after(s: &Situation, kind: Kind, job: JobId) -> JobAt
    requires { claimed_in s.now job + 1 < 2 ^ 32 }
    ensures { result ≡ job_known_after s.now kind job }
{
    JobAt {
        reply: reply_after(job, s.reply(job), kind),
        cancelled: is_cancelled_after(s, kind, job),
        claims: claims_after(s, kind, job),
    }
}

/// Whether a job may be entered after an entry, were there room inside.
pub(crate) fn is_open_after(script: &Script, s: &Situation, kind: Kind, job: JobId) -> bool
    requires { claimed_in s.now job + 1 < 2 ^ 32 }
    ensures { result ≡ is_open_after script.now s.now kind job }
{
    !is_cancelled_after(s, kind, job)
        && !forbids(phase_after(s.phase, kind), behaviour_of_job(script, job))
        && claims_after(s, kind, job) < items_of(script, job)
}
