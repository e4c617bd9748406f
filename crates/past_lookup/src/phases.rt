ghost use Rattle.std.specs.Prelude.{◌≡◌};
ghost use Rattle.task_model.specs.Phase.{phase_after, phase_of};
ghost use Rattle.task_model.specs.Refusal.{is_forbidden, is_job_forbidden};
ghost use Rattle.past_lookup.specs.Posts.{posted};

use crate::posts::Post;
use task_base::{Behaviour, Entry, JobId, Kind, Phase, Script};
use task_traits::{effective, forbids};

/// Whether the phase forbids a task that was accepted to start.
pub fn is_forbidden(script: &Script, past: &[Entry], post: &Post) -> bool
    ensures { result ≡ is_forbidden script.now past.now (posted post.now) }
{
    let behaviour = match script.runners.at(post.runner as usize) {
        None => Behaviour::ContinueOnShutdown,
        Some(runner) => runner.traits.behaviour,
    };
    forbids(phase_of(past), effective(behaviour, post.delay > 0))
}

/// Whether the phase forbids a job.
pub fn is_job_forbidden(script: &Script, past: &[Entry], job: JobId) -> bool
    ensures { result ≡ is_job_forbidden script.now past.now job }
{
    let behaviour = match script.jobs.at(job as usize) {
        None => Behaviour::ContinueOnShutdown,
        Some(job) => job.behaviour,
    };
    forbids(phase_of(past), behaviour)
}

/// The phase by now.
#[tactic(auto, unfolding(task_model::specs::Phase::phase_of))]
pub fn phase_of(past: &[Entry]) -> Phase
    ensures { result ≡ phase_of past.now }
{
    past.iter()
        .fold(Phase::Running, |now, entry| phase_after(now, &entry.kind))
}

/// The phase after an entry.
fn phase_after(now: Phase, kind: &Kind) -> Phase
    ensures { result ≡ phase_after now kind.now }
{
    match *kind {
        Kind::Shutdown if now == Phase::Running => Phase::Started,
        Kind::Done => Phase::Done,
        _ => now,
    }
}
