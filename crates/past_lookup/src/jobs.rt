ghost use Rattle.std.specs.Prelude.{◌≡◌, ◌<◌, ◌^◌, List, length};
ghost use Rattle.std.specs.Option.{option_map};
ghost use Rattle.task_base.specs.declared.entry.Entry.{Entry as AnyEntry};
ghost use Rattle.task_model.specs.Capacity.{priority_of_job};
ghost use Rattle.task_model.specs.Jobs.{claimed, concurrency, done, has_unclaimed, is_cancelled, is_job_accepted, item_value, job_post_after, job_post_of};
ghost use Rattle.past_lookup.specs.Jobs.{job_posted};

use task_base::{Entry, JobId, Kind, Place, Priority, Script, apply};

/// The first post of a job.
#[derive(Clone, Copy, Debug)]
pub struct JobPost {
    pub place: Place,
    /// Whether the job was accepted.
    pub ok: bool,
}

/// The priority of a job.
pub fn job_priority(script: &Script, job: JobId) -> Priority
    ensures { result ≡ priority_of_job script.now job }
{
    match script.jobs.at(job as usize) {
        None => Priority::BestEffort,
        Some(job) => job.priority,
    }
}

/// The value of an item of a job: the job's steps, applied to its number.
pub fn value_of(script: &Script, job: JobId, item: u32) -> u64
    ensures { result ≡ item_value script.now job item }
{
    match script.jobs.at(job as usize) {
        None => u64::from(item),
        Some(job) => job
            .steps
            .as_slice()
            .iter()
            .fold(u64::from(item), |value, step| apply(step, value)),
    }
}

/// The first post of a job, if there is one.
pub fn job_post_of(past: &[Entry], job: JobId) -> Option<JobPost>
    requires { length past.now < 2 ^ 32 }
    ensures { option_map job_posted result ≡ job_post_of past.now job }
{
    let mut post = None;
    let mut place = 0;
    for entry in past {
        post = job_post_after(post, place, job, &entry.kind);
        place += 1;
    }
    post
}

/// The first post of a job after an entry at this place.
fn job_post_after(post: Option<JobPost>, place: Place, job: JobId, kind: &Kind) -> Option<JobPost>
    ensures { (before : List AnyEntry) → place ≡ length before
        → option_map job_posted result ≡ job_post_after job before (option_map job_posted post) kind.now }
{
    match (post, *kind) {
        (Some(post), _) => Some(post),
        (None, Kind::JobPost { job: j, ok }) => {
            if j == job {
                Some(JobPost { place, ok })
            } else {
                None
            }
        }
        _ => None,
    }
}

/// Whether a job was accepted.
pub fn is_job_accepted(past: &[Entry], job: JobId) -> bool
    requires { length past.now < 2 ^ 32 }
    ensures { result ≡ is_job_accepted past.now job }
{
    match job_post_of(past, job) {
        None => false,
        Some(post) => post.ok,
    }
}

/// Whether a job is cancelled.
#[tactic(auto, unfolding(task_model::specs::Jobs::is_cancelled))]
pub fn is_cancelled(past: &[Entry], job: JobId) -> bool
    ensures { result ≡ is_cancelled past.now job }
{
    past.iter().any(|entry| match entry.kind {
        Kind::JobCancel { job: told } => told == job,
        _ => false,
    })
}

/// Whether an item of a job is unclaimed.
pub fn has_unclaimed(script: &Script, past: &[Entry], job: JobId) -> bool
    ensures { result ≡ has_unclaimed script.now past.now job }
{
    match script.jobs.at(job as usize) {
        None => false,
        Some(declared) => claimed(past, job) < declared.items as usize,
    }
}

/// How many items of a job are claimed.
#[tactic(auto, unfolding(task_model::specs::Jobs::claimed))]
fn claimed(past: &[Entry], job: JobId) -> usize
    ensures { result ≡ claimed past.now job }
{
    past.iter()
        .filter(|entry| match entry.kind {
            Kind::JobTake { job: taken, .. } => taken == job,
            Kind::JobStep {
                job: ended,
                next,
                ..
            } => ended == job && next.is_some(),
            _ => false,
        })
        .count()
}

/// How many seats may be inside a job.
pub fn concurrency(script: &Script, past: &[Entry], job: JobId) -> usize
    ensures { result ≡ concurrency script.now past.now job }
{
    match script.jobs.at(job as usize) {
        None => 0,
        Some(declared) => {
            let left = (declared.items as usize).saturating_sub(done(past, job));
            (declared.cap as usize).min(32).min(left)
        }
    }
}

/// How many items of a job are done.
#[tactic(auto, unfolding(task_model::specs::Jobs::done))]
fn done(past: &[Entry], job: JobId) -> usize
    ensures { result ≡ done past.now job }
{
    past.iter()
        .filter(|entry| match entry.kind {
            Kind::JobStep { job: ended, .. } => ended == job,
            _ => false,
        })
        .count()
}
