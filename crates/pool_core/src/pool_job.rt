ghost use Rattle.std.specs.Prelude.{◌≡◌, ◌<◌, IfOk, IfSome, IsSome, None, map, true};
ghost use Rattle.job_source.specs.Job.{held_by, inside, is_empty, next_item, with_done};
ghost use Rattle.job_source.specs.declared.source.TheConstants.{MOST_INSIDE};
ghost use Rattle.pool_core.specs.PoolJobs.{entered_in, fresh_job, is_accepted, is_open, is_refused, joined_in, lets_in, may_enter_in, rank_in, with_entered_in};

use job_source::JobSource;
use sequence_queue::Rank;
use std::alloc::{AllocError, Global};
use task_base::{Behaviour, Job, JobId, JobReply, Key, Phase, Place, Priority, Script};
use task_traits::forbids;

/// Where a job was posted, and whether it was accepted.
#[derive(Clone, Copy, Debug, PartialEq, Eq)]
pub struct JobPost {
    pub place: Place,
    pub ok: bool,
}

/// The job that a seat is inside, and the number that it has there.
#[derive(Clone, Copy, Debug, PartialEq, Eq)]
pub struct Holder {
    pub job: JobId,
    pub id: u32,
}

/// A job of the script: its items, and how it was posted.
#[derive(Debug, Drop)]
pub struct PoolJob {
    pub source: JobSource,
    pub priority: Priority,
    /// What shutdown does with it.
    pub behaviour: Behaviour,
    /// Its post, once it was posted.
    pub post: Option<JobPost>,
}

impl PoolJob {
    /// A job as the script declares it, which was not posted.
    pub fn new(job: &Job) -> PoolJob
        ensures { result ≡ fresh_job job.now }
    {
        PoolJob {
            source: JobSource::new(job.items, job.cap),
            priority: job.priority,
            behaviour: job.behaviour,
            post: None,
        }
    }

    /// Whether a seat may enter in this phase.
    pub fn may_enter(&self, phase: Phase) -> bool
        ensures { result ≡ may_enter_in phase self.now }
    {
        self.is_accepted() && !forbids(phase, self.behaviour) && self.source.may_enter()
    }

    /// A seat enters where it may, and gets its number and an item.
    pub fn enter(&mut self, phase: Phase) -> Option<(u32, u32)>
        ensures answer { result ≡ entered_in phase self.old }
        ensures id { IfSome result (λ got. got.0 < MOST_INSIDE) }
        ensures state { self.new ≡ with_entered_in self.old result }
    {
        if !self.may_enter(phase) {
            return None;
        }
        self.source.enter()
    }

    /// The seat inside under a number has ended its item with a value, and goes on with the item that is answered, or
    /// leaves.
    pub fn done(&mut self, id: u32, value: u64, leave: bool) -> Option<u32>
        requires { IsSome (held_by self.old.source id) }
        ensures answer { result ≡ next_item self.old.source leave }
        ensures state { self.new ≡ record self.old { source = with_done self.old.source id value result } }
    {
        self.source.done(id, value, leave)
    }

    /// Whether it was accepted and is not over.
    pub fn is_open(&self) -> bool
        ensures { result ≡ is_open self.now }
    {
        self.is_accepted() && !self.source.over()
    }

    /// Its rank among the sources that wait in this phase, where a seat may enter.
    pub fn rank(&self, phase: Phase) -> Option<Rank>
        ensures { result ≡ rank_in phase self.now }
    {
        if !self.may_enter(phase) {
            return None;
        }
        let place = self.post?.place;
        Some(Rank {
            priority: self.priority,
            inside: self.source.inside(),
            key: Key {
                place,
                ripe: 0,
                post: place,
            },
        })
    }

    /// What a join of it is told in this phase, where nobody is inside and it has a reply.
    pub fn joined(&self, phase: Phase) -> Option<JobReply>
        ensures told { result ≡ joined_in phase self.now }
        ensures waits { result ≡ None → lets_in self.now ≡ true → is_empty self.now.source ≡ true → may_enter_in phase self.now ≡ true }
    {
        if self.source.inside() > 0 {
            None
        } else if self.is_refused() {
            Some(JobReply::Refused)
        } else if self.source.unclaimed() == 0 {
            Some(JobReply::Finished {
                sum: self.source.sum(),
            })
        } else if self.source.over() {
            Some(JobReply::Cancelled)
        } else if forbids(phase, self.behaviour) {
            Some(JobReply::Stopped)
        } else {
            None
        }
    }

    // Whether its post was accepted.
    fn is_accepted(&self) -> bool
        ensures { result ≡ is_accepted self.now }
    {
        self.post.is_some_and(|post| post.ok)
    }

    // Whether its post was refused.
    fn is_refused(&self) -> bool
        ensures { result ≡ is_refused self.now }
    {
        self.post.is_some_and(|post| !post.ok)
    }
}

/// The jobs of a script, none of which was posted. The error is want of memory.
pub fn fresh_jobs(alloc: Global, script: &Script) -> Result<Vec<PoolJob>, AllocError>
    ensures { IfOk result (λ jobs. jobs.items ≡ map fresh_job script.now.jobs) }
{
    let mut jobs = Vec::with_capacity(alloc, script.jobs.len())?;
    for job in script.jobs.as_slice() {
        jobs.push(PoolJob::new(job))?;
    }
    Ok(jobs)
}
