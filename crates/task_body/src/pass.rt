ghost use Rattle.std.specs.Prelude.{◌≡◌};

use std::marker::Model;
use task_base::JobId;

/// An item of a job that a seat holds, under the number that the seat has inside the job (what Chromium's `post_job.h`
/// hands a worker as its `JobDelegate`). Nobody else holds it: it can't be copied.
#[derive(Debug, Drop)]
pub struct JobPass {
    job: JobId,
    id: u32,
    item: u32,
}

impl Model for JobPass {
    ghost use Rattle.task_body.specs.Passes.{PassView};

    ghost Value = { PassView };

    ghost view = { λ pass. record { job = pass.job; id = pass.id; item = pass.item } };
}

impl JobPass {
    /// The item of a job, held under a number.
    pub fn new(job: JobId, id: u32, item: u32) -> JobPass
        ensures { result ≡ record { job = job; id = id; item = item } }
    {
        JobPass { job, id, item }
    }

    /// The job.
    pub fn job(&self) -> JobId
        ensures { result ≡ self.now.job }
    {
        self.job
    }

    /// The number that the seat has inside the job.
    pub fn id(&self) -> u32
        ensures { result ≡ self.now.id }
    {
        self.id
    }

    /// The item.
    pub fn item(&self) -> u32
        ensures { result ≡ self.now.item }
    {
        self.item
    }
}
