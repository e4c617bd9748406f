ghost use Rattle.std.specs.Prelude.{◌≡◌, IfOk};
ghost use Rattle.env_shared.specs.Workers.{steps_of_jobs};

use job_source::StepsWorker;
use std::alloc::{AllocError, Global};
use task_base::{Rows, Script};

/// The work of each job of a script, which gives its items their values. The error is want of memory.
pub fn workers_of(alloc: Global, script: &Script) -> Result<Rows<StepsWorker>, AllocError>
    ensures { IfOk result (λ workers. workers.items ≡ steps_of_jobs script.now) }
{
    let mut workers = Vec::with_capacity(alloc, script.jobs.len())?;
    for job in script.jobs.as_slice() {
        workers.push(StepsWorker::new(job.steps.copy(alloc)?))?;
    }
    Ok(Rows::from_vec(workers))
}
