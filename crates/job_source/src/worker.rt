ghost use Rattle.std.specs.Prelude.{◌≡◌, List};
ghost use Rattle.task_base.specs.Steps.{after};
ghost use Rattle.task_base.specs.declared.step.Step.{Step};

use std::marker::Model;
use task_base::{Rows, Step, apply};

/// The work of a job (what Chromium's `post_job.h` calls its worker task): a function from an item's number to its
/// value. Workers in several threads call it at once.
pub trait JobWorker: Sync {
    /// The steps of the job.
    ghost steps: { Self → List Step };

    /// The value of an item: the job's steps, applied to its number.
    fn value(&self, item: u32) -> u64
        ensures { result ≡ after (steps self.now) item };
}

/// Work that does the job's steps one by one.
#[derive(Debug, Drop)]
pub struct StepsWorker {
    steps: Rows<Step>,
}

impl Model for StepsWorker {
    ghost use Rattle.std.specs.Prelude.{List};
    ghost use Rattle.task_base.specs.declared.step.Step.{Step};

    ghost Value = { List Step };

    ghost view = { λ worker. worker.steps.items };
}

impl StepsWorker {
    /// Work that does these steps.
    pub fn new(steps: Rows<Step>) -> StepsWorker
        ensures { result ≡ steps.items }
    {
        StepsWorker { steps }
    }
}

impl JobWorker for StepsWorker {
    ghost steps = { λ worker. worker };

    fn value(&self, item: u32) -> u64 {
        self.steps
            .as_slice()
            .iter()
            .fold(u64::from(item), |value, step| apply(step, value))
    }
}
