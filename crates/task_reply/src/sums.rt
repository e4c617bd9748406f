ghost use Rattle.std.specs.Prelude.{◌≡◌, ◌<◌, ◌^◌, length, sum_by};
ghost use Rattle.script_model.specs.Laws.Sound.{IsSound};
ghost use Rattle.script_model.specs.Bound.{steps_of_plan};

use task_base::{Job, Script, Task};

/// How many steps the tasks and jobs of a script have, together.
pub(crate) fn steps_of(script: &Script) -> usize
    requires { IsSound script.now }
    ensures { result ≡ steps_of_plan script.now }
{
    steps_of_tasks(script.tasks.as_slice()) + steps_of_jobs(script.jobs.as_slice())
}

fn steps_of_tasks(tasks: &[Task]) -> usize
    requires { sum_by (λ steps. length steps) tasks.now < 2 ^ 32 }
    ensures { result ≡ sum_by (λ steps. length steps) tasks.now }
{
    let mut steps = 0;
    for task in tasks {
        steps += task.steps.len();
    }
    steps
}

fn steps_of_jobs(jobs: &[Job]) -> usize
    requires { sum_by (λ job. length job.steps) jobs.now < 2 ^ 32 }
    ensures { result ≡ sum_by (λ job. length job.steps) jobs.now }
{
    let mut steps = 0;
    for job in jobs {
        steps += job.steps.len();
    }
    steps
}
