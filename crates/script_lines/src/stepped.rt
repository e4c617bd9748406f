ghost use Rattle.std.specs.Prelude.{◌≡◌, drop, IfOk};
ghost use Rattle.script_model.specs.Reasons.{◌&◌};
ghost use Rattle.script_model.specs.Places.{number_at, steps_read};
ghost use Rattle.script_lines.specs.Said.{task_said, job_said};
ghost use Rattle.script_lines.specs.Saying.{Says};

use crate::command::Command;
use crate::fault::LineFault;
use line_words::{Reason, Words, both, read_steps};
use std::alloc::{AllocError, Global};
use task_base::{Behaviour, Job, Priority, Task};

/// `task T STEPS`
#[tactic(auto, unfolding(crate::specs::Said::task_said))]
pub(crate) fn task(alloc: Global, mut words: Words<'_>) -> Result<Command, LineFault>
    ensures { Says result (task_said words.entry) }
{
    let number = words.id();
    let task = read_steps(alloc, words)?;
    let (number, task) = both(number, task)?;
    Ok(Command::Task { number, task })
}

/// `job J PRIORITY BEHAVIOUR ITEMS CAP STEPS`
#[tactic(auto, unfolding(crate::specs::Said::job_said))]
pub(crate) fn job(alloc: Global, mut words: Words<'_>) -> Result<Command, LineFault>
    ensures { Says result (job_said words.entry) }
{
    let number = words.id();
    let priority = words.priority();
    let behaviour = words.behaviour();
    let work = job_work(alloc, words)?;
    let places = both(number, both(priority, both(behaviour, work)));
    let (number, (priority, (behaviour, (items, (cap, task))))) = places?;
    let job = job_of(priority, behaviour, items, cap, task);
    Ok(Command::Job { number, job })
}

/// The job with the steps of this task.
fn job_of(priority: Priority, behaviour: Behaviour, items: u32, cap: u32, task: Task) -> Job
    ensures { result ≡ record { priority = priority; behaviour = behaviour; items = items; cap = cap; steps = task } }
{
    let Task { steps } = task;
    Job {
        priority,
        behaviour,
        items,
        cap,
        steps,
    }
}

/// How many items a job has, how many workers may be inside, and its steps.
fn job_work(
    alloc: Global,
    mut words: Words<'_>,
) -> Result<Result<(u32, (u32, Task)), Reason>, AllocError>
    ensures { IfOk result (λ work. work ≡ (number_at 0 65536 words.entry 0 & number_at 1 64 words.entry 1
        & steps_read (drop 2 words.entry))) }
{
    let items = words.count(0, 65_536);
    let cap = words.count(1, 64);
    let steps = read_steps(alloc, words)?;
    Ok(both(items, both(cap, steps)))
}
