ghost use Rattle.std.specs.Prelude.{◌≡◌, ◌+◌, ◌≤◌, ◌<◌, ◌^◌, ◌++◌, ◌∷◌, [], length, Ok};
ghost use Rattle.script_model.specs.Bound.{events_of_job};
ghost use Rattle.script_model.specs.Draft.{is_above_workers};
ghost use Rattle.task_script.specs.Added.{runner_added, queue_added, task_added, job_added};

use crate::reader::Reader;
use crate::reasons::{
    BAD_BLOCK, DECLARATION_LATE, JOB_USE, OUT_OF_ORDER, POSTED_TWICE, TOO_MANY, UNDECLARED,
};
use crate::steps::{count_act_steps, has_act_step, has_bad_scopes, is_any_posted, opens_scope};
use script_lines::{LineFault, refuse};
use task_base::{
    Job, JobId, MOST_EVENTS, MOST_ITEMS, MOST_JOBS, MOST_QUEUES, MOST_RUNNERS, MOST_STEPS,
    MOST_TASKS, MainQueue, QueueId, Runner, RunnerId, RunnerKind, Step, Task, TaskId,
};

impl Reader {
    ghost use Rattle.task_script.specs.Reader.{draft, Tables, Turns};

    #[tactic(auto, unfolding(crate::specs::Added::runner_added))]
    pub(crate) fn add_runner(&mut self, number: RunnerId, runner: Runner) -> Result<(), LineFault>
        requires { Tables self.old }
        ensures { Turns result self.new (runner_added (draft self.old) number runner) }
    {
        refuse(number as usize != self.runners.len(), OUT_OF_ORDER)?;
        refuse(self.is_above_workers(runner.kind), UNDECLARED)?;
        refuse(!self.has_no_actions(), DECLARATION_LATE)?;
        refuse(self.runners.len() + 1 > MOST_RUNNERS, TOO_MANY)?;
        self.runners.push(runner)?;
        Ok(())
    }

    /// Whether the kind names a worker seat that there is not.
    fn is_above_workers(&self, kind: RunnerKind) -> bool
        ensures { result ≡ is_above_workers (draft self.now) kind }
    {
        match kind {
            RunnerKind::Single(seat) => seat > self.workers(),
            RunnerKind::Parallel | RunnerKind::Sequenced => false,
        }
    }

    #[tactic(auto, unfolding(crate::specs::Added::queue_added))]
    pub(crate) fn add_queue(&mut self, number: QueueId, queue: MainQueue) -> Result<(), LineFault>
        requires { Tables self.old }
        ensures { Turns result self.new (queue_added (draft self.old) number queue) }
    {
        refuse(number as usize != self.queues.len(), OUT_OF_ORDER)?;
        refuse(!self.has_no_actions(), DECLARATION_LATE)?;
        refuse(self.queues.len() + 1 > MOST_QUEUES, TOO_MANY)?;
        self.queues.push(queue)?;
        Ok(())
    }

    #[tactic(auto, unfolding(crate::specs::Added::task_added))]
    pub(crate) fn add_task(&mut self, number: TaskId, task: Task) -> Result<(), LineFault>
        requires { Tables self.old }
        ensures { Turns result self.new (task_added (draft self.old) number task) }
    {
        let steps = steps_of(&task);
        refuse(number as usize != self.tasks.len(), OUT_OF_ORDER)?;
        refuse(!self.are_declared(steps), UNDECLARED)?;
        refuse(self.posts_again(steps), POSTED_TWICE)?;
        refuse(!self.has_no_actions(), DECLARATION_LATE)?;
        refuse(has_bad_scopes(steps), BAD_BLOCK)?;
        refuse(self.has_bad_post(steps), BAD_BLOCK)?;
        refuse(self.tasks.len() + 1 > MOST_TASKS, TOO_MANY)?;
        let steps_count = steps.len();
        let events = 2 + count_act_steps(steps);
        refuse(self.totals.steps + steps_count > MOST_STEPS, TOO_MANY)?;
        refuse(self.totals.events + events > MOST_EVENTS, TOO_MANY)?;
        self.marks.posted.push(false)?;
        self.marks.blocks.push(opens_scope(steps))?;
        self.tasks.push(task)?;
        self.totals.steps += steps_count;
        self.totals.events += events;
        Ok(())
    }

    #[tactic(auto, unfolding(crate::specs::Added::job_added))]
    pub(crate) fn add_job(&mut self, number: JobId, job: Job) -> Result<(), LineFault>
        requires { Tables self.old }
        ensures { Turns result self.new (job_added (draft self.old) number job) }
    {
        let steps = steps_of_job(&job);
        refuse(number as usize != self.jobs.len(), OUT_OF_ORDER)?;
        refuse(!self.are_declared(steps), UNDECLARED)?;
        refuse(self.posts_again(steps), POSTED_TWICE)?;
        refuse(!self.has_no_actions(), DECLARATION_LATE)?;
        refuse(self.has_bad_post(steps), BAD_BLOCK)?;
        refuse(has_act_step(steps), JOB_USE)?;
        refuse(self.jobs.len() + 1 > MOST_JOBS, TOO_MANY)?;
        let items = items_of_job(&job);
        refuse(self.totals.items + items > MOST_ITEMS, TOO_MANY)?;
        refuse(self.totals.steps + steps.len() > MOST_STEPS, TOO_MANY)?;
        refuse(self.totals.events + 2 * items > MOST_EVENTS, TOO_MANY)?;
        self.push_job(job)
    }

    fn push_job(&mut self, job: Job) -> Result<(), LineFault>
        requires tables { Tables self.old }
        requires few_items { self.old.totals.items + job.items ≤ MOST_ITEMS }
        requires few_steps { self.old.totals.steps + length job.steps ≤ MOST_STEPS }
        requires few_events { self.old.totals.events + events_of_job job ≤ MOST_EVENTS }
        ensures { Turns result self.new (Ok (record (draft self.old) { jobs = (draft self.old).jobs ++ job ∷ [] })) }
    {
        let items = items_of_job(&job);
        self.totals.items += items;
        self.totals.steps += steps_of_job(&job).len();
        self.totals.events += 2 * items;
        self.marks.started.push(false)?;
        self.jobs.push(job)?;
        Ok(())
    }
}

fn steps_of(task: &Task) -> &[Step]
    ensures { result.now ≡ task.now }
{
    task.steps.as_slice()
}

fn steps_of_job(job: &Job) -> &[Step]
    ensures { result.now ≡ job.now.steps }
{
    job.steps.as_slice()
}

fn items_of_job(job: &Job) -> usize
    ensures items { result ≡ job.now.items }
    ensures fits { result < 2 ^ 32 }
{
    job.items as usize
}
