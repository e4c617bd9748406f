ghost use Rattle.std.specs.Prelude.{◌≡◌, ◌≤◌, ◌<◌, map, IfOk};
ghost use Rattle.std.specs.List.{range_with_len};
ghost use Rattle.wide_script.specs.Drawn.{behaviour_by, best_of, computes_by, foreground_of, job_of, kind_by, three_if, priority_by, queue_of, runner_of, scope_by};
ghost use Rattle.wide_script.specs.Drawn.{steps_of, workers_of};

use crate::chosen::add_steps;
use crate::draws::{Draws, one_of};
use crate::goals::step_to;
use std::alloc::{AllocError, Global};
use task_base::{
    Behaviour, Job, JobId, MainQueue, Priority, QueueId, Rows, Runner, RunnerId, RunnerKind, Scope,
    Step, Task, TaskId, Traits,
};

impl Draws {
    /// How many workers there are.
    pub(crate) fn workers(&self) -> u32
        ensures workers { result ≡ workers_of self.now }
        ensures some { 2 ≤ result }
        ensures few { result ≤ 5 }
    {
        2 + one_of(4, self.number(0), 0)
    }

    /// How many tasks the foreground group runs at once.
    pub(crate) fn foreground(&self) -> u32
        ensures foreground { result ≡ foreground_of self.now }
        ensures some { 1 ≤ result }
        ensures few { result ≤ 4 }
    {
        1 + one_of(4, self.number(0), 7)
    }

    /// How many best-effort tasks it runs at once.
    pub(crate) fn best(&self) -> u32
        ensures { result ≡ best_of self.now }
    {
        1 + one_of(self.foreground(), self.number(0), 14)
    }

    pub(crate) fn runners(&self, alloc: Global) -> Result<Rows<Runner>, AllocError>
        ensures { IfOk result (λ runners. runners.items ≡ map (runner_of self.now) (range_with_len 0 6)) }
    {
        let mut runners = Vec::with_capacity(alloc, 6)?;
        for runner in 0..6 {
            runners.push(self.runner(runner))?;
        }
        Ok(Rows::from_vec(runners))
    }

    #[tactic(auto, unfolding(crate::specs::Drawn::runner_of))]
    fn runner(&self, runner: RunnerId) -> Runner
        requires { runner < 6 }
        ensures { result ≡ runner_of self.now runner }
    {
        let x = self.number(2 + runner);
        Runner {
            kind: kind_by(self.workers(), x),
            traits: Traits {
                priority: priority_by(one_of(3, x, 14)),
                behaviour: behaviour_by(one_of(3, x, 21)),
                may_block: runner % 2 == 0,
            },
        }
    }

    pub(crate) fn queues(&self, alloc: Global) -> Result<Rows<MainQueue>, AllocError>
        ensures { IfOk result (λ queues. queues.items ≡ map (queue_of self.now) (range_with_len 0 (three_if self.now.parts.main))) }
    {
        let mut queues = Vec::new(alloc);
        for queue in 0..three_if(self.parts.main) {
            queues.push(self.queue(queue))?;
        }
        Ok(Rows::from_vec(queues))
    }

    #[tactic(auto, unfolding(crate::specs::Drawn::queue_of))]
    fn queue(&self, queue: QueueId) -> MainQueue
        requires { queue < 3 }
        ensures { result ≡ queue_of self.now queue }
    {
        MainQueue {
            class: one_of(8, self.number(8), 7 * queue) as u8,
            voters: queue as u8 + 1,
        }
    }

    pub(crate) fn tasks(&self, alloc: Global) -> Result<Rows<Task>, AllocError>
        requires { self.now.size ≤ 8192 }
        ensures { IfOk result (λ tasks. tasks.items ≡ map (steps_of self.now) (range_with_len 0 self.now.size)) }
    {
        let mut tasks = Vec::with_capacity(alloc, self.size as usize)?;
        for task in 0..self.size {
            tasks.push(self.task(alloc, task)?)?;
        }
        Ok(Rows::from_vec(tasks))
    }

    #[tactic(auto, unfolding(crate::specs::Drawn::steps_of))]
    fn task(&self, alloc: Global, task: TaskId) -> Result<Task, AllocError>
        requires { task < 8192 }
        ensures { IfOk result (λ task_made. task_made ≡ steps_of self.now task) }
    {
        let x = self.of_task(task);
        let before = task.saturating_sub(1);
        let posts = self.is_posted_by_next(before);
        let choices = [
            (
                self.has_scope(task),
                Step::Block(scope_by(one_of(2, x, 19))),
            ),
            (true, computes_by(x)),
            (self.has_scope(task), Step::Unblock),
            (
                task > 0 && posts,
                step_to(before, self.delay(before), self.goal(before)),
            ),
        ];
        let mut steps = Vec::with_capacity(alloc, choices.len())?;
        add_steps(&mut steps, &choices)?;
        Ok(Task {
            steps: Rows::from_vec(steps),
        })
    }

    pub(crate) fn jobs(&self, alloc: Global) -> Result<Rows<Job>, AllocError>
        ensures { IfOk result (λ jobs. jobs.items ≡ map (job_of self.now) (range_with_len 0 (three_if self.now.parts.jobs))) }
    {
        let mut jobs = Vec::new(alloc);
        for job in 0..three_if(self.parts.jobs) {
            jobs.push(self.job(alloc, job)?)?;
        }
        Ok(Rows::from_vec(jobs))
    }

    #[tactic(auto, unfolding(crate::specs::Drawn::job_of))]
    fn job(&self, alloc: Global, job: JobId) -> Result<Job, AllocError>
        requires { job < 3 }
        ensures { IfOk result (λ job_made. job_made ≡ job_of self.now job) }
    {
        let x = self.number(9 + job);
        let steps = [
            Step::Mul(u64::from(one_of(8, x, 24))),
            Step::Add(u64::from(one_of(16, x, 27))),
        ];
        Ok(Job {
            priority: priority_by(one_of(3, x, 0)),
            behaviour: behaviour_by(one_of(3, x, 7)),
            items: one_of(13, x, 14),
            cap: 1 + one_of(3, x, 21),
            steps: Rows::from_vec(Vec::from_slice(alloc, &steps)?),
        })
    }
}

/// How many there are of a sort, if it is to be there.
fn three_if(there: bool) -> u32
    ensures three { result ≡ three_if there }
    ensures few { result ≤ 3 }
{
    if there { 3 } else { 0 }
}

fn kind_by(workers: u32, x: u32) -> RunnerKind
    requires some { 1 ≤ workers }
    requires few { workers ≤ 5 }
    ensures { result ≡ kind_by workers x }
{
    match one_of(4, x, 0) {
        3 => RunnerKind::Single(1 + one_of(workers, x, 7)),
        2 => RunnerKind::Sequenced,
        _ => RunnerKind::Parallel,
    }
}

pub(crate) fn priority_by(n: u32) -> Priority
    ensures { result ≡ priority_by n }
{
    match n {
        0 => Priority::BestEffort,
        1 => Priority::UserVisible,
        _ => Priority::UserBlocking,
    }
}

fn behaviour_by(n: u32) -> Behaviour
    ensures { result ≡ behaviour_by n }
{
    match n {
        0 => Behaviour::ContinueOnShutdown,
        1 => Behaviour::SkipOnShutdown,
        _ => Behaviour::BlockShutdown,
    }
}

fn scope_by(n: u32) -> Scope
    ensures { result ≡ scope_by n }
{
    match n {
        0 => Scope::May,
        _ => Scope::Will,
    }
}

/// What a task of this number computes.
fn computes_by(x: u32) -> Step
    ensures { result ≡ computes_by x }
{
    let by = u64::from(one_of(1000, x, 14));
    match one_of(4, x, 17) {
        1 => Step::Mul(by),
        2 => Step::Set(by),
        _ => Step::Add(by),
    }
}
