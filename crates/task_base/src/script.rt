ghost use Rattle.std.specs.Prelude.{◌≡◌, IfOk};

use crate::policy::Policy;
use crate::rows::Rows;
use crate::step::Step;
use std::alloc::{AllocError, Global};
use std::marker::Model;
use task_traits::{Behaviour, Priority, Traits};

/// The number of a task, from 0, in the order of declaration.
pub type TaskId = u32;
/// The number of a runner, from 0, in the order of declaration.
pub type RunnerId = u32;
/// The number of a main queue, from 0, in the order of declaration.
pub type QueueId = u32;
/// The number of a job, from 0, in the order of declaration.
pub type JobId = u32;
/// The number of a sequence, a list of tasks that run singly and in order: that of its runner, or for a
/// parallel runner the number of runners plus that of the task.
pub type SeqId = u32;
/// The number of a seat: 0 is the driver, 1 and above are the workers.
pub type SeatNo = u32;
/// A place in the history, from 0.
pub type Place = u32;

/// How a runner orders its tasks (Chromium's `thread_pool.h`).
#[derive(Clone, Copy, Debug, PartialEq, Eq)]
pub enum RunnerKind {
    /// Each task is a sequence of its own.
    Parallel,
    /// All tasks are one sequence: they run singly, in order.
    Sequenced,
    /// All tasks are one sequence, which only this worker seat takes.
    Single(SeatNo),
}

/// A declared runner, to which tasks are posted (Chromium's `task_runner.h`).
#[derive(Clone, Copy, Debug, PartialEq, Eq)]
pub struct Runner {
    /// How it orders its tasks.
    pub kind: RunnerKind,
    /// What it asks for each of its tasks.
    pub traits: Traits,
}

/// A declared main queue (Chromium's `task_queue.h`).
#[derive(Clone, Copy, Debug, PartialEq, Eq)]
pub struct MainQueue {
    /// Its priority class at opening, from 0, which goes first, to 7.
    pub class: u8,
    /// How many voters can switch it off, at most 16; all vote on at opening.
    pub voters: u8,
}

/// A declared task: its steps, done in order. Contracts see it as that list.
#[derive(Debug, Drop)]
pub struct Task {
    /// The steps, first to last.
    pub steps: Rows<Step>,
}

impl Model for Task {
    ghost use Rattle.std.specs.Prelude.{List};
    ghost use Rattle.task_base.specs.declared.step.Step.{Step};

    ghost Value = { List Step };

    ghost view = { λ task. task.steps.items };
}

impl Task {
    /// An equal task with room of its own. The error is want of memory.
    pub fn copy(&self, alloc: Global) -> Result<Task, AllocError>
        ensures { IfOk result (λ copied. copied ≡ self.now) }
    {
        let steps = self.steps.copy(alloc)?;
        Ok(Task { steps })
    }
}

/// A declared job: items that several workers take one by one (Chromium's `post_job.h`). Contracts see it as the
/// record of its numbers and its list of steps.
#[derive(Debug, Drop)]
pub struct Job {
    /// How much it matters.
    pub priority: Priority,
    /// What shutdown does with it.
    pub behaviour: Behaviour,
    /// How many items it has, numbered from 0.
    pub items: u32,
    /// How many workers may be inside at once.
    pub cap: u32,
    /// What is applied to an item's number to give its value.
    pub steps: Rows<Step>,
}

impl Model for Job {
    ghost use Rattle.task_base.specs.Plan.{JobPlan};

    ghost Value = { JobPlan };

    ghost view = { λ job. record {
      priority = job.priority;
      behaviour = job.behaviour;
      items = job.items;
      cap = job.cap;
      steps = job.steps.items;
    } };
}

impl Job {
    /// An equal job with room of its own. The error is want of memory.
    pub fn copy(&self, alloc: Global) -> Result<Job, AllocError>
        ensures { IfOk result (λ copied. copied ≡ self.now) }
    {
        let steps = self.steps.copy(alloc)?;
        Ok(Job {
            priority: self.priority,
            behaviour: self.behaviour,
            items: self.items,
            cap: self.cap,
            steps,
        })
    }
}

/// Where a new fence of a main queue stands (Chromium's `task_queue.h`).
#[derive(Clone, Copy, Debug, PartialEq, Eq)]
pub enum FenceAt {
    /// Behind the tasks that are in the queue by now.
    Now,
    /// Before all tasks.
    Start,
}

/// One of the two lists of a main queue.
#[derive(Clone, Copy, Debug, PartialEq, Eq)]
pub enum Lane {
    /// The tasks that were posted without a delay.
    Immediate,
    /// The delayed tasks that are ripe.
    Delayed,
}

/// One action of the driver, seat 0.
#[derive(Clone, Copy, Debug, PartialEq, Eq)]
pub enum Action {
    /// Posts a task to a runner, with a delay in microseconds.
    Post {
        task: TaskId,
        runner: RunnerId,
        delay: u64,
    },
    /// Posts a task to a main queue, with a delay in microseconds.
    Main {
        task: TaskId,
        queue: QueueId,
        delay: u64,
    },
    /// Reads the clock this many times.
    Tick {
        count: u32,
    },
    /// Puts another policy in force.
    Policy {
        policy: Policy,
    },
    /// Gives a runner another priority (Chromium's `updateable_sequenced_task_runner.h`).
    Reprio {
        runner: RunnerId,
        priority: Priority,
    },
    /// Gives a main queue another priority class.
    Rank {
        queue: QueueId,
        class: u8,
    },
    /// Votes on a main queue.
    Vote {
        queue: QueueId,
        voter: u8,
        on: bool,
    },
    /// Sets a fence on a main queue.
    Fence {
        queue: QueueId,
        at: FenceAt,
    },
    /// Removes the fence of a main queue.
    Unfence {
        queue: QueueId,
    },
    /// Closes a main queue.
    Close {
        queue: QueueId,
    },
    /// Runs up to this many main tasks, and stops where there is none to run.
    Pump {
        count: u32,
    },
    /// Waits until nothing of the pool runs and nothing can be taken.
    Flush,
    /// Posts a job.
    StartJob {
        job: JobId,
    },
    /// Works on a job, and waits until nobody is inside and it has a reply.
    Join {
        job: JobId,
    },
    /// Stops a job, and waits until nobody is inside.
    Cancel {
        job: JobId,
    },
    /// Starts shutdown, and waits until it is done.
    Shutdown,
}

/// A whole script: the configuration, the declarations, and the driver's actions in order. Contracts see
/// it as the record of its numbers and lists, without the lists' room.
#[derive(Debug, Drop)]
pub struct Script {
    /// The number of worker seats.
    pub workers: u32,
    /// How many tasks the foreground group runs at once.
    pub foreground: u32,
    /// How many best-effort tasks the foreground group runs at once.
    pub foreground_best: u32,
    /// How many tasks the background group runs at once; 0 where there is no such group.
    pub background: u32,
    /// After how many microseconds a scope that may block counts as one that does.
    pub threshold: u64,
    /// The runners: a `RunnerId` is a place in this list.
    pub runners: Rows<Runner>,
    /// The main queues: a `QueueId` is a place in this list.
    pub queues: Rows<MainQueue>,
    /// The tasks: a `TaskId` is a place in this list.
    pub tasks: Rows<Task>,
    /// The jobs: a `JobId` is a place in this list.
    pub jobs: Rows<Job>,
    /// What the driver does, first to last.
    pub actions: Rows<Action>,
}

impl Model for Script {
    ghost use Rattle.std.specs.Prelude.{false};
    ghost use Rattle.task_base.specs.Plan.{Plan};

    ghost Value = { Plan };

    ghost view = { λ s. record {
      workers = s.workers;
      foreground = s.foreground;
      foreground_best = s.foreground_best;
      background = s.background;
      threshold = s.threshold;
      runners = s.runners.items;
      queues = s.queues.items;
      tasks = s.tasks.items;
      jobs = s.jobs.items;
      actions = s.actions.items;
      is_open = false;
    } };
}

impl Script {
    /// An equal script with room of its own. The error is want of memory.
    pub fn copy(&self, alloc: Global) -> Result<Script, AllocError>
        ensures { IfOk result (λ copied. copied ≡ self.now) }
    {
        let runners = self.runners.copy(alloc)?;
        let queues = self.queues.copy(alloc)?;
        let tasks = copy_tasks(alloc, self.tasks.as_slice())?;
        let jobs = copy_jobs(alloc, self.jobs.as_slice())?;
        let actions = self.actions.copy(alloc)?;
        Ok(Script {
            workers: self.workers,
            foreground: self.foreground,
            foreground_best: self.foreground_best,
            background: self.background,
            threshold: self.threshold,
            runners,
            queues,
            tasks,
            jobs,
            actions,
        })
    }
}

/// A list of equal tasks, each with room of its own.
fn copy_tasks(alloc: Global, tasks: &[Task]) -> Result<Rows<Task>, AllocError>
    ensures { IfOk result (λ copied. copied.items ≡ tasks.now) }
{
    let mut copied = Rows::new(alloc);
    copied.reserve(tasks.len())?;
    for task in tasks {
        copied.push_spare(task.copy(alloc)?);
    }
    Ok(copied)
}

/// A list of equal jobs, each with room of its own.
fn copy_jobs(alloc: Global, jobs: &[Job]) -> Result<Rows<Job>, AllocError>
    ensures { IfOk result (λ copied. copied.items ≡ jobs.now) }
{
    let mut copied = Rows::new(alloc);
    copied.reserve(jobs.len())?;
    for job in jobs {
        copied.push_spare(job.copy(alloc)?);
    }
    Ok(copied)
}
