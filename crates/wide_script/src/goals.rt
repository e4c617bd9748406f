ghost use Rattle.std.specs.Prelude.{◌≡◌, ◌≤◌};
ghost use Rattle.wide_script.specs.Drawn.{action_to, delay_of, goal_of, has_scope, is_posted_by_next, step_to};

use crate::draws::{Draws, one_of};
use task_base::{Action, QueueId, RunnerId, Step, TaskId};

/// Where a task is posted to.
#[derive(Clone, Copy)]
pub(crate) enum Goal {
    /// To a runner.
    Runner(RunnerId),
    /// To a main queue.
    Queue(QueueId),
}

impl Draws {
    /// Whether the task opens a scope.
    pub(crate) fn has_scope(&self, task: TaskId) -> bool
        ensures { result ≡ has_scope self.now task }
    {
        self.parts.scopes && one_of(4, self.of_task(task), 0) == 0
    }

    /// Where the task is posted to.
    #[tactic(auto, unfolding(crate::specs::Drawn::goal_of))]
    pub(crate) fn goal(&self, task: TaskId) -> Goal
        ensures { result ≡ goal_of self.now task }
    {
        let x = self.of_task(task);
        if self.has_scope(task) {
            Goal::Runner(2 * one_of(3, x, 3))
        } else if self.parts.main && one_of(3, x, 3) == 0 {
            Goal::Queue(one_of(3, x, 6))
        } else {
            Goal::Runner(one_of(6, x, 9))
        }
    }

    /// With which delay the task is posted.
    pub(crate) fn delay(&self, task: TaskId) -> u64
        ensures { result ≡ delay_of self.now task }
    {
        let x = self.of_task(task);
        if self.parts.delays && one_of(4, x, 24) == 0 {
            100 * u64::from(one_of(8, x, 27))
        } else {
            0
        }
    }

    /// Whether the next task posts this one, and not the driver.
    pub(crate) fn is_posted_by_next(&self, task: TaskId) -> bool
        requires { task ≤ 8192 }
        ensures { result ≡ is_posted_by_next self.now task }
    {
        task + 1 < self.size && one_of(4, self.of_task(task), 12) == 0
    }
}

/// The post of a task, as a step.
pub(crate) fn step_to(task: TaskId, delay: u64, goal: Goal) -> Step
    ensures { result ≡ step_to task delay goal }
{
    match goal {
        Goal::Runner(runner) => Step::Post {
            task,
            runner,
            delay,
        },
        Goal::Queue(queue) => Step::Main { task, queue, delay },
    }
}

/// The post of a task, as an action.
pub(crate) fn action_to(task: TaskId, delay: u64, goal: Goal) -> Action
    ensures { result ≡ action_to task delay goal }
{
    match goal {
        Goal::Runner(runner) => Action::Post {
            task,
            runner,
            delay,
        },
        Goal::Queue(queue) => Action::Main { task, queue, delay },
    }
}
