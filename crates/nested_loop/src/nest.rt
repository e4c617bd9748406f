use std::marker::Model;
use task_base::{QueueId, Rows, TaskId};

/// One step of a task of a nest.
#[derive(Clone, Copy, Debug, PartialEq, Eq)]
pub enum NestStep {
    /// Says this value.
    Say(u64),
    /// Posts a task to a main queue.
    Post { task: TaskId, queue: QueueId },
    /// Runs a loop inside the task, which quits after this many tasks of its own, or earlier where none is left to run
    /// (Chromium's `RunLoop` of type `kNestableTasksAllowed`).
    Loop(u32),
}

/// A declared task of a nest.
#[derive(Debug, Drop)]
pub struct NestTask {
    /// Whether a nested loop may run it. One that is not nestable waits for the outermost loop (Chromium's
    /// `PostNonNestableTask`).
    pub nestable: bool,
    /// The steps, first to last.
    pub steps: Rows<NestStep>,
}

impl Model for NestTask {
    ghost use Rattle.nested_loop.specs.Plan.{NestTaskPlan};

    ghost Value = { NestTaskPlan };

    ghost view = { λ task. record { nestable = task.nestable; steps = task.steps.items } };
}

/// One action of the thread that runs a nest, outside of all loops.
#[derive(Clone, Copy, Debug, PartialEq, Eq)]
pub enum NestAction {
    /// Posts a task to a main queue.
    Post { task: TaskId, queue: QueueId },
    /// Runs the outermost loop, which quits after this many tasks of its own, or earlier where none is left to run.
    Run(u32),
}

/// A whole nest script: the declarations, and the actions in order. Contracts see it as the record of its lists, without
/// the lists' room.
#[derive(Debug, Drop)]
pub struct Nest {
    /// The priority class of each main queue, from 0, which goes first, to 7: a `QueueId` is a place in this list.
    pub classes: Rows<u8>,
    /// The tasks: a `TaskId` is a place in this list.
    pub tasks: Rows<NestTask>,
    /// What is done outside of all loops, first to last.
    pub actions: Rows<NestAction>,
}

impl Model for Nest {
    ghost use Rattle.nested_loop.specs.Plan.{NestPlan};

    ghost Value = { NestPlan };

    ghost view = { λ nest. record {
      classes = nest.classes.items;
      tasks = nest.tasks.items;
      actions = nest.actions.items;
    } };
}
