use crate::nest::Nest;
use crate::script::script_of;
use sequence_manager::Manager;
use std::alloc::{AllocError, Global};
use task_base::{Place, QueueId, TaskId};

/// The tasks that were posted, and neither deferred nor started: the manager of the main queues keeps them. A task that is
/// taken is ended there at once, with the cell of its queue as it was.
#[derive(Drop)]
pub(crate) struct Waiting {
    queues: Manager,
    /// How many entries the manager has seen.
    place: Place,
}

impl Waiting {
    ghost use Rattle.std.specs.Prelude.{◌≡◌, List, [], ◌∷◌, ◌++◌, IfOk};
    ghost use Rattle.nested_loop.specs.Keeping.{KeepsManager, CanPostNext, CanTakeNext, IsTakenFrom};
    ghost use Rattle.nested_loop.specs.Nest.{front_task};
    ghost use Rattle.nested_loop.specs.Plan.{NestPlan};
    ghost use Rattle.nested_loop.specs.Sound.{IsSoundNest};
    ghost use Rattle.nested_loop.specs.declared.event.Event.{Event};
    ghost use Rattle.nested_loop.specs.declared.event.Event.TheVariants as events;

    /// No task waits. The error is want of memory.
    pub fn new(alloc: Global, nest: &Nest) -> Result<Waiting, AllocError>
        requires { IsSoundNest nest.now }
        ensures { IfOk result (λ waiting. KeepsManager nest.now [] waiting) }
    {
        let script = script_of(alloc, nest)?;
        let queues = Manager::new(alloc, &script)?;
        Ok(Waiting { queues, place: 0 })
    }

    /// A task is posted.
    pub fn post(&mut self, task: TaskId, queue: QueueId)
        requires { (nest : NestPlan) × (past : List Event) × CanPostNext nest past self.old task queue }
        ensures { (nest : NestPlan) (past : List Event) → CanPostNext nest past self.old task queue
            → KeepsManager nest (past ++ events.Post task queue ∷ []) self.new }
    {
        let _ = self.queues.post(self.place, task, queue, 0);
        self.place += 1;
    }

    /// Takes the front, if a task waits.
    pub fn take(&mut self) -> Option<TaskId>
        requires { (nest : NestPlan) × (past : List Event) × CanTakeNext nest past self.old }
        ensures front { (nest : NestPlan) (past : List Event) → CanTakeNext nest past self.old → result ≡ front_task nest past }
        ensures taken { (nest : NestPlan) (past : List Event) → CanTakeNext nest past self.old → IsTakenFrom nest past result self.new }
    {
        let (task, queue, cell) = self.queues.take()?;
        self.queues.end(queue, cell);
        self.place += 2;
        Some(task)
    }
}
