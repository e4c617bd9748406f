use std::alloc::{AllocError, Global};
use std::marker::Model;
use task_base::{Rows, TaskId};

/// The tasks that wait for the outermost loop, in the order in which they were deferred, with room that is taken ahead of
/// time. Those that have started stay in the list, before the others, and contracts don't see them.
#[derive(Drop)]
pub(crate) struct Deferred {
    tasks: Rows<TaskId>,
    started: usize,
}

impl Model for Deferred {
    ghost use Rattle.std.specs.Prelude.{ℕ, ◌≤◌, drop, length};
    ghost use Rattle.task_base.specs.Rows.{Listed};

    ghost Value = { Listed ℕ };

    ghost view = { λ d. record { items = drop d.started d.tasks.items; spare = d.tasks.spare } };

    ghost invariant = { λ d. d.started ≤ length d.tasks.items };
}

impl Deferred {
    ghost use Rattle.std.specs.Prelude.{◌≡◌, ◌+◌, ◌<◌, ◌≤◌, ◌++◌, ◌∷◌, [], IfOk, drop, slice_get};

    /// No task, with room for so many. The error is want of memory.
    pub fn new(alloc: Global, room: usize) -> Result<Deferred, AllocError>
        ensures items { IfOk result (λ deferred. deferred.items ≡ []) }
        ensures room { IfOk result (λ deferred. room ≤ deferred.spare) }
    {
        let mut tasks = Rows::new(alloc);
        tasks.reserve(room)?;
        Ok(Deferred { tasks, started: 0 })
    }

    /// One more task waits, behind the others.
    pub fn push(&mut self, task: TaskId)
        requires { 0 < self.old.spare }
        ensures items { self.new.items ≡ self.old.items ++ task ∷ [] }
        ensures spare { self.new.spare + 1 ≡ self.old.spare }
    {
        self.tasks.push_spare(task);
    }

    /// Takes the first task, if there is one.
    pub fn take_first(&mut self) -> Option<TaskId>
        ensures first { result ≡ slice_get self.old.items 0 }
        ensures items { self.new.items ≡ drop 1 self.old.items }
        ensures spare { self.new.spare ≡ self.old.spare }
    {
        let first = self.tasks.at(self.started).copied()?;
        self.started += 1;
        Some(first)
    }
}
