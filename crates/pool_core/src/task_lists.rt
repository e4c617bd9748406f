ghost use Rattle.std.specs.Prelude.{◌≡◌, ◌<◌, length, replicate, None, IfOk};
ghost use Rattle.pool_core.specs.TaskLists.{AreApart, AreAsMany, IsPopped, no_line, with_task};

use std::alloc::{AllocError, Global};
use std::marker::Model;
use task_base::TaskId;

/// How many tasks a list has, and the first of them.
#[derive(Clone, Copy, Debug)]
pub struct TaskLine {
    pub first: TaskId,
    pub count: usize,
}

/// Tasks in lists, each in one at most, where the last one to come in is the first. All room is taken by `new`, and each
/// call takes constant time.
#[derive(Debug, Drop)]
pub struct TaskLists {
    lines: Vec<TaskLine>,
    /// What comes after each task that is in a list; after the last one of a list it is any task.
    after: Vec<Option<TaskId>>,
}

impl Model for TaskLists {
    ghost use Rattle.pool_core.specs.TaskLists.{AreApart, Lists};

    ghost Value = { Lists };

    ghost view = { λ l. record { lines = l.lines.items; after = l.after.items } };

    ghost invariant = { λ l. AreApart (record { lines = l.lines.items; after = l.after.items }) };
}

impl TaskLists {
    /// This many empty lists of that many tasks. The error is out of memory.
    pub fn new(alloc: Global, lists: usize, tasks: usize) -> Result<TaskLists, AllocError>
        ensures { IfOk result (λ made. made ≡ record { lines = replicate lists no_line; after = replicate tasks None }) }
    {
        let empty = TaskLine { first: 0, count: 0 };
        Ok(TaskLists {
            lines: vec![in alloc; empty; lists]?,
            after: vec![in alloc; None; tasks]?,
        })
    }

    /// Puts a task in front of a list, unless it is in one.
    pub fn push(&mut self, list: usize, task: TaskId)
        requires there { list < length self.old.lines }
        requires known { task < length self.old.after }
        ensures { self.new ≡ with_task self.old list task }
    {
        if self.after[task as usize].is_none() {
            let line = self.lines[list];
            self.after[task as usize] = Some(line.first);
            self.lines[list] = TaskLine {
                first: task,
                count: line.count + 1,
            };
        }
    }

    /// Takes the first task out of a list, where there is one.
    pub fn pop(&mut self, list: usize) -> Option<TaskId>
        requires { list < length self.old.lines }
        ensures shape { AreAsMany self.new self.old }
        ensures apart { AreApart self.new }
        ensures popped { IsPopped self.old self.new list result }
    {
        let line = self.lines[list];
        if line.count == 0 {
            return None;
        }
        let task = line.first;
        let first = self.after[task as usize].unwrap_or(0);
        self.after[task as usize] = None;
        self.lines[list] = TaskLine {
            first,
            count: line.count - 1,
        };
        Some(task)
    }
}
