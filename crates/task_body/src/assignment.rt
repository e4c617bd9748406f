ghost use Rattle.std.specs.Prelude.{◌≡◌, [], ◌≢◌, ◌<◌, length};
ghost use Rattle.task_base.specs.Steps.{after};
ghost use Rattle.task_body.specs.Progress.{Progress};

use crate::act::Act;
use crate::body::TaskBody;
use std::marker::Model;
use task_base::{Cell, TaskId};

/// A task that was taken: it owns the task's body and the cell of its sequence or main queue.
///
/// It must be spent: it cannot be dropped, and it ends in `split_up` alone. So a body that was taken is stepped to its
/// end before its cell comes free.
pub struct Assignment<B: TaskBody> {
    task: TaskId,
    home: u32,
    found: u64,
    cell: Cell,
    body: Box<B>,
}

impl<B: TaskBody> Model for Assignment<B> {
    ghost use Rattle.task_body.specs.Bodies.{AssignmentView, IsConsistent};

    ghost Value = { AssignmentView };

    ghost view = { λ a. record {
      task = a.task;
      home = a.home;
      found = a.found;
      value = a.cell;
      whole = B.whole a.body.value;
      rest = B.rest a.body.value;
    } };

    ghost invariant = { λ a. IsConsistent (record {
      task = a.task;
      home = a.home;
      found = a.found;
      value = a.cell;
      whole = B.whole a.body.value;
      rest = B.rest a.body.value;
    }) };
}

impl<B: TaskBody> Assignment<B> {
    ghost use Rattle.task_body.specs.Bodies.{IsConsistent};

    /// A task that was taken from its home, a runner or a main queue, with the cell that it found there.
    pub fn new(task: TaskId, home: u32, cell: Cell, body: Box<B>) -> Assignment<B>
        requires { B.rest body.value ≡ B.whole body.value }
        ensures { result ≡ record {
          task = task;
          home = home;
          found = cell;
          value = cell;
          whole = B.whole body.value;
          rest = B.whole body.value;
        } }
    {
        Assignment {
            task,
            home,
            found: cell.value(),
            cell,
            body,
        }
    }

    /// The task.
    pub fn task(&self) -> TaskId
        ensures { result ≡ self.now.task }
    {
        self.task
    }

    /// The runner or main queue that the task was posted to.
    pub fn home(&self) -> u32
        ensures { result ≡ self.now.home }
    {
        self.home
    }

    /// What the cell held when the task was taken.
    pub fn found(&self) -> u64
        ensures { result ≡ self.now.found }
    {
        self.found
    }

    /// What the cell holds now.
    pub fn value(&self) -> u64
        ensures value { result ≡ self.now.value }
        ensures consistent { IsConsistent self.now }
        ensures ended { self.now.rest ≡ [] → result ≡ after self.now.whole self.now.found }
    {
        self.cell.value()
    }

    /// One step of the body on the cell.
    pub fn step(&mut self) -> Act
        ensures progress { Progress self.old.rest self.old.value result self.new.rest self.new.value }
        ensures unchanged { self.new ≡ record self.old { value = self.new.value; rest = self.new.rest } }
        ensures consistent { IsConsistent self.new }
        ensures shorter { result ≢ Act.Finished → length self.new.rest < length self.old.rest }
        ensures finished { result ≡ Act.Finished → self.new.rest ≡ [] }
    {
        self.body.step(&mut self.cell)
    }

    /// Gives the cell and the body, once no step is left.
    pub fn split_up(self) -> (Cell, Box<B>)
        requires { self.rest ≡ [] }
        ensures cell { result.0 ≡ self.value }
        ensures left { result.0 ≡ after self.whole self.found }
        ensures whole { B.whole result.1.value ≡ self.whole }
        ensures rest { B.rest result.1.value ≡ [] }
    {
        let Assignment {
            task: _,
            home: _,
            found: _,
            cell,
            body,
        } = self;
        (cell, body)
    }
}
