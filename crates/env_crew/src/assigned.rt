ghost use Rattle.std.specs.Prelude.{◌≡◌, ◌≢◌, ◌<◌, [], length};
ghost use Rattle.task_body.specs.Bodies.{AssignmentView};
ghost use Rattle.task_body.specs.Progress.{Progress};

use task_base::TaskId;
use task_body::{Act, Assignment, TaskBody};

/// A task that a seat has taken and does step by step: what a desk hands out, and takes back at the end.
///
/// It is what `serve` and `drive` ask of a desk's assignments, whatever their bodies are (this project's own rule). A task
/// that was taken can't be forgotten: only a desk's `end` or `main_end` spends it.
pub trait Assigned {
    /// The task, its home, what it found, its value now, all its steps, and those that are still to do.
    ghost work: { Self → AssignmentView };

    /// The task, which a worker names at the gate.
    fn task(&self) -> TaskId
        ensures { result ≡ (work self.now).task };

    /// One step of the body, or several compute steps at once. An act is only told: the seat enters it at its desk,
    /// before the next step.
    fn step(&mut self) -> Act
        ensures progress { Progress (work self.old).rest (work self.old).value result (work self.new).rest (work self.new).value }
        ensures unchanged { work self.new ≡ record (work self.old) { value = (work self.new).value; rest = (work self.new).rest } }
        ensures shorter { result ≢ Act.Finished → length (work self.new).rest < length (work self.old).rest }
        ensures finished { result ≡ Act.Finished → (work self.new).rest ≡ [] };
}

impl<B: TaskBody> Assigned for Assignment<B> {
    ghost work = { λ a. a };

    fn task(&self) -> TaskId {
        Assignment::task(self)
    }

    fn step(&mut self) -> Act {
        Assignment::step(self)
    }
}
