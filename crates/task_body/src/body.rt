ghost use Rattle.std.specs.Prelude.{◌≡◌, List};
ghost use Rattle.task_base.specs.declared.step.Step.{Step};
ghost use Rattle.task_body.specs.Progress.{Progress};

use crate::act::Act;
use task_base::Cell;

/// The work of one task (what Chromium keeps as a `OnceClosure` in `base/task/common/task.h`), done in steps on the
/// cell of the task's sequence. A task that has not started may be dropped with its body.
pub trait TaskBody: Drop {
    /// All its steps. No call changes them.
    ghost whole: { Self → List Step };

    /// The steps that are still to do.
    ghost rest: { Self → List Step };

    /// Does the next step, or several compute steps at once, and says which. An act step leaves the cell as it is: the
    /// caller does what is answered.
    fn step(&mut self, cell: &mut Cell) -> Act
        ensures whole { whole self.new ≡ whole self.old }
        ensures progress { Progress (rest self.old) cell.old result (rest self.new) cell.new };
}

impl<B: TaskBody> TaskBody for Box<B> {
    ghost whole = { λ b. B.whole b.value };

    ghost rest = { λ b. B.rest b.value };

    fn step(&mut self, cell: &mut Cell) -> Act {
        self.as_mut().step(cell)
    }
}
