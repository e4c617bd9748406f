ghost use Rattle.std.specs.Prelude.{List};
ghost use Rattle.task_base.specs.Plan.{Plan};
ghost use Rattle.task_base.specs.declared.entry.Entry.{Entry};
ghost use Rattle.std.specs.Prelude.{◌≡◌};
ghost use Rattle.task_base.specs.Steps.{after};
ghost use Rattle.task_model.specs.Seats.{steps_of};
ghost use Rattle.live_core.specs.Making.{CanMake, Makes};

use crate::books::Work;
use crate::call::Call;
use crate::live::LiveCore;
use crate::unmade::Unmade;
use task_base::{Kind, Script, apply};

// Main tasks: the driver takes and ends them.
impl LiveCore {
    // The driver takes the chosen front of the main queues, unless none is open.
    pub(super) fn main_take(&mut self) -> Result<Kind, Unmade>
        requires { (plan : Plan) × (past : List Entry) × CanMake plan past Call.MainTake self.old }
        ensures { (plan : Plan) (past : List Entry) → CanMake plan past Call.MainTake self.old → Makes plan past Call.MainTake self.old self.new result }
    {
        match self.main.take() {
            None => Ok(Kind::MainNone),
            Some((task, queue, cell)) => {
                let found = cell.value();
                self.cells[0] = Some(cell);
                Ok(Kind::MainTake { task, queue, found })
            }
        }
    }

    // The driver ends its main task: the cell goes home with what the steps leave.
    pub(super) fn main_end(&mut self) -> Result<Kind, Unmade>
        requires { (plan : Plan) × (past : List Entry) × CanMake plan past Call.MainEnd self.old }
        ensures { (plan : Plan) (past : List Entry) → CanMake plan past Call.MainEnd self.old → Makes plan past Call.MainEnd self.old self.new result }
    {
        let work = self.books.runs(0).unwrap();
        let left = left_by(self.books.script(), work);
        let mut cell = self.cells[0].take().unwrap();
        cell.set(left);
        self.main.end(work.home, cell);
        Ok(Kind::MainEnd {
            task: work.task,
            left,
        })
    }
}

/// What the plan's steps of a task leave of what it found.
pub(super) fn left_by(script: &Script, work: Work) -> u64
    ensures { result ≡ after (steps_of script.now work.task) work.found }
{
    match script.tasks.at(work.task as usize) {
        None => work.found,
        Some(task) => task
            .steps
            .as_slice()
            .iter()
            .fold(work.found, |value, step| apply(step, value)),
    }
}
