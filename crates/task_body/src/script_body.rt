ghost use Rattle.std.specs.Prelude.{◌≡◌, ℕ, ◌∷◌, List};
ghost use Rattle.task_base.specs.declared.step.Step.{Step};
ghost use Rattle.task_body.specs.Progress.{Progress};

use crate::act::Act;
use crate::body::TaskBody;
use std::marker::Model;
use task_base::{Cell, Rows, Step, apply};

/// A body that does one step a call.
#[derive(Debug, Drop)]
pub struct ScriptBody {
    steps: Rows<Step>,
    /// How many are done.
    done: usize,
}

impl Model for ScriptBody {
    ghost use Rattle.std.specs.Prelude.{drop};
    ghost use Rattle.task_body.specs.Bodies.{BodyView};

    ghost Value = { BodyView };

    ghost view = { λ b. record { whole = b.steps.items; rest = drop b.done b.steps.items } };
}

impl ScriptBody {
    /// A body of these steps, of which none is done.
    pub fn new(steps: Rows<Step>) -> ScriptBody
        ensures { result ≡ record { whole = steps.items; rest = steps.items } }
    {
        ScriptBody { steps, done: 0 }
    }
}

impl TaskBody for ScriptBody {
    ghost whole = { λ b. b.whole };

    ghost rest = { λ b. b.rest };

    fn step(&mut self, cell: &mut Cell) -> Act
        ensures whole { self.new.whole ≡ self.old.whole }
        ensures progress { Progress self.old.rest cell.old result self.new.rest cell.new }
        ensures one { (count : ℕ) → result ≡ Act.Did count → count ≡ 1 }
    {
        match self.steps.at(self.done) {
            None => Act::Finished,
            Some(step) => {
                self.done += 1;
                perform(step, cell)
            }
        }
    }
}

/// Does one step: a compute step on the cell, an act step by its answer alone.
fn perform(step: &Step, cell: &mut Cell) -> Act
    ensures progress { (later : List Step) → Progress (step.now ∷ later) cell.old result later cell.new }
    ensures one { (count : ℕ) → result ≡ Act.Did count → count ≡ 1 }
{
    match *step {
        Step::Post {
            task,
            runner,
            delay,
        } => Act::Post {
            task,
            runner,
            delay,
        },
        Step::Main { task, queue, delay } => Act::Main { task, queue, delay },
        Step::Block(scope) => Act::Enter(scope),
        Step::Unblock => Act::Leave,
        Step::Add(_) | Step::Mul(_) | Step::Set(_) => {
            cell.set(apply(step, cell.value()));
            Act::Did(1)
        }
    }
}
