ghost use Rattle.std.specs.Prelude.{◌≡◌, ◌≤◌, [], length};
ghost use Rattle.task_body.specs.Progress.{OnlyComputes, Progress};

use crate::act::Act;
use crate::body::TaskBody;
use crate::work::Work;
use std::marker::Model;
use task_base::{Cell, Rows, Step};

/// A body whose first call does all of its work.
#[derive(Drop)]
pub struct OnceBody<W: Work> {
    steps: Rows<Step>,
    /// None once it is done.
    work: Option<W>,
}

impl<W: Work> Model for OnceBody<W> {
    ghost use Rattle.task_body.specs.Bodies.{BodyView, left_of, IsReady};

    ghost Value = { BodyView };

    ghost view = { λ b. record { whole = b.steps.items; rest = left_of b.work b.steps.items } };

    ghost invariant = { λ b. IsReady W.steps b.work b.steps.items };
}

impl<W: Work> OnceBody<W> {
    /// A body that has this work to do, which stands for these steps.
    pub fn new(steps: Rows<Step>, work: W) -> OnceBody<W>
        requires some { 1 ≤ length steps.items }
        requires countable { length steps.items ≤ u32.MAX }
        requires computes { OnlyComputes steps.items }
        requires stands { W.steps work ≡ steps.items }
        ensures { result ≡ record { whole = steps.items; rest = steps.items } }
    {
        OnceBody {
            steps,
            work: Some(work),
        }
    }
}

impl<W: Work> TaskBody for OnceBody<W> {
    ghost whole = { λ b. b.whole };

    ghost rest = { λ b. b.rest };

    fn step(&mut self, cell: &mut Cell) -> Act
        ensures whole { self.new.whole ≡ self.old.whole }
        ensures progress { Progress self.old.rest cell.old result self.new.rest cell.new }
        ensures all_at_once { self.new.rest ≡ [] }
    {
        match self.work.take() {
            None => Act::Finished,
            Some(work) => {
                cell.set(work.run(cell.value()));
                Act::Did(self.steps.len() as u32)
            }
        }
    }
}
