ghost use Rattle.std.specs.Prelude.{List};
ghost use Rattle.task_base.specs.Plan.{Plan};
ghost use Rattle.task_base.specs.declared.entry.Entry.{Entry};
ghost use Rattle.hist_model.specs.Legal.{IsLegal};
ghost use Rattle.hist_model.specs.Laws.Refusals.{RefusalsAreExact};

/// In every legal log a post is refused exactly where it must be, and its reply says so. A task whose behaviour in
/// effect is continue or skip is refused exactly where shutdown was started before, and one whose behaviour in effect is
/// block exactly where shutdown was done before; so is a job by its own behaviour. A main task is refused exactly where
/// its queue was closed before. No other post is refused.
#[tactic(auto, using(crate::proofs::Laws::Refusals::refusals_are_exact))]
pub fn refusals_are_exact()
    ensures { (script : Plan) (log : List Entry) → IsLegal script log → RefusalsAreExact script log }
{}
