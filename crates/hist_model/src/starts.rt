ghost use Rattle.std.specs.Prelude.{List};
ghost use Rattle.task_base.specs.Plan.{Plan};
ghost use Rattle.task_base.specs.declared.entry.Entry.{Entry};
ghost use Rattle.hist_model.specs.Legal.{IsLegal};
ghost use Rattle.hist_model.specs.Laws.Starts.{TasksStartAtMostOnce};

/// A posted task runs at most once. In every legal log a task is taken at most once, from the runner that it was posted
/// to, and only after that post was accepted; it ends at most once, after its take, and on the seat that took it. The
/// same holds of the main tasks and their queues.
#[tactic(auto, using(crate::proofs::Laws::Starts::tasks_start_at_most_once))]
pub fn tasks_start_at_most_once()
    ensures { (script : Plan) (log : List Entry) → IsLegal script log → TasksStartAtMostOnce log }
{}
