ghost use Rattle.std.specs.Prelude.{List};
ghost use Rattle.task_base.specs.Plan.{Plan};
ghost use Rattle.task_base.specs.declared.entry.Entry.{Entry};
ghost use Rattle.hist_model.specs.Legal.{IsLegal};
ghost use Rattle.hist_model.specs.Laws.State.{StateMovesAlong};

/// In every legal log the state of a sequence moves along from task to task: each task finds what the last task of its
/// sequence that ended before left, or 0 where none has ended, and it leaves what its own steps make of that. So it is with
/// the main tasks of each queue.
#[tactic(auto, using(crate::proofs::Laws::State::state_moves))]
pub fn state_moves_along()
    ensures { (script : Plan) (log : List Entry) → IsLegal script log → StateMovesAlong script log }
{}
