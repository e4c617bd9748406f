ghost use Rattle.std.specs.Prelude.{List};
ghost use Rattle.task_base.specs.Plan.{Plan};
ghost use Rattle.task_base.specs.declared.entry.Entry.{Entry};
ghost use Rattle.hist_model.specs.Legal.{IsLegal};
ghost use Rattle.hist_model.specs.Laws.Singly.{SequencesRunSingly};

/// The tasks of a sequence never overlap. In every legal log, where two tasks of one sequence are taken, the first has
/// ended before the second is taken, whichever workers run them: between a take and its end there is no other take of
/// the sequence, and behind a take whose task does not end there is none. Likewise no two main tasks overlap, of
/// whichever queues.
#[tactic(auto, using(crate::proofs::Laws::Singly::sequences_run_singly))]
pub fn sequences_run_singly()
    ensures { (script : Plan) (log : List Entry) → IsLegal script log → SequencesRunSingly script log }
{}
