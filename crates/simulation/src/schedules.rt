ghost use Rattle.std.specs.Prelude.{◌≡◌, List, []};
ghost use Rattle.task_base.specs.Plan.{Plan};
ghost use Rattle.task_base.specs.declared.entry.Entry.{Entry};
ghost use Rattle.hist_model.specs.Legal.{IsLegal};
ghost use Rattle.hist_model.specs.Open.{IsClosed};
ghost use Rattle.simulation.specs.Schedule.{Turn, by_turns, turns_of};

/// Every legal log can come: some turns make it, those of its own seats. And whatever the turns, what they make is legal.
#[tactic(auto, using(crate::proofs::Turns::turns_make_it, crate::proofs::Turns::made_is_legal))]
pub fn every_legal_log_is_made_by_turns()
    ensures made { (script : Plan) (log : List Entry) → IsClosed script → IsLegal script log → by_turns script [] (turns_of log) ≡ log }
    ensures legal { (script : Plan) (turns : List Turn) → IsLegal script (by_turns script [] turns) }
{}
