ghost use Rattle.std.specs.Prelude.{◌≡◌, ◌≤◌, ℕ, true, List};
ghost use Rattle.std.specs.Option.{option_map};
ghost use Rattle.task_base.specs.Plan.{Plan};
ghost use Rattle.task_base.specs.declared.entry.Entry.{Entry};
ghost use Rattle.task_base.specs.declared.entry.Kind.{Kind};
ghost use Rattle.script_model.specs.Laws.Sound.{IsSound};
ghost use Rattle.hist_model.specs.Allowed.{may_come};
ghost use Rattle.hist_model.specs.Legal.{IsLegal};
ghost use Rattle.hist_model.specs.Script.{is_whole};
ghost use Rattle.hist_model.specs.Laws.Ways.{is_due, way_on};
ghost use Rattle.situation.specs.Alike.{without_items};
ghost use Rattle.situation.specs.Situation.{is_pool_script, situation_of};

/// Two legal pasts of a sound script without main queues that are in the same situation may go on alike: each seat has the
/// same way on in both, but for which item of a job it takes or ends, and what the items give; it is due in both or in
/// neither; and both are whole, or neither is. So whatever may come after the one, the like of it may come after the other.
#[tactic(auto, using(crate::proofs::Coming::decides_way, crate::proofs::Coming::decides_due, crate::proofs::Coming::decides_whole, crate::proofs::Coming::decides_coming))]
pub fn the_situation_decides_what_may_come()
    ensures way { (script : Plan) (past other : List Entry) (seat : ℕ) → IsSound script → is_pool_script script ≡ true → IsLegal script past → IsLegal script other
        → situation_of script past ≡ situation_of script other → option_map without_items (way_on script past seat) ≡ option_map without_items (way_on script other seat) }
    ensures due { (script : Plan) (past other : List Entry) (kind like : Kind) → IsSound script → is_pool_script script ≡ true → IsLegal script past → IsLegal script other
        → situation_of script past ≡ situation_of script other → without_items kind ≡ without_items like → is_due script past kind ≡ is_due script other like }
    ensures whole { (script : Plan) (past other : List Entry) → IsSound script → is_pool_script script ≡ true → IsLegal script past → IsLegal script other
        → situation_of script past ≡ situation_of script other → is_whole script past ≡ is_whole script other }
    ensures comes { (script : Plan) (past other : List Entry) (seat : ℕ) (kind : Kind) → IsSound script → is_pool_script script ≡ true → IsLegal script past → IsLegal script other
        → situation_of script past ≡ situation_of script other → seat ≤ script.workers → may_come script past seat kind ≡ true
        → (like : Kind) × (without_items kind ≡ without_items like) × (may_come script other seat like ≡ true) }
{}
