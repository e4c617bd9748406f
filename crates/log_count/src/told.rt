ghost use Rattle.std.specs.Prelude.{◌≡◌, ◌≤◌, ℕ, true, List, ◌++◌, ◌∷◌, []};
ghost use Rattle.std.specs.Option.{option_map};
ghost use Rattle.task_base.specs.Plan.{Plan};
ghost use Rattle.task_base.specs.declared.entry.Entry.{Entry};
ghost use Rattle.task_base.specs.declared.entry.Kind.{Kind};
ghost use Rattle.script_model.specs.Laws.Sound.{IsSound};
ghost use Rattle.hist_model.specs.Allowed.{IsAllowed};
ghost use Rattle.hist_model.specs.Legal.{IsLegal};
ghost use Rattle.hist_model.specs.Script.{is_whole};
ghost use Rattle.hist_model.specs.Laws.Ways.{is_due, way_on};
ghost use Rattle.situation.specs.Alike.{without_items};
ghost use Rattle.situation.specs.Counts.{next_of};
ghost use Rattle.situation.specs.Situation.{Situation, is_pool_script, situation_of};
ghost use Rattle.log_count.specs.After.{after_in};
ghost use Rattle.log_count.specs.Ways.{is_due_in, is_whole_in, next_in, way_in};

/// What may come after a legal past of a sound script without main queues is told by its situation alone: the way on of each
/// seat, but for which item of a job it is of; whether a kind is due; whether the past is whole; and what a seat may make now,
/// where a tick reads what the situation before it tells.
#[tactic(auto, using(crate::proofs::Promised::way_told, crate::proofs::Promised::due_told, crate::proofs::Promised::whole_told, crate::proofs::Promised::next_told))]
pub fn the_situation_tells_what_may_come()
    ensures way { (script : Plan) (past : List Entry) (seat : ℕ) → IsSound script → is_pool_script script ≡ true → IsLegal script past
        → option_map without_items (way_on script past seat) ≡ way_in script (situation_of script past) seat }
    ensures due { (script : Plan) (past : List Entry) (kind : Kind) → IsSound script → is_pool_script script ≡ true → IsLegal script past
        → is_due script past kind ≡ is_due_in script (situation_of script past) kind }
    ensures whole { (script : Plan) (past : List Entry) → IsSound script → is_pool_script script ≡ true → IsLegal script past
        → is_whole script past ≡ is_whole_in script (situation_of script past) }
    ensures next { (script : Plan) (tick : Situation → ℕ) (past : List Entry) (seat : ℕ) → IsSound script → is_pool_script script ≡ true → IsLegal script past
        → seat ≤ script.workers
        → option_map (λ (e : Entry). without_items e.kind) (next_of script tick past seat) ≡ next_in script tick (situation_of script past) seat }
{}

/// The situation after an entry that is allowed after a legal past, of a sound script without main queues, is told by the
/// situation of the past and the entry alone, whichever item of a job that is of.
#[tactic(auto, using(crate::proofs::Promised::after_told))]
pub fn the_situation_tells_the_next()
    ensures { (script : Plan) (past : List Entry) (e : Entry) → IsSound script → is_pool_script script ≡ true → IsLegal script past
        → IsAllowed script past e → situation_of script (past ++ e ∷ []) ≡ after_in script (situation_of script past) e.seat (without_items e.kind) }
{}
