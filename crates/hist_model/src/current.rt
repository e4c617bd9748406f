ghost use Rattle.std.specs.Prelude.{◌≡◌, true, false, List, ◌++◌, ◌∷◌, [], Some, None};
ghost use Rattle.task_base.specs.Plan.{Plan};
ghost use Rattle.task_base.specs.declared.entry.Entry.{Entry};
ghost use Rattle.hist_model.specs.Script.{Current, current};
ghost use Rattle.hist_model.specs.Laws.Agenda.{agenda, agenda_after, completes, current_of};

/// What one more entry of the driver does to the action that it is at: the action goes on with one more entry made; or
/// the entry completes it, and the next one begins with nothing made. A finished script stays finished. The agenda is
/// the list of what is left, which begins with the current action.
#[tactic(auto, using(crate::proofs::Laws::Agenda::current_is_first, crate::proofs::Laws::Agenda::agenda_push, crate::proofs::Laws::Agenda::current_stays, crate::proofs::Laws::Agenda::next_begins, crate::proofs::Laws::Agenda::finished_stays))]
pub fn the_current_action_moves_on()
    ensures agenda_begins_with_current { (script : Plan) → (own : List Entry) → current script own ≡ current_of (agenda script own) }
    ensures agenda_moves_on { (script : Plan) → (own : List Entry) → (e : Entry) → agenda script (own ++ e ∷ []) ≡ agenda_after (agenda script own) e }
    ensures goes_on { (script : Plan) → (own : List Entry) → (e : Entry) → (c : Current) → current script own ≡ Some c → completes c.action c.made e.kind ≡ false
        → current script (own ++ e ∷ []) ≡ Some (record { action = c.action; made = c.made ++ e ∷ [] }) }
    ensures next_begins { (script : Plan) → (own : List Entry) → (e : Entry) → (c d : Current) → current script own ≡ Some c → completes c.action c.made e.kind ≡ true
        → current script (own ++ e ∷ []) ≡ Some d → d.made ≡ [] }
    ensures stays_finished { (script : Plan) → (own : List Entry) → (e : Entry) → current script own ≡ None → current script (own ++ e ∷ []) ≡ None }
{}
