ghost use Rattle.std.specs.Prelude.{◌≡◌, ◌↔◌, ℕ, ◌≤◌, IsTrue, List, ◌∷◌, []};
ghost use Rattle.task_base.specs.Plan.{Plan};
ghost use Rattle.task_base.specs.declared.entry.Entry.{Entry};
ghost use Rattle.hist_model.specs.Allowed.{IsAllowed};
ghost use Rattle.hist_model.specs.Legal.{IsLegal};
ghost use Rattle.hist_model.specs.Laws.Postings.{AreAcceptedOnce, IsNew, kind_posts, posted_in};
ghost use Rattle.script_model.specs.Laws.Postings.{IsPostedOnce, is_posted_once, times};

/// In each legal history of a script in which no two postings name one task, each task is posted at most once, accepted
/// or refused. So the accepted tasks differ, none is on the pool and on a main queue, and a task that is posted was
/// neither posted, accepted, taken nor ended before. Whether a script is such a one is tested on its list of postings.
#[tactic(auto, using(crate::proofs::Laws::Postings::Counts::posted_at_most_once, crate::proofs::Laws::Postings::Once::each_is_accepted_once, crate::proofs::Laws::Postings::Differing::posted_once_decides))]
pub fn each_task_is_posted_once()
    ensures tested { (script : Plan) → IsTrue (is_posted_once script) ↔ IsPostedOnce script }
    ensures posted_at_most_once { (script : Plan) → (past : List Entry) → (t : ℕ) → IsPostedOnce script → IsLegal script past → times t (posted_in past) ≤ 1 }
    ensures accepted_at_most_once { (script : Plan) → (past : List Entry) → IsPostedOnce script → IsLegal script past → AreAcceptedOnce past }
    ensures posted_task_is_new { (script : Plan) → (past : List Entry) → (e : Entry) → (t : ℕ) → IsPostedOnce script → IsLegal script past → IsAllowed script past e → kind_posts e.kind ≡ t ∷ [] → IsNew past t }
{}
