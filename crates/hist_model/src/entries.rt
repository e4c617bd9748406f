ghost use Rattle.std.specs.Prelude.{◌≡◌, ◌≤◌, List, All, length};
ghost use Rattle.task_base.specs.Plan.{Plan};
ghost use Rattle.task_base.specs.declared.entry.Entry.{Entry};
ghost use Rattle.task_base.specs.declared.limits.TheConstants.{MOST_EVENTS};
ghost use Rattle.log_model.specs.Fits.{Fits};
ghost use Rattle.log_model.specs.LogText.{log_text, log_json};
ghost use Rattle.script_model.specs.Bound.{events_bound_of};
ghost use Rattle.script_model.specs.Laws.Sound.{IsSound};
ghost use Rattle.hist_model.specs.Legal.{IsLegal};

/// Every legal log of a sound script, as each script that is read is, has at most as many entries as the script's bound
/// says: each task starts and ends once and does each of its act steps once, each item of a job is claimed and done
/// once, and each action of the driver has the entries that it stands for. So whoever has room for that many entries has
/// room for each history of the script, and no script that is read needs more than the limit of all scripts.
#[tactic(auto, using(crate::proofs::Laws::Entries::Bound::entries_within, crate::proofs::Laws::Entries::Bound::entries_within_limit))]
pub fn entries_are_bounded()
    ensures within_bound { (script : Plan) (log : List Entry) → IsSound script → IsLegal script log → length log ≤ events_bound_of script }
    ensures within_limit { (script : Plan) (log : List Entry) → IsSound script → IsLegal script log → length log ≤ MOST_EVENTS }
{}

/// Each entry of a legal log of a sound script has its seat and its numbers within their types: what it names is declared,
/// moments end with the last moment of all, and values are reckoned modulo 2^64. So no two legal logs of sound scripts have
/// one text, or one JSON form.
#[tactic(auto, using(crate::proofs::Laws::Fitting::Entries::entries_fit, crate::proofs::Laws::Fitting::Entries::same_by_text, crate::proofs::Laws::Fitting::Entries::same_by_json))]
pub fn entries_fit_their_types()
    ensures fits { (script : Plan) (log : List Entry) → IsSound script → IsLegal script log → All Fits log }
    ensures same_by_text { (a b : Plan) (first second : List Entry) → IsSound a → IsSound b → IsLegal a first → IsLegal b second
        → log_text first ≡ log_text second → first ≡ second }
    ensures same_by_json { (a b : Plan) (first second : List Entry) → IsSound a → IsSound b → IsLegal a first → IsLegal b second
        → log_json first ≡ log_json second → first ≡ second }
{}
