ghost use Rattle.std.specs.Prelude.{◌≡◌, ℕ, ◌&&◌, List, [], ◌∷◌, ◌++◌, Some, is_none};
ghost use Rattle.task_base.specs.Plan.{Plan};
ghost use Rattle.task_base.specs.declared.entry.Entry.{Entry};
ghost use Rattle.hist_model.specs.Allowed.{is_allowed, IsAllowed};
ghost use Rattle.hist_model.specs.Legal.{is_legal, IsLegal, first_illegal, IsIllegalAt};

/// The empty history is legal, and a longer one is legal exactly where the shorter one is and the new entry is
/// allowed after it. The front of a legal history is legal, and each of its entries is allowed after those before
/// it.
#[tactic(auto, using(crate::proofs::Laws::Legal::nothing_is_legal, crate::proofs::Laws::Legal::is_legal_push, crate::proofs::Laws::Legal::front_is_legal, crate::proofs::Laws::Legal::each_is_allowed))]
pub fn legal_histories_grow()
    ensures empty { (script : Plan) → IsLegal script [] }
    ensures longer { (script : Plan) (past : List Entry) (e : Entry) → is_legal script (past ++ e ∷ []) ≡ (is_legal script past && is_allowed script past e) }
    ensures front { (script : Plan) (past rest : List Entry) → IsLegal script (past ++ rest) → IsLegal script past }
    ensures each { (script : Plan) (past : List Entry) (e : Entry) (rest : List Entry) → IsLegal script (past ++ e ∷ rest) → IsAllowed script past e }
{}

/// A history has a first place that is not allowed exactly where it is not legal. The entries before that place are
/// a legal history, and the entry there is not allowed after them.
#[tactic(auto, using(crate::proofs::Laws::Legal::first_illegal_none, crate::proofs::Laws::Legal::first_illegal_some))]
pub fn the_first_illegal_place_is_told()
    ensures none { (script : Plan) (log : List Entry) → is_none (first_illegal script log) ≡ is_legal script log }
    ensures some { (script : Plan) (log : List Entry) (place : ℕ) → first_illegal script log ≡ Some place → IsIllegalAt script log place }
{}
