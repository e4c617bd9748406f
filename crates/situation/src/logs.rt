ghost use Rattle.std.specs.Prelude.{ℕ, Bool, List, Contains, length};
ghost use Rattle.std.specs.List.{AllByRecursion};
ghost use Rattle.task_base.specs.Plan.{Plan};
ghost use Rattle.task_base.specs.declared.entry.Entry.{Entry};
ghost use Rattle.script_model.specs.Laws.Sound.{IsSound};
ghost use Rattle.hist_model.specs.Legal.{IsLegal};
ghost use Rattle.hist_model.specs.Open.{IsClosed};
ghost use Rattle.situation.specs.Counts.{GoesOn, IsWholeLog, NoDoubles, ReadsBy, futures, goings, whole_logs};
ghost use Rattle.situation.specs.Situation.{Situation};

/// No log stands twice among the `futures` of a past, nor among the `whole_logs` of a script; and of a sound script these are
/// just its legal, whole logs whose ticks read what the situations before them tell. So their number is the length of that list.
#[tactic(auto, using(crate::proofs::Once::each_future_once, crate::proofs::Once::each_log_once, crate::proofs::Once::logs_are_whole, crate::proofs::Once::whole_logs_are_listed))]
pub fn each_whole_log_is_listed_once()
    ensures futures_once { (script : Plan) (tick : Situation → ℕ) (n : ℕ) (past : List Entry) → NoDoubles (futures script tick n past) }
    ensures once { (script : Plan) (tick : Situation → ℕ) → NoDoubles (whole_logs script tick) }
    ensures no_other { (script : Plan) (tick : Situation → ℕ) → AllByRecursion (IsWholeLog script tick) (whole_logs script tick) }
    ensures each { (script : Plan) (tick : Situation → ℕ) (log : List Entry) → IsSound script → IsWholeLog script tick log
        → Contains (whole_logs script tick) log }
{}

/// Of a closed plan, `goings` lists the lists of entries by which a legal past goes on to legal ones that pass a test, each once:
/// those of the asked length whose ticks read what the situations before them tell.
#[tactic(auto, using(crate::proofs::Once::each_going_once, crate::proofs::Once::listed_read_by, crate::proofs::Listed::listed_go_on, crate::proofs::Listed::goings_are_listed))]
pub fn each_going_is_listed_once()
    ensures once { (script : Plan) (tick : Situation → ℕ) (test : List Entry → Bool) (n : ℕ) (past : List Entry) → NoDoubles (goings test script tick n past) }
    ensures no_other { (test : List Entry → Bool) (script : Plan) (tick : Situation → ℕ) (n : ℕ) (past : List Entry) → IsLegal script past
        → AllByRecursion (GoesOn test script n past) (goings test script tick n past) }
    ensures moments { (script : Plan) (tick : Situation → ℕ) (test : List Entry → Bool) (n : ℕ) (past : List Entry)
        → AllByRecursion (ReadsBy script tick past) (goings test script tick n past) }
    ensures each { (test : List Entry → Bool) (script : Plan) (tick : Situation → ℕ) (rest past : List Entry) → IsClosed script → IsLegal script past
        → ReadsBy script tick past rest → GoesOn test script (length rest) past rest → Contains (goings test script tick (length rest) past) rest }
{}
