ghost use Rattle.std.specs.Prelude.{◌≡◌, ℕ, true, List, ◌++◌, ◌∷◌, [], length, Contains};
ghost use Rattle.std.specs.List.{AllByRecursion};
ghost use Rattle.task_base.specs.Plan.{Plan};
ghost use Rattle.task_base.specs.declared.entry.Entry.{Entry};
ghost use Rattle.script_model.specs.Laws.Sound.{IsSound};
ghost use Rattle.hist_model.specs.Allowed.{IsAllowed};
ghost use Rattle.hist_model.specs.Legal.{IsLegal};
ghost use Rattle.hist_model.specs.Open.{IsClosed};
ghost use Rattle.situation.specs.Alike.{without_items};
ghost use Rattle.situation.specs.Counts.{IsFuture, ReadsBy, futures};
ghost use Rattle.situation.specs.Futures.{AlikeFuture};
ghost use Rattle.situation.specs.Situation.{Situation, is_pool_script, situation_of};

/// The situation after an entry goes by the situation before it and the entry, whichever item of a job it is of: of a sound
/// script without main queues, two legal pasts in the same situation come to the same situation by entries that are alike.
/// So they have the same futures: whatever may follow the one, the like of it may follow the other, and leads to the same
/// situation. And as many whole logs go on from the one as from the other, by each number of entries, where the moment of a
/// tick is told by the situation before it.
#[tactic(auto, using(crate::proofs::Onward::Whole::goes_on, crate::proofs::Futures::same_futures, crate::proofs::Counts::as_many))]
pub fn the_situation_moves_on()
    ensures one_more { (script : Plan) (past other : List Entry) (e f : Entry) → IsSound script → is_pool_script script ≡ true → IsLegal script past → IsLegal script other
        → situation_of script past ≡ situation_of script other → e.seat ≡ f.seat → without_items e.kind ≡ without_items f.kind → IsAllowed script past e → IsAllowed script other f
        → situation_of script (past ++ e ∷ []) ≡ situation_of script (other ++ f ∷ []) }
    ensures futures { (script : Plan) (past other rest : List Entry) → IsSound script → is_pool_script script ≡ true → IsLegal script past → IsLegal script other
        → situation_of script past ≡ situation_of script other → IsLegal script (past ++ rest) → AlikeFuture script past other rest }
    ensures as_many { (script : Plan) (tick : Situation → ℕ) (n : ℕ) (past other : List Entry) → IsSound script → is_pool_script script ≡ true → IsLegal script past → IsLegal script other
        → situation_of script past ≡ situation_of script other → length (futures script tick n past) ≡ length (futures script tick n other) }
{}

/// Of a closed plan, `futures` lists what its name says: each list of entries in it is as long as is asked for, and makes the
/// past a legal, whole log; and each that does, and whose ticks read what they are told to, is in it.
#[tactic(auto, using(crate::proofs::Listed::listed_are_futures, crate::proofs::Listed::futures_are_listed))]
pub fn futures_are_the_whole_logs()
    ensures no_other { (script : Plan) (tick : Situation → ℕ) (n : ℕ) (past : List Entry) → IsLegal script past
        → AllByRecursion (IsFuture script n past) (futures script tick n past) }
    ensures each { (script : Plan) (tick : Situation → ℕ) (rest past : List Entry) → IsClosed script → IsLegal script past → ReadsBy script tick past rest
        → IsFuture script (length rest) past rest → Contains (futures script tick (length rest) past) rest }
{}
