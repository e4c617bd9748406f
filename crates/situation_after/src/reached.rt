ghost use Rattle.std.specs.Prelude.{◌≡◌, ◌≤◌, ℕ, true, [], Some};
ghost use Rattle.task_base.specs.Plan.{Plan};
ghost use Rattle.task_base.specs.declared.entry.Kind.{Kind};
ghost use Rattle.script_model.specs.Laws.Sound.{IsSound};
ghost use Rattle.situation.specs.Situation.{Situation, is_pool_script, situation_of};
ghost use Rattle.log_count.specs.After.{after_in};
ghost use Rattle.log_count.specs.Ways.{next_in};
ghost use Rattle.situation_after.specs.ComesNext.{ComesNext};
ghost use Rattle.situation_steps.specs.Reached.{IsReached};

/// Whoever goes on from the start of a sound script without main queues, by what the situation says that a seat does next, comes
/// to situations of legal pasts only: the start is one; what is told next in one of them comes next, by whatever clock; and what
/// comes next leads to one.
#[tactic(auto, using(crate::proofs::Comes::the_start_is_reached, crate::proofs::Comes::what_is_next_comes, crate::proofs::Comes::the_next_is_reached))]
pub fn each_situation_is_reached()
    ensures start { (script : Plan) → IsSound script → is_pool_script script ≡ true → IsReached script (situation_of script []) }
    ensures next { (script : Plan) (tick : Situation → ℕ) (s : Situation) (seat : ℕ) (kind : Kind) → IsReached script s → seat ≤ script.workers
        → next_in script tick s seat ≡ Some kind → ComesNext script s seat kind }
    ensures after { (script : Plan) (s : Situation) (seat : ℕ) (kind : Kind) → ComesNext script s seat kind → IsReached script (after_in script s seat kind) }
{}
