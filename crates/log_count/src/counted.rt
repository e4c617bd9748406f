ghost use Rattle.std.specs.Prelude.{◌≡◌, ◌*◌, ℕ, suc, true, List, [], length, map, sum_by};
ghost use Rattle.task_base.specs.Plan.{Plan};
ghost use Rattle.script_model.specs.Laws.Sound.{IsSound};
ghost use Rattle.situation.specs.Counts.{NoDoubles, whole_logs};
ghost use Rattle.situation.specs.Situation.{Situation, is_pool_script, situation_of};
ghost use Rattle.log_count.specs.Layers.{CountAlike, Counted, count_of_logs, found_after, gathered, layer, pasts, whole_of_layer};

/// The layers of a sound script without main queues count its legal, whole logs whose ticks read what the situations before
/// them tell: there are as many as the layers have whole pasts, taken together.
#[tactic(auto, using(crate::proofs::Layers::logs_are_counted))]
pub fn layers_count_the_whole_logs()
    ensures { (script : Plan) (tick : Situation → ℕ) → IsSound script → is_pool_script script ≡ true
        → count_of_logs script tick ≡ length (whole_logs script tick) }
{}

/// A layer has each situation once, with how many pasts of its length are in it: whatever number situations have, its sum over
/// the layer, each as often as it counts, is its sum over the situations of those pasts. After a layer with none, none has any.
#[tactic(auto, using(crate::proofs::Once::situations_once, crate::proofs::Once::layers_end, crate::proofs::Layers::layer_is))]
pub fn layers_count_the_pasts()
    ensures once { (script : Plan) (tick : Situation → ℕ) (n : ℕ) → NoDoubles (map (λ c. c.situation) (layer script tick n)) }
    ensures ends { (script : Plan) (tick : Situation → ℕ) (n : ℕ) → layer script tick n ≡ [] → layer script tick (suc n) ≡ [] }
    ensures counts { (script : Plan) (tick : Situation → ℕ) (number : Situation → ℕ) (n : ℕ) → IsSound script → is_pool_script script ≡ true
        → sum_by (λ c. c.pasts * number c.situation) (layer script tick n) ≡ sum_by (λ past. number (situation_of script past)) (pasts script tick n) }
{}

/// Counts may stand in any order, and a situation more than once: of a list of counts that says what a layer says, what its
/// situations go on to says what the next layer says, with as many whole pasts. So code may keep layers as it likes.
#[tactic(auto, using(crate::proofs::Layers::gathered_alike, crate::proofs::Layers::found_alike, crate::proofs::Layers::whole_alike))]
pub fn counts_may_stand_in_any_order()
    ensures gathered { (found : List Counted) → CountAlike (gathered found) found }
    ensures next { (script : Plan) (tick : Situation → ℕ) (one other : List Counted) → CountAlike one other
        → CountAlike (found_after script tick one) (gathered (found_after script tick other)) }
    ensures whole { (script : Plan) (one other : List Counted) → CountAlike one other → whole_of_layer script one ≡ whole_of_layer script other }
{}
