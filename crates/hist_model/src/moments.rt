ghost use Rattle.std.specs.Prelude.{◌≡◌, ◌<◌, ℕ, true, List, [], ◌∷◌, ◌++◌, Some, Contains};
ghost use Rattle.task_base.specs.Plan.{Plan};
ghost use Rattle.task_base.specs.declared.entry.Entry.{Entry};
ghost use Rattle.task_base.specs.declared.entry.Kind.TheVariants as kinds;
ghost use Rattle.task_model.specs.Posts.{Posted, main_posts, ripens_before};
ghost use Rattle.task_model.specs.Orders.{ripens, order_of};
ghost use Rattle.queue_laws.specs.Orders.{OrdersDistinct};
ghost use Rattle.hist_model.specs.Legal.{IsLegal};
ghost use Rattle.hist_model.specs.Laws.Rising.{Rises};

/// In every legal history the moments of the ticks never fall, so that no tick has come to a moment ahead; the tasks that
/// have keys are those that arrived, and the main tasks that have orders likewise; each order that was drawn is below the
/// next draw; only a task that was taken has an open scope; and no two main tasks have one order. Of two main tasks that
/// ripen at one tick, the one that ripens before the other has the lesser order.
pub fn moments_and_orders_rise()
    ensures rises { (script : Plan) (past : List Entry) → IsLegal script past → Rises past }
    ensures distinct { (script : Plan) (past : List Entry) → IsLegal script past → OrdersDistinct past }
    ensures ripened { (script : Plan) (past : List Entry) (e : Entry) (p q : Posted) (moment m n : ℕ) → IsLegal script past → e.kind ≡ kinds.Tick moment
        → Contains (main_posts past) p → ripens past moment p ≡ true → ripens past moment q ≡ true → ripens_before p q ≡ true
        → order_of (past ++ e ∷ []) p ≡ Some m → order_of (past ++ e ∷ []) q ≡ Some n → m < n }
{}
