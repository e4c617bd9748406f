ghost use Rattle.std.specs.Prelude.{◌≡◌, List, [], ◌∷◌, ◌++◌, true};
ghost use Rattle.task_base.specs.Plan.{Plan};
ghost use Rattle.task_base.specs.declared.entry.Entry.{Entry};
ghost use Rattle.pool_laws.specs.Seats.{moves_main};
ghost use Rattle.pool_core.specs.Others.{is_still};
ghost use Rattle.pool_core.specs.StandsFor.{StandsFor};
ghost use Rattle.pool_core.specs.declared.pool.Pool.{Pool};

/// Entries that are not the pool's change nothing of it. Those of the main queues, and those that only report, leave what
/// the pool stands for; so does the driver where it takes or ends a main task.
pub fn other_entries_keep_the_pool()
    ensures still { (script : Plan) (past : List Entry) (pool : Pool) (e : Entry) → is_still e.kind ≡ true
        → StandsFor script past pool → StandsFor script (past ++ e ∷ []) pool }
    ensures main { (script : Plan) (past : List Entry) (pool : Pool) (e : Entry) → moves_main e.kind ≡ true
        → e.seat ≡ 0 → StandsFor script past pool → StandsFor script (past ++ e ∷ []) pool }
{}
