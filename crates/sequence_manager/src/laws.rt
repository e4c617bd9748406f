ghost use Rattle.std.specs.Prelude.{◌≡◌, ◌≤◌, List, [], ◌∷◌, ◌++◌, true, false};
ghost use Rattle.task_base.specs.Plan.{Plan};
ghost use Rattle.task_base.specs.declared.entry.Entry.{Entry};
ghost use Rattle.pool_laws.specs.Runs.{moves_runs};
ghost use Rattle.sequence_manager.specs.Others.{is_still};
ghost use Rattle.sequence_manager.specs.StandsFor.{StandsFor};
ghost use Rattle.sequence_manager.specs.declared.manager.Manager.{Manager};

/// Entries that are not of the main queues change nothing of them: those of the pool, of jobs and of the driver leave what
/// the manager stands for, and so do workers where they take or end a task.
pub fn other_entries_keep_the_main_queues()
    ensures still { (script : Plan) (past : List Entry) (manager : Manager) (e : Entry) → is_still e.kind ≡ true
        → StandsFor script past manager → StandsFor script (past ++ e ∷ []) manager }
    ensures pool { (script : Plan) (past : List Entry) (manager : Manager) (e : Entry) → moves_runs false e.kind ≡ true
        → 1 ≤ e.seat → StandsFor script past manager → StandsFor script (past ++ e ∷ []) manager }
{}
