ghost use Rattle.std.specs.Prelude.{◌≡◌, ◌≤◌, ℕ, List, None, false, true};
ghost use Rattle.task_base.specs.Plan.{Plan};
ghost use Rattle.task_base.specs.declared.entry.Entry.{Entry};
ghost use Rattle.task_base.specs.declared.entry.Kind.{Kind};
ghost use Rattle.task_model.specs.Seats.{is_free};
ghost use Rattle.task_model.specs.Sources.{best_of};
ghost use Rattle.hist_model.specs.Allowed.{may_come};
ghost use Rattle.hist_model.specs.Open.{IsClosed};
ghost use Rattle.env_core.specs.Waits.{may_go_on};

/// Who waits holds up nothing, in a closed plan as each script is. While what the driver's action waits for hasn't come, and the
/// driver runs nothing, the rules let it enter nothing; and so of a worker that runs nothing and may take no source. So either may
/// sleep until that changes.
pub fn who_waits_may_enter_nothing()
    ensures driver { (script : Plan) (past : List Entry) (kind : Kind) → IsClosed script → is_free past 0 ≡ true → may_go_on script past ≡ false
        → may_come script past 0 kind ≡ false }
    ensures worker { (script : Plan) (past : List Entry) (seat : ℕ) (kind : Kind) → IsClosed script → 1 ≤ seat → is_free past seat ≡ true
        → best_of script past seat ≡ None → may_come script past seat kind ≡ false }
{}
