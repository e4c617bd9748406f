ghost use Rattle.std.specs.Prelude.{◌≡◌, ◌≤◌, ℕ, List, is_none};
ghost use Rattle.task_base.specs.Plan.{Plan};
ghost use Rattle.task_base.specs.declared.entry.Entry.{Entry};
ghost use Rattle.task_base.specs.declared.entry.Kind.{Kind};
ghost use Rattle.live_core.specs.Calls.{call_of, fits};
ghost use Rattle.open_explain.specs.Parts.{part_of};

/// A seat of an open plan may make the call of an entry exactly where none of the things fails that the call asks for.
#[tactic(auto, using(crate::proofs::Fitting::fits_where_none_fails))]
pub fn parts_are_exact()
    ensures { (plan : Plan) (past : List Entry) (seat : ℕ) (kind : Kind) → seat ≤ plan.workers
        → fits plan past (call_of seat kind) ≡ is_none (part_of plan past seat kind) }
{}
