ghost use Rattle.std.specs.Prelude.{◌≡◌, ◌≤◌, ◌<◌, ◌^◌, ℕ, List};
ghost use Rattle.task_base.specs.declared.entry.Entry.{Entry};
ghost use Rattle.hist_model.specs.Legal.{IsLegal};
ghost use Rattle.hist_model.specs.Script.{IsWhole};
ghost use Rattle.task_script.specs.Generated.{generated};
ghost use Rattle.run_summary.specs.Summary.{generated_totals, summary_of};

/// Whatever the interleaving, a run of a generated script adds up to what the script says: every task ends, every item of
/// the job is done, the cells hold the sum of what the tasks add, and the items give the sum of their values.
#[tactic(auto, using(crate::proofs::AddUp::totals_of_generated))]
pub fn runs_of_generated_scripts_add_up()
    ensures { (number size : ℕ) (log : List Entry) → number < 2 ^ 64 → 1 ≤ size → size ≤ 8192
        → IsLegal (generated number size) log → IsWhole (generated number size) log
        → summary_of (generated number size) log ≡ generated_totals number size }
{}
