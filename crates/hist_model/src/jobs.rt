ghost use Rattle.std.specs.Prelude.{◌≡◌, ℕ, ◌+◌, true, List, length, Option};
ghost use Rattle.task_base.specs.Plan.{Plan};
ghost use Rattle.task_base.specs.declared.entry.Entry.{Entry};
ghost use Rattle.task_base.specs.declared.entry.JobReply.{JobReply};
ghost use Rattle.task_base.specs.declared.entry.Kind.TheVariants as kinds;
ghost use Rattle.task_model.specs.Jobs.{claimed, done};
ghost use Rattle.task_model.specs.Seats.{inside};
ghost use Rattle.hist_model.specs.Allowed.{may_come};
ghost use Rattle.hist_model.specs.Legal.{IsLegal};
ghost use Rattle.hist_model.specs.Laws.Consistent.{HoldsApart};
ghost use Rattle.hist_model.specs.Laws.Jobs.{IsEntering, IsJobStep, IsJoin};

/// In every legal history the claimed items of a job are those that are done and those that seats hold: no item is
/// lost, and none is done that was not claimed.
#[tactic(auto, using(crate::proofs::Laws::Claims::claimed_is))]
pub fn claimed_items_are_done_or_held()
    ensures { (script : Plan) (past : List Entry) (job : ℕ) → IsLegal script past → claimed past job ≡ done past job + length (inside script past job) }
{}

/// In every legal history what a seat holds of a job is claimed, and no two seats hold one item of it, or are inside it under
/// one number.
#[tactic(auto, using(crate::proofs::Laws::HoldsApart::legal_holds_apart))]
pub fn holders_of_a_job_are_apart()
    ensures { (script : Plan) (past : List Entry) → IsLegal script past → HoldsApart script past }
{}

/// An allowed entering of a job is by a seat that holds nothing, of a job that may be entered, under the least number that
/// nobody inside has, at the least unclaimed item. An allowed step is of the item that the seat holds, with that item's
/// value. An allowed join is by the driver, while nobody is inside, with the job's reply.
#[tactic(auto, using(crate::proofs::Laws::JobEntries::entering_is, crate::proofs::Laws::JobEntries::job_step_is, crate::proofs::Laws::JobEntries::join_is))]
pub fn job_entries_are_exact()
    ensures enter { (script : Plan) (past : List Entry) (seat job id item : ℕ) → may_come script past seat (kinds.JobTake job id item) ≡ true → IsEntering script past seat job id item }
    ensures step { (script : Plan) (past : List Entry) (seat job id item value : ℕ) (next : Option ℕ) → may_come script past seat (kinds.JobStep job id item value next) ≡ true → IsJobStep script past seat job id item value next }
    ensures join { (script : Plan) (past : List Entry) (seat job : ℕ) (reply : JobReply) → may_come script past seat (kinds.Joined job reply) ≡ true → IsJoin script past seat job reply }
{}
