ghost use Rattle.std.specs.Prelude.{◌≡◌, ℕ, true, false, List, [], ◌∷◌, ◌++◌, ◌==◌, if◌then◌else◌};
ghost use Rattle.task_base.specs.Plan.{Plan};
ghost use Rattle.task_base.specs.declared.entry.Entry.{Entry};
ghost use Rattle.task_base.specs.declared.entry.Kind.TheVariants as kinds;
ghost use Rattle.task_model.specs.Posts.{is_taken, is_ended, is_main_taken};
ghost use Rattle.pool_laws.specs.Posts.{is_main_ended};
ghost use Rattle.task_model.specs.Seats.{running, holding, acts_done};
ghost use Rattle.hist_model.specs.Views.{own_entries};
ghost use Rattle.hist_model.specs.Allowed.{may_come};
ghost use Rattle.hist_model.specs.Legal.{IsLegal};
ghost use Rattle.hist_model.specs.Laws.Choice.{IsTake, IsMainTake};
ghost use Rattle.hist_model.specs.Laws.Consistent.{DoesOneThing, IsConsistent, RunsAtOneSeat, RunsAtDriver};

/// In every legal history a task that has ended was taken, of the pool and of a main queue; a pool task that runs was
/// accepted and taken and has not ended, and a worker runs it; a main task that runs was accepted and taken and has not
/// ended, and the driver runs it; and no two seats run one pool task, or pool tasks of one sequence.
#[tactic(auto, using(crate::proofs::Laws::Consistent::legal_is_consistent))]
pub fn legal_histories_are_consistent()
    ensures { (script : Plan) (past : List Entry) → IsLegal script past → IsConsistent script past }
{}

/// In every legal history a pool task that was taken and has not ended is run by one seat, which is a worker, and a main
/// task that was taken and has not ended by the driver alone: what was started goes on until it ends.
#[tactic(auto, using(crate::proofs::Laws::OneSeat::runs_at_one_seat, crate::proofs::Laws::OneSeat::runs_at_driver))]
pub fn running_tasks_have_one_seat()
    ensures pool { (script : Plan) (past : List Entry) (task : ℕ) → IsLegal script past → is_taken past task ≡ true → is_ended past task ≡ false → RunsAtOneSeat script past task }
    ensures main { (script : Plan) (past : List Entry) (task : ℕ) → IsLegal script past → is_main_taken past task ≡ true → is_main_ended past task ≡ false → RunsAtDriver past task }
{}

/// In every legal history a seat runs a task or holds an item of a job, and never both. While the driver runs a main
/// task it is at a pump, and while it holds an item at a join.
#[tactic(auto, using(crate::proofs::Laws::OneThing::legal_does_one_thing))]
pub fn seats_do_one_thing()
    ensures { (script : Plan) (past : List Entry) → IsLegal script past → DoesOneThing script past }
{}

/// An allowed take is by a free worker, of the head of a sequence that does not run: an accepted task that was not
/// taken before and may start in the phase, which finds the sequence's cell. An allowed take of a main task is by the
/// driver, of an open front that was not taken before, which finds the queue's cell.
#[tactic(auto, using(crate::proofs::Laws::Takes::take_is, crate::proofs::Laws::Takes::main_take_is))]
pub fn takes_are_of_heads()
    ensures pool { (script : Plan) (past : List Entry) (seat task runner found : ℕ) → may_come script past seat (kinds.Take task runner found) ≡ true → IsTake script past seat task runner found }
    ensures main { (script : Plan) (past : List Entry) (seat task queue found : ℕ) → may_come script past seat (kinds.MainTake task queue found) ≡ true → IsMainTake script past seat task queue found }
{}

/// What a seat runs and holds, and how many act steps it has entered, are told by its own entries; and one more entry
/// of the history is one more of its own seat, and of no other.
#[tactic(auto, using(crate::proofs::Laws::Own::running_own, crate::proofs::Laws::Own::holding_own, crate::proofs::Laws::Own::acts_done_own, crate::proofs::Laws::Own::own_entries_push))]
pub fn own_entries_tell_the_seat()
    ensures running { (past : List Entry) (seat : ℕ) → running (own_entries seat past) seat ≡ running past seat }
    ensures holding { (past : List Entry) (seat : ℕ) → holding (own_entries seat past) seat ≡ holding past seat }
    ensures acts_done { (past : List Entry) (seat : ℕ) → acts_done (own_entries seat past) seat ≡ acts_done past seat }
    ensures longer { (past : List Entry) (e : Entry) (seat : ℕ) → own_entries seat (past ++ e ∷ []) ≡ if e.seat == seat then own_entries seat past ++ e ∷ [] else own_entries seat past }
{}
