ghost use Rattle.std.specs.Prelude.{Bool, ◌≡◌, ◌≤◌, ◌==◌, ◌&&◌, ◌||◌, not, true, false, ℕ, is_none, filter, length, nat_le, List, Contains};
ghost use Rattle.task_base.specs.Plan.{Plan};
ghost use Rattle.task_base.specs.Steps.{is_act};
ghost use Rattle.task_base.specs.declared.entry.Entry.{Entry};
ghost use Rattle.task_base.specs.declared.entry.Kind.{Kind};
ghost use Rattle.task_base.specs.declared.entry.Kind.TheVariants as kinds;
ghost use Rattle.task_base.specs.declared.limits.TheConstants.{LAST_MOMENT};
ghost use Rattle.task_base.specs.declared.step.Scope.{Scope};
ghost use Rattle.task_traits.specs.declared.phase.Phase.TheVariants as phases;
ghost use Rattle.list_laws.specs.Lists.{holds_of};
ghost use Rattle.task_model.specs.Phase.{phase_of};
ghost use Rattle.task_model.specs.Posts.{Posted, posts, is_taken};
ghost use Rattle.task_model.specs.Refusal.{is_closed, is_refused};
ghost use Rattle.task_model.specs.Seats.{Running, acts_done, is_free, steps_of};
ghost use Rattle.task_model.specs.Time.{now_of};
ghost use Rattle.hist_model.specs.Allowed.{IsAllowed, by_script, by_task, has_acted, is_ready_worker, is_reply, may_come};
ghost use Rattle.hist_model.specs.Legal.{IsLegal};
ghost use Rattle.hist_model.specs.Open.{IsClosed, IsOpen, is_done, is_guest};
ghost use Rattle.hist_model.specs.Script.{current, is_finished, is_wanted, wants};
ghost use Rattle.hist_model.specs.Views.{own_entries};
ghost use Rattle.hist_model.specs.Laws.Open.{IsAtNoTask, IsLeftByShutdown, is_post, starts};
ghost use Rattle.hist_model.specs.Laws.Ways.{but_moment, way_on};

/// Where a plan is closed, as each script is, what the driver, the tasks and the workers may do is as if there were no open
/// plans: the driver does its actions in order, and is finished where none is left; a task enters its act steps in order,
/// and ends behind the last; and each free worker may take.
#[tactic(auto, using(crate::proofs::Laws::Open::closed_wanted, crate::proofs::Laws::Open::closed_finished, crate::proofs::Laws::Open::closed_post, crate::proofs::Laws::Open::closed_main, crate::proofs::Laws::Open::closed_enters, crate::proofs::Laws::Open::closed_leaves, crate::proofs::Laws::Open::closed_acts, crate::proofs::Laws::Open::closed_workers))]
pub fn closed_is_as_before()
    ensures wanted { (script : Plan) (own : List Entry) (kind : Kind) → IsClosed script → is_wanted script own kind ≡ holds_of (λ c. wants own c.action c.made kind) (current script own) }
    ensures finished { (script : Plan) (past : List Entry) → IsClosed script → is_finished script past ≡ is_none (current script (own_entries 0 past)) }
    ensures posted { (script : Plan) (past : List Entry) (seat task runner delay : ℕ) (ok : Bool) → IsClosed script → may_come script past seat (kinds.Post task runner delay ok)
        ≡ ((by_script script past seat (kinds.Post task runner delay ok) || by_task script past seat (kinds.Post task runner delay ok)) && is_reply (is_refused script past runner delay) ok) }
    ensures main_posted { (script : Plan) (past : List Entry) (seat task queue delay : ℕ) (ok : Bool) → IsClosed script → may_come script past seat (kinds.Main task queue delay ok)
        ≡ ((by_script script past seat (kinds.Main task queue delay ok) || by_task script past seat (kinds.Main task queue delay ok)) && is_reply (is_closed past queue) ok) }
    ensures entered { (script : Plan) (past : List Entry) (seat task : ℕ) (scope : Scope) → IsClosed script → may_come script past seat (kinds.Enter task scope) ≡ by_task script past seat (kinds.Enter task scope) }
    ensures left { (script : Plan) (past : List Entry) (seat task : ℕ) → IsClosed script → may_come script past seat (kinds.Leave task) ≡ by_task script past seat (kinds.Leave task) }
    ensures acted { (script : Plan) (past : List Entry) (seat : ℕ) (w : Running) → IsClosed script → has_acted script past seat w ≡ (acts_done past seat == length (filter is_act (steps_of script w.task))) }
    ensures workers { (script : Plan) (past : List Entry) (seat : ℕ) → IsClosed script → is_ready_worker script past seat ≡ (nat_le 1 seat && nat_le seat script.workers && is_free past seat && not (is_finished script past)) }
{}

/// Until shutdown is done, nothing is ever stuck in an open plan: the clock may be read at every moment from the last one on,
/// whoever runs or holds whatever.
#[tactic(auto, using(crate::proofs::Laws::OpenPlans::ticks_come))]
pub fn open_plans_are_never_stuck()
    ensures { (script : Plan) (past : List Entry) (now : ℕ) → IsOpen script → IsLegal script past → is_done (phase_of past) ≡ false → now_of past ≤ now → now ≤ LAST_MOMENT
        → IsAllowed script past (record { seat = 0; kind = kinds.Tick now }) }
{}

/// Once shutdown is done in an open plan, no task is taken, of the pool or of a main queue, and no job is entered. And in every
/// plan, an accepted task of the pool that did not start by then is one that shutdown forbids, and did not wait for. Of each
/// other accepted task that never started `whole_logs_lose_nothing` says why.
#[tactic(auto, using(crate::proofs::Laws::OpenPlans::nothing_starts))]
pub fn nothing_starts_once_shutdown_is_done()
    ensures nothing_starts { (script : Plan) (past : List Entry) (seat : ℕ) (kind : Kind) → IsOpen script → IsLegal script past → phase_of past ≡ phases.Done → may_come script past seat kind ≡ true → starts kind ≡ false }
    ensures left_by_shutdown { (script : Plan) (log : List Entry) (p : Posted) → IsLegal script log → phase_of log ≡ phases.Done → Contains (posts log) p → is_taken log p.task ≡ false → IsLeftByShutdown script log p }
{}

/// In an open plan a worker seat that runs no task has at most one way on: the step of the item that it holds, or else what
/// takes the source that is best for it. A task that runs may post, open and close scopes, and end.
#[tactic(auto, using(crate::proofs::Laws::OpenPlans::worker_way))]
pub fn workers_have_one_way_on()
    ensures { (script : Plan) (past : List Entry) (seat : ℕ) (kind : Kind) → IsOpen script → IsLegal script past → IsAtNoTask script past seat → may_come script past seat kind ≡ true → way_on script past seat ≡ Some kind }
{}

/// A guest never runs a task and never holds an item, and enters nothing but posts.
#[tactic(auto, using(crate::proofs::Laws::OpenPlans::guest_is_free, crate::proofs::Laws::OpenPlans::guest_posts))]
pub fn guests_only_post()
    ensures is_free { (script : Plan) (past : List Entry) (seat : ℕ) → IsLegal script past → 1 ≤ seat → is_guest script seat ≡ true → is_free past seat ≡ true }
    ensures posts { (script : Plan) (past : List Entry) (seat : ℕ) (kind : Kind) → IsLegal script past → 1 ≤ seat → is_guest script seat ≡ true → may_come script past seat kind ≡ true → is_post kind ≡ true }
{}
