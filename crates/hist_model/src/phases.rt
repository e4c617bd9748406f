ghost use Rattle.std.specs.Prelude.{◌≡◌, ℕ, true, List, ◌++◌};
ghost use Rattle.task_base.specs.Plan.{Plan};
ghost use Rattle.task_base.specs.declared.entry.Entry.{Entry};
ghost use Rattle.task_traits.specs.Behaviour.{forbids};
ghost use Rattle.task_traits.specs.declared.phase.Phase.TheVariants as phases;
ghost use Rattle.task_traits.specs.declared.traits.Behaviour.{Behaviour};
ghost use Rattle.task_model.specs.Phase.{phase_of};
ghost use Rattle.task_model.specs.Refusal.{is_refused, is_job_forbidden};

/// A phase never goes back, in any history, legal or not. What the phase forbids, it forbids in each longer history:
/// a task that is refused at one place would be refused at each later one, and a job that may not run at one place may
/// not run at any later one. Once shutdown was started the phase is never running again, and once it is done it is done
/// for ever.
#[tactic(auto, using(crate::proofs::Laws::Phases::forbids_on, crate::proofs::Laws::Phases::runs_only_from_running, crate::proofs::Laws::Phases::done_for_ever, crate::proofs::Laws::Phases::refused_on, crate::proofs::Laws::Phases::job_forbidden_on))]
pub fn phases_never_go_back()
    ensures forbids_on { (past rest : List Entry) (behaviour : Behaviour) → forbids (phase_of past) behaviour ≡ true → forbids (phase_of (past ++ rest)) behaviour ≡ true }
    ensures never_running_again { (past rest : List Entry) → phase_of (past ++ rest) ≡ phases.Running → phase_of past ≡ phases.Running }
    ensures done_for_ever { (past rest : List Entry) → phase_of past ≡ phases.Done → phase_of (past ++ rest) ≡ phases.Done }
    ensures refused_on { (script : Plan) (past rest : List Entry) (runner delay : ℕ) → is_refused script past runner delay ≡ true → is_refused script (past ++ rest) runner delay ≡ true }
    ensures job_forbidden_on { (script : Plan) (past rest : List Entry) (job : ℕ) → is_job_forbidden script past job ≡ true → is_job_forbidden script (past ++ rest) job ≡ true }
{}
