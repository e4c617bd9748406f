ghost use Rattle.std.specs.Prelude.{List, ◌++◌, ◌∷◌};
ghost use Rattle.task_base.specs.Plan.{Plan};
ghost use Rattle.task_base.specs.declared.entry.Entry.{Entry};
ghost use Rattle.hist_model.specs.Legal.{IsLegal};
ghost use Rattle.hist_model.specs.Laws.Shutdown.{KeepsShutdown};
ghost use Rattle.hist_model.specs.Laws.ShutdownPlaces.{WaitsAndForbids};

/// Shutdown waits and forbids, in every legal history. A post to the pool, of a task or a job, is refused exactly
/// where the phase forbids its behaviour, and a post to a main queue exactly where the queue is closed. A task is
/// taken and a job is entered only where the phase does not forbid it: no continue or skip work once shutdown
/// started, and none once it is done. Before shutdown is done each accepted block task has its end, no skip task
/// runs, each accepted block job is over, and nobody is inside a skip job.
#[tactic(auto, using(crate::proofs::Laws::Shutdown::Histories::waits_and_forbids))]
pub fn shutdown_waits_and_forbids()
    ensures { (script : Plan) (past : List Entry) (e : Entry) (rest : List Entry) → IsLegal script (past ++ e ∷ rest) → KeepsShutdown script past e.kind }
{}

/// The same over the places of a legal log. Before the place where shutdown is done each accepted task whose behaviour in
/// effect is block has its end, and so has each skip task that was taken; each accepted block job is over, and nobody is
/// inside a skip job. Once shutdown was started, a task is taken and a job is entered only if its behaviour in effect is
/// block, and once shutdown is done none is.
#[tactic(auto, using(crate::proofs::Laws::Shutdown::Places::shutdown_waits_and_forbids))]
pub fn shutdown_waits_and_forbids_over_the_log()
    ensures { (script : Plan) (log : List Entry) → IsLegal script log → WaitsAndForbids script log }
{}
