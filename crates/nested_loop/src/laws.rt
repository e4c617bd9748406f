ghost use Rattle.std.specs.Prelude.{◌≡◌, List};
ghost use Rattle.nested_loop.specs.Nest.{IsLegalNest};
ghost use Rattle.nested_loop.specs.NestLaws.{DeferredTasksStartInOrder, NestedTasksAreNestable, TasksAreNested, TasksStartOnce};
ghost use Rattle.nested_loop.specs.Plan.{NestPlan};
ghost use Rattle.nested_loop.specs.declared.event.Event.{Event};

/// A nest has at most one legal log: each event is determined by those before it, and so is the end.
#[tactic(auto, using(crate::proofs::Unique::same_logs))]
pub fn nest_logs_are_unique()
    ensures { (nest : NestPlan) (first second : List Event) → IsLegalNest nest first → IsLegalNest nest second → first ≡ second }
{}

/// In every legal log no task starts twice, and each task that starts was posted before.
#[tactic(auto, using(crate::proofs::LegalNests::tasks_start_once))]
pub fn tasks_of_a_nest_start_once()
    ensures { (nest : NestPlan) (log : List Event) → IsLegalNest nest log → TasksStartOnce log }
{}

/// In every legal log starts and ends are nested like brackets: a task ends where all that started inside of it have ended,
/// and none is left open.
#[tactic(auto, using(crate::proofs::LegalNests::tasks_are_nested))]
pub fn starts_and_ends_are_nested()
    ensures { (nest : NestPlan) (log : List Event) → IsLegalNest nest log → TasksAreNested log }
{}

/// In every legal log no task that is declared `deferred` starts in a nested loop.
#[tactic(auto, using(crate::proofs::LegalNests::nested_are_nestable))]
pub fn deferred_tasks_start_outermost()
    ensures { (nest : NestPlan) (log : List Event) → IsLegalNest nest log → NestedTasksAreNestable nest log }
{}

/// In every legal log tasks that were deferred start in the order in which they were, and none of the tasks that wait starts
/// in the outermost loop while one is deferred.
#[tactic(auto, using(crate::proofs::LegalNests::deferred_start_in_order))]
pub fn deferred_tasks_start_in_order()
    ensures { (nest : NestPlan) (log : List Event) → IsLegalNest nest log → DeferredTasksStartInOrder log }
{}
