ghost use Rattle.std.specs.Prelude.{List};
ghost use Rattle.task_base.specs.Plan.{Plan};
ghost use Rattle.task_base.specs.declared.entry.Entry.{Entry};
ghost use Rattle.hist_model.specs.Legal.{IsLegal};
ghost use Rattle.hist_model.specs.Laws.Fences.{KeepsFences};

/// In every legal log no main queue passes its fence. Where a queue has a fence, only a task whose order is below it is
/// taken: one that drew its order before the fence, where the last one was set behind the tasks of then, and none at all
/// where it was set at the start. Of a queue that was closed no task is taken, and where one is taken each voter of its
/// queue votes on: none is taken where the last vote of one of them was off.
#[tactic(auto, using(crate::proofs::Laws::Fences::no_queue_passes_its_fence))]
pub fn no_queue_passes_its_fence()
    ensures { (script : Plan) (log : List Entry) → IsLegal script log → KeepsFences script log }
{}
