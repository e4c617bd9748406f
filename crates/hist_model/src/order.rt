ghost use Rattle.std.specs.Prelude.{List};
ghost use Rattle.task_base.specs.Plan.{Plan};
ghost use Rattle.task_base.specs.declared.entry.Entry.{Entry};
ghost use Rattle.hist_model.specs.Legal.{IsLegal};
ghost use Rattle.hist_model.specs.Laws.Order.{TakenInOrder};

/// In every legal log the tasks of a sequence are taken in order: of two of them that were posted without a delay, the one
/// that was posted first; a delayed task has its turn at the first tick at or past its ripe moment, and of those that
/// ripen at one tick the one with the lesser ripe moment goes first, then the one that was posted first. So it is with
/// the main tasks of each queue, the immediate ones among themselves and the delayed ones among themselves.
#[tactic(auto, using(crate::proofs::Laws::Order::Taken::taken_in_order))]
pub fn tasks_are_taken_in_order()
    ensures { (script : Plan) (log : List Entry) → IsLegal script log → TakenInOrder script log }
{}
