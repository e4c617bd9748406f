ghost use Rattle.std.specs.Prelude.{List, Contains};
ghost use Rattle.task_base.specs.Plan.{Plan};
ghost use Rattle.task_base.specs.declared.entry.Entry.{Entry};
ghost use Rattle.script_model.specs.Laws.Sound.{IsSound};
ghost use Rattle.task_model.specs.Posts.{Posted, posts};
ghost use Rattle.task_model.specs.Sources.{sequence_candidate};
ghost use Rattle.hist_model.specs.Legal.{IsLegal};
ghost use Rattle.hist_model.specs.Script.{IsWhole};
ghost use Rattle.hist_model.specs.Laws.Whole.{sequence_at, WaitsInSequence, IsLeftToWorkers, LosesNothing};

/// A legal and whole log loses nothing. No seat runs a task or holds an item of a job. Each task that was taken has its
/// end, of the pool and of the main queues, and each item of a job that was claimed has its step.
///
/// An accepted task of the pool that was never taken has one of three reasons: shutdown forbids it to start, it is
/// delayed and no tick has come to its ripe moment, or it waits in its sequence, behind a head or as the head. Where the
/// script is sound, that sequence is left to the workers: the policy holds it back, or it waits, and the script was
/// finished before a worker took it. An accepted main task that was never taken is of a closed queue, or is delayed and
/// not ripe, or lies in a lane of its queue, behind a front or as the front.
#[tactic(auto, using(crate::proofs::Laws::Whole::Losing::loses_nothing))]
pub fn whole_logs_lose_nothing()
    ensures loses_nothing { (script : Plan) (log : List Entry) → IsLegal script log → IsWhole script log → LosesNothing script log }
    ensures waits_for_workers { (script : Plan) (log : List Entry) (p : Posted) → IsSound script → IsLegal script log → Contains (posts log) p → (w : WaitsInSequence script log p) → IsLeftToWorkers script log (sequence_candidate script log (sequence_at script p) w.head) }
{}
