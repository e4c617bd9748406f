ghost use Rattle.std.specs.Prelude.{◌≡◌, ℕ, List};
ghost use Rattle.task_base.specs.Plan.{Plan};
ghost use Rattle.task_base.specs.declared.entry.Entry.{Entry};
ghost use Rattle.script_model.specs.Laws.Sound.{IsSound};
ghost use Rattle.hist_model.specs.Legal.{IsLegal};
ghost use Rattle.task_reply.specs.declared.reply.Reply.{Reply};
ghost use Rattle.task_reply.specs.Elaborated.{IsElaborated, IsElaboratedBy};
ghost use Rattle.task_reply.specs.Laws.{ArePostedLast, StartAfterPost, EndAfterReplies};

/// A script and lines without a bad one make one script, and no other.
pub fn elaborated_scripts_are_unique()
    ensures { (script : Plan) (bytes : List ℕ) (one other : Plan) → IsElaboratedBy script bytes one → IsElaboratedBy script bytes other → one ≡ other }
{}

/// In every legal log of a script with replies a reply is posted by its task alone, at most once, to the home that its
/// line names and without a delay. The post stands behind the entries of all act steps that the task has of its own.
#[tactic(auto, using(crate::proofs::RepliesOfLogs::posted_last))]
pub fn replies_are_posted_last()
    ensures { (script result : Plan) (replies : List Reply) (log : List Entry) → IsElaborated script replies result → IsSound result → IsLegal result log
        → ArePostedLast script replies log }
{}

/// In every legal log of a script with replies a reply starts, on a worker or on the main thread, only behind its post,
/// which was accepted.
#[tactic(auto, using(crate::proofs::RepliesOfLogs::start_after_post))]
pub fn replies_start_after_their_post()
    ensures { (script result : Plan) (replies : List Reply) (log : List Entry) → IsElaborated script replies result → IsSound result → IsLegal result log
        → StartAfterPost replies log }
{}

/// In every legal log of a script with replies a task ends only behind the posts of all its replies, accepted or refused,
/// and these stand in the order of the replies' lines.
#[tactic(auto, using(crate::proofs::RepliesOfLogs::end_after_replies))]
pub fn tasks_end_after_their_replies()
    ensures { (script result : Plan) (replies : List Reply) (log : List Entry) → IsElaborated script replies result → IsSound result → IsLegal result log
        → EndAfterReplies replies log }
{}
