ghost use Rattle.std.specs.Prelude.{◌≡◌, ◌≤◌, false, List, [], ◌++◌, length};
ghost use Rattle.task_base.specs.Plan.{Plan};
ghost use Rattle.task_base.specs.declared.entry.Entry.{Entry};
ghost use Rattle.script_model.specs.Bound.{events_bound_of};
ghost use Rattle.script_model.specs.Laws.Sound.{IsSound};
ghost use Rattle.hist_model.specs.Legal.{IsLegal};
ghost use Rattle.hist_model.specs.Open.{IsClosed};
ghost use Rattle.hist_model.specs.Script.{is_whole, IsWhole};
ghost use Rattle.hist_model.specs.Laws.Progress.{GoesOn, SomeMayCome, IsAtEnd, AlwaysAllowed, grown};

/// No legal history of a sound script gets stuck: where it is not whole, some entry is allowed after it. More closely, a
/// seat that runs a task may make the entry of its next act step, or its end, and a seat that holds an item of a job may
/// make its step. A driver that runs nothing may make an entry that its action wants next, whoever else runs, unless it is
/// at one of the four actions that wait: a flush, a join, and a cancel and a shutdown behind their first entry. And where
/// nobody runs or holds anything while it waits, the driver may go on too, or it joins a job and may go into it, or it
/// waits at a flush or for shutdown to be done and some worker has something that it may take.
///
/// So whatever is waited for may come. That a thread gets the turn, or runs at all, is not said.
#[tactic(auto, using(crate::proofs::Laws::Progress::Ways::some_may_come, crate::proofs::Laws::Progress::Ways::goes_on))]
pub fn legal_histories_can_go_on()
    ensures some_may_come { (script : Plan) (past : List Entry) → IsSound script → IsLegal script past → is_whole script past ≡ false → SomeMayCome script past }
    ensures goes_on { (script : Plan) (past : List Entry) → IsSound script → IsLegal script past → GoesOn script past }
{}

/// Whoever always makes an entry that is allowed ends with a whole history, in whatever order: the script is finished, no
/// task runs, and nobody is inside a job. No legal history is longer than the script's bound; one after which no entry is
/// allowed is whole, and after a whole one none is; each legal history is the front of a whole one; and a choice that is
/// always allowed makes, from nothing, a legal and whole history of at most as many entries as the bound says.
#[tactic(auto, using(crate::proofs::Laws::Entries::Bound::entries_within, crate::proofs::Laws::Progress::Ends::ends_whole, crate::proofs::Laws::Progress::Ends::whole_is_at_end, crate::proofs::Laws::Progress::Ends::can_be_whole, crate::proofs::Laws::Progress::Ends::choices_end))]
pub fn every_way_ends_whole()
    ensures within_bound { (script : Plan) (past : List Entry) → IsSound script → IsLegal script past → length past ≤ events_bound_of script }
    ensures ends_whole { (script : Plan) (past : List Entry) → IsSound script → IsLegal script past → IsAtEnd script past → IsWhole script past }
    ensures whole_is_at_end { (script : Plan) (past : List Entry) → IsClosed script → IsWhole script past → IsAtEnd script past }
    ensures can_be_whole { (script : Plan) (past : List Entry) → IsSound script → IsLegal script past → (rest : List Entry) × IsLegal script (past ++ rest) × IsWhole script (past ++ rest) }
    ensures choices_end { (script : Plan) (choose : List Entry → Entry) → IsSound script → AlwaysAllowed script choose
        → IsLegal script (grown script choose (events_bound_of script) []) × IsWhole script (grown script choose (events_bound_of script) []) }
{}
