ghost use Rattle.std.specs.Prelude.{◌≡◌, ◌≤◌, ℕ, List, Some, slice_get};
ghost use Rattle.task_base.specs.Plan.{Plan};
ghost use Rattle.task_base.specs.declared.entry.Entry.{Entry};
ghost use Rattle.hist_model.specs.Legal.{IsLegal};
ghost use Rattle.hist_model.specs.Script.{IsWhole};
ghost use Rattle.trace_json.specs.declared.event.TraceEvent.{TraceEvent};
ghost use Rattle.trace_json.specs.Trace.{trace_of};
ghost use Rattle.trace_json.specs.Spans.{events_of, AreSpans, AreSpansToNow, SequencesShowSingly};

/// In the trace of every legal log a seat has one span at a time: its events begin and end by turns, and each end has the
/// name of the beginning before it. Where the log is whole, each beginning has its end. In the trace of any log, legal or
/// not, the places never fall.
#[tactic(auto, using(crate::proofs::Turns::by_turns, crate::proofs::Turns::whole_spans, crate::proofs::Events::places_never_fall))]
pub fn events_go_by_turns()
    ensures by_turns { (script : Plan) (log : List Entry) (seat : ℕ) → IsLegal script log → AreSpansToNow (events_of seat (trace_of log)) }
    ensures whole { (script : Plan) (log : List Entry) (seat : ℕ) → IsLegal script log → IsWhole script log → AreSpans (events_of seat (trace_of log)) }
    ensures places_never_fall { (log : List Entry) (i k : ℕ) (a b : TraceEvent) → i ≤ k → slice_get (trace_of log) i ≡ Some a → slice_get (trace_of log) k ≡ Some b → a.place ≤ b.place }
{}

/// In the trace of every legal log, while the span of a pool task is open no task of its sequence begins, at whichever seat:
/// where a later one begins, the span has ended before.
#[tactic(auto, using(crate::proofs::Sequences::sequences_show))]
pub fn sequences_show_singly()
    ensures { (script : Plan) (log : List Entry) → IsLegal script log → SequencesShowSingly script log }
{}
