ghost use Rattle.std.specs.Prelude.{◌≡◌, ℕ, true, List, Result, Some};
ghost use Rattle.task_base.specs.declared.entry.Kind.{Kind};
ghost use Rattle.live_core.specs.declared.call.Call.{Call};
ghost use Rattle.live_core.specs.declared.unmade.Unmade.{Unmade};
ghost use Rattle.live_roster.specs.declared.wake.Wake.{Wake};
ghost use Rattle.live_request.specs.Asking.{is_within, request_for};
ghost use Rattle.live_request.specs.Heard.{made_of, wake_of};
ghost use Rattle.live_request.specs.Requests.{call_of};
ghost use Rattle.live_request.specs.Slots.{IsCalled, IsSlotOpened, Stands};
ghost use Rattle.live_request.specs.Told.{made_answer, with_wake};
ghost use Rattle.live_request.specs.declared.answer.Answer.{Answer};
ghost use Rattle.live_request.specs.declared.opened.Opened.{Opened};
ghost use Rattle.live_request.specs.declared.request.Request.{Request};
ghost use Rattle.live_request.specs.declared.slot.Slot.{Slot};

/// Nothing is lost on the way to C: an answer determines the entry that was made, with all that stands in it, or why there is
/// none, and whom to wake.
#[tactic(auto, using(crate::proofs::Hearing::made_heard, crate::proofs::Hearing::wake_heard))]
pub fn answers_tell_all()
    ensures made { (made : Result Kind Unmade) (wake : Wake) → made_of (with_wake (made_answer made) wake) ≡ Some made }
    ensures wake { (answer : Answer) (wake : Wake) → wake_of (with_wake answer wake) ≡ Some wake }
{}

/// Nor on the way from C: each call can be asked.
#[tactic(auto, using(crate::proofs::Asking::call_asked))]
pub fn calls_can_be_asked()
    ensures { (by_seat : ℕ) (call : Call) → is_within call ≡ true → call_of (request_for by_seat call) ≡ Some call }
{}

/// Any request may follow once a plan was opened or refused, and any after that: each leaves the slot as the next one asks it to be.
#[tactic(auto, using(crate::proofs::Answering::opened_stands, crate::proofs::Answering::slot_stands))]
pub fn calls_may_follow()
    ensures opening { (bytes : List ℕ) (slot : Slot) (opened : Opened) (reason : ℕ) → IsSlotOpened bytes slot opened reason → Stands slot }
    ensures call { (request : Request) (before after : Slot) (answer : Answer) → Stands before → IsCalled request before after answer → Stands after }
{}
