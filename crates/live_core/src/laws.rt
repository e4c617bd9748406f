ghost use Rattle.std.specs.Prelude.{◌≡◌, ◌⊎◌, ℕ, true, false, List, [], length, Result, Ok};
ghost use Rattle.task_base.specs.Plan.{Plan};
ghost use Rattle.task_base.specs.declared.entry.Entry.{Entry};
ghost use Rattle.task_base.specs.declared.entry.Kind.{Kind};
ghost use Rattle.hist_model.specs.Allowed.{may_come};
ghost use Rattle.hist_model.specs.Legal.{IsLegal};
ghost use Rattle.hist_model.specs.Open.{IsOpen};
ghost use Rattle.live_core.specs.Answers.{Gives, IsMadeBy, LacksFor};
ghost use Rattle.live_core.specs.Calls.{call_of, fits, seat_of};
ghost use Rattle.live_core.specs.Histories.{AreMadeOf, AreRight, Made, history};
ghost use Rattle.live_core.specs.StandsFor.{StandsFor};
ghost use Rattle.live_core.specs.declared.books.TheConstants.{MOST_ENTRIES};
ghost use Rattle.live_core.specs.declared.call.Call.{Call};
ghost use Rattle.live_core.specs.declared.live.LiveCore.{LiveCore};
ghost use Rattle.live_core.specs.declared.unmade.Unmade.{Unmade};

/// Whatever calls are made of a core that was opened, in whatever order: the entries that they make are one history, which is
/// legal for the open plan at every moment, and each answer is what the rules say of the history as it stood. So all laws of
/// legal histories hold of it: tasks start at most once, those of a sequence run one at a time and in order, each on the value
/// that the one before it left, and shutdown waits for, forbids and refuses what it has to.
pub fn live_theorem()
    ensures legal { (plan : Plan) (live : LiveCore) (calls : List Made) → StandsFor plan [] live → AreMadeOf live calls
        → IsLegal plan (history [] calls) }
    ensures right { (plan : Plan) (live : LiveCore) (calls : List Made) → StandsFor plan [] live → AreMadeOf live calls
        → AreRight plan [] live calls }
{}

/// A call makes an entry exactly where the rules allow one that it is for. Where the call is a misuse, or lacks what it asks
/// for, no entry of it may come; no two entries of it may; and where one may, the call makes that one, unless as many entries
/// were made as can be counted. Each entry that may come is one of a call.
#[tactic(auto, using(crate::proofs::Exact::misuse_may_not_come, crate::proofs::Exact::lack_may_not_come, crate::proofs::Exact::one_entry_of_a_call, crate::proofs::Exact::makes_what_may_come))]
pub fn calls_are_exact()
    ensures misuse_may_not_come { (plan : Plan) (past : List Entry) (call : Call) (kind : Kind) → IsOpen plan → IsLegal plan past → fits plan past call ≡ false
        → IsMadeBy plan past call kind → may_come plan past (seat_of call) kind ≡ false }
    ensures lack_may_not_come { (plan : Plan) (past : List Entry) (call : Call) (why : Unmade) (kind : Kind) → IsOpen plan → IsLegal plan past
        → LacksFor plan past call why → IsMadeBy plan past call kind → may_come plan past (seat_of call) kind ≡ false }
    ensures one_may_come { (plan : Plan) (past : List Entry) (call : Call) (a b : Kind) → IsOpen plan → IsLegal plan past → IsMadeBy plan past call a
        → IsMadeBy plan past call b → may_come plan past (seat_of call) a ≡ true → may_come plan past (seat_of call) b ≡ true → a ≡ b }
    ensures made { (plan : Plan) (past : List Entry) (call : Call) (before after : LiveCore) (answer : Result Kind Unmade) (kind : Kind)
        → StandsFor plan past before → Gives plan past call before after answer → IsMadeBy plan past call kind
        → may_come plan past (seat_of call) kind ≡ true → (answer ≡ Ok kind) ⊎ (length past ≡ MOST_ENTRIES) }
    ensures every { (plan : Plan) (past : List Entry) (seat : ℕ) (kind : Kind) → IsOpen plan → may_come plan past seat kind ≡ true
        → (seat_of (call_of seat kind) ≡ seat) × IsMadeBy plan past (call_of seat kind) kind }
{}
