ghost use Rattle.std.specs.Prelude.{◌≡◌, ◌≤◌, ◌↔◌, ℕ, true, List, Some};
ghost use Rattle.task_base.specs.Plan.{Plan};
ghost use Rattle.task_base.specs.declared.entry.Entry.{Entry};
ghost use Rattle.task_base.specs.declared.entry.JobReply.{JobReply};
ghost use Rattle.task_base.specs.declared.entry.Kind.{Kind};
ghost use Rattle.task_base.specs.declared.entry.Kind.TheVariants as kinds;
ghost use Rattle.task_model.specs.Time.{now_of};
ghost use Rattle.hist_model.specs.Allowed.{may_come};
ghost use Rattle.hist_model.specs.Legal.{IsLegal};
ghost use Rattle.hist_model.specs.Open.{IsClosed};
ghost use Rattle.hist_model.specs.Moments.{moment_behind, ticks_of};
ghost use Rattle.hist_model.specs.Laws.Ways.{but_moment, is_due, way_on, seats_of};

/// After every legal past each seat has at most one way on: two entries of a seat that are both allowed are the same,
/// but for the moment of a tick, and the way is known from the past. So a driver that joins a job never may both go into
/// it and find it answered.
#[tactic(auto, using(crate::proofs::Laws::Ways::way_is, crate::proofs::Laws::Ways::one_way, crate::proofs::Laws::Ways::in_or_joined))]
pub fn each_seat_has_one_way_on()
    ensures way { (script : Plan) (past : List Entry) (seat : ℕ) (kind : Kind) → IsClosed script → IsLegal script past → may_come script past seat kind ≡ true → way_on script past seat ≡ Some (but_moment kind) }
    ensures one { (script : Plan) (past : List Entry) (seat : ℕ) (a b : Kind) → IsClosed script → IsLegal script past → may_come script past seat a ≡ true → may_come script past seat b ≡ true → but_moment a ≡ but_moment b }
    ensures in_or_joined { (script : Plan) (past : List Entry) (seat job id item other : ℕ) (reply : JobReply) → IsClosed script → IsLegal script past
        → may_come script past seat (kinds.JobTake job id item) ≡ true → may_come script past seat (kinds.Joined other reply) ≡ true → ⊥ }
{}

/// A legal log is told by its script, the order of its seats and the moments of its ticks: two legal logs of one script
/// that have these alike are equal.
#[tactic(auto, using(crate::proofs::Laws::Told::told))]
pub fn logs_are_told_by_seats_and_moments()
    ensures { (script : Plan) (a b : List Entry) → IsClosed script → IsLegal script a → IsLegal script b → seats_of a ≡ seats_of b → ticks_of a ≡ ticks_of b → a ≡ b }
{}

/// After a legal past an entry of a seat of the script is allowed exactly where it is the seat's way on, and what it waits
/// for has come.
#[tactic(auto, using(crate::proofs::Laws::Due::allowed_exactly))]
pub fn the_way_on_is_allowed_when_due()
    ensures { (script : Plan) (past : List Entry) (seat : ℕ) (kind : Kind) → IsClosed script → IsLegal script past → seat ≤ script.workers
        → (may_come script past seat kind ≡ true) ↔ ((way_on script past seat ≡ Some (but_moment kind)) × (is_due script past kind ≡ true)) }
{}

/// After a legal past, and where a seat has made an entry that is allowed, any entry of that seat is allowed exactly where it
/// is the one that was made; a tick is made of the other's moment as a reading.
#[tactic(auto, using(crate::proofs::Laws::Due::judged))]
pub fn entries_are_judged_by_what_is_made()
    ensures { (script : Plan) (past : List Entry) (seat : ℕ) (given asked : Kind) → IsClosed script → IsLegal script past → may_come script past seat given ≡ true
        → ((other now : ℕ) → given ≡ kinds.Tick other → asked ≡ kinds.Tick now → other ≡ moment_behind (now_of past) now)
        → (may_come script past seat asked ≡ true) ↔ (given ≡ asked) }
{}
