ghost use Rattle.std.specs.Prelude.{◌≡◌, ℕ, ◌≤◌, min, max, List, [], ◌∷◌, ◌++◌, length, Some, slice_get};
ghost use Rattle.task_base.specs.declared.limits.TheConstants.{LAST_MOMENT};
ghost use Rattle.task_base.specs.Plan.{Plan};
ghost use Rattle.task_base.specs.declared.entry.Entry.{Entry};
ghost use Rattle.hist_model.specs.Legal.{IsLegal};
ghost use Rattle.hist_model.specs.Moments.{moments_of, last_of, ticks_of};

/// Each reading of a clock becomes one moment. A moment is never below one before it, and never above the last moment
/// of all, however the clock steps. One reading more adds one moment at the end: the reading, raised to the moment
/// before, and then lowered to the last moment of all. A reading between the two is its own moment.
///
/// The moments of the ticks of a legal log, in order, are such moments: taken as readings they stay what they are, so
/// they never fall, and none is above the last moment of all.
#[tactic(auto, using(crate::proofs::Laws::Moments::one_for_each, crate::proofs::Laws::Moments::never_falls, crate::proofs::Laws::Moments::at_most_last, crate::proofs::Laws::Moments::one_more, crate::proofs::Laws::Moments::own_moment, crate::proofs::Laws::Moments::ticks_are_moments, crate::proofs::Laws::Moments::ticks_never_fall, crate::proofs::Laws::Moments::ticks_at_most_last))]
pub fn moments_never_fall()
    ensures one_for_each { (readings : List ℕ) → length (moments_of readings) ≡ length readings }
    ensures never_falls { (readings : List ℕ) (i k m n : ℕ) → i ≤ k → slice_get (moments_of readings) i ≡ Some m → slice_get (moments_of readings) k ≡ Some n → m ≤ n }
    ensures at_most_last { (readings : List ℕ) (k m : ℕ) → slice_get (moments_of readings) k ≡ Some m → m ≤ LAST_MOMENT }
    ensures one_more { (readings : List ℕ) (reading : ℕ) → moments_of (readings ++ reading ∷ []) ≡ moments_of readings ++ min (max reading (last_of (moments_of readings))) LAST_MOMENT ∷ [] }
    ensures own_moment { (readings : List ℕ) (reading : ℕ) → last_of (moments_of readings) ≤ reading → reading ≤ LAST_MOMENT → moments_of (readings ++ reading ∷ []) ≡ moments_of readings ++ reading ∷ [] }
    ensures ticks { (script : Plan) (log : List Entry) → IsLegal script log → moments_of (ticks_of log) ≡ ticks_of log }
    ensures ticks_never_fall { (script : Plan) (log : List Entry) (i k m n : ℕ) → IsLegal script log → i ≤ k → slice_get (ticks_of log) i ≡ Some m → slice_get (ticks_of log) k ≡ Some n → m ≤ n }
    ensures ticks_at_most_last { (script : Plan) (log : List Entry) (k m : ℕ) → IsLegal script log → slice_get (ticks_of log) k ≡ Some m → m ≤ LAST_MOMENT }
{}
