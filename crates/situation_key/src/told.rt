ghost use Rattle.std.specs.Prelude.{◌≡◌};
ghost use Rattle.situation.specs.Situation.{Situation};
ghost use Rattle.situation_key.specs.Words.{key_of};

/// Situations whose keys are equal are equal, so a table that goes by keys never takes one for another.
#[tactic(auto, using(crate::proofs::Apart::told_by_key))]
pub fn situations_are_told_by_keys()
    ensures { (a b : Situation) → key_of a ≡ key_of b → a ≡ b }
{}
