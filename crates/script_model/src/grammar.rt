ghost use Rattle.std.specs.Prelude.{◌≡◌, ℕ, ◌+◌, List, Some};
ghost use Rattle.script_model.specs.Laws.Fault.{IsFaultBehind};
ghost use Rattle.script_model.specs.Grammar.{first_fault};

/// The fault of bytes that are no script is their first bad line, counted from 1, with its reason: the lines before
/// it give a draft, behind which this line has that reason. Each such line is the fault, and there is no other fault.
pub fn first_bad_line_is_the_fault()
    ensures found { (bytes : List ℕ) (k reason : ℕ) → IsFaultBehind bytes k reason → first_fault bytes ≡ Some (k + 1, reason) }
    ensures only { (bytes : List ℕ) (line reason : ℕ) → first_fault bytes ≡ Some (line, reason) → (k : ℕ) × (line ≡ k + 1) × IsFaultBehind bytes k reason }
{}
