ghost use Rattle.std.specs.Prelude.{◌≡◌, ◌-◌, ℕ, true, List, Some, Err};
ghost use Rattle.script_model.specs.Grammar.{first_fault};
ghost use Rattle.script_lines.specs.Said.{line_said};
ghost use Rattle.line_places.specs.Bytes.{front_of, line_at};
ghost use Rattle.script_lint.specs.Lint.{objection_of};
ghost use Rattle.lint_laws.specs.Told.{says_why};

/// What is said of the first fault of bytes is what is wrong there, and never only that the line breaks a rule.
/// Where the words of its line alone are wrong, their reason is the fault's.
pub fn each_fault_says_what_is_wrong()
    ensures told { (bytes : List ℕ) (line reason : ℕ) → first_fault bytes ≡ Some (line, reason)
        → says_why (objection_of (front_of bytes (line - 1)) (line_at bytes (line - 1)) reason).complaint ≡ true }
    ensures worded { (bytes : List ℕ) (line reason worded : ℕ) → first_fault bytes ≡ Some (line, reason) → line_said (line_at bytes (line - 1)) ≡ Err worded
        → worded ≡ reason }
{}
