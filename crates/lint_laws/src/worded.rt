ghost use Rattle.std.specs.Prelude.{◌≡◌, ◌≢◌, ◌||◌, ℕ, true, is_some, List, Some, Err};
ghost use Rattle.script_model.specs.Reasons.{not_ascii};
ghost use Rattle.script_lines.specs.Said.{line_said};
ghost use Rattle.line_places.specs.declared.expected.Language.TheVariants.{Script};
ghost use Rattle.line_places.specs.declared.expected.Found.{Found};
ghost use Rattle.line_places.specs.First.{first_beyond_ascii, first_place};
ghost use Rattle.line_places.specs.Words.{word_at};
ghost use Rattle.lint_laws.specs.Told.{holds_at, is_above_foreground};

/// Of a line whose words alone are wrong the place is found: a word with a byte above 127 for reason 1, and for each other
/// reason a place of which it holds, or else the second limit of `groups` is above the first.
/// The reason that is kept with a place is the one that was sought.
pub fn each_bad_word_has_its_place()
    ensures ascii { (line : List ℕ) → line_said line ≡ Err not_ascii → is_some (first_beyond_ascii line) ≡ true }
    ensures place { (line : List ℕ) (reason : ℕ) → line_said line ≡ Err reason → reason ≢ not_ascii
        → (is_some (first_place Script (Some reason) line) || is_above_foreground line reason) ≡ true }
    ensures right { (line : List ℕ) (reason : ℕ) (found : Found) → first_place Script (Some reason) line ≡ Some found
        → holds_at reason found.expected (word_at line found.place) ≡ true }
    ensures same { (line : List ℕ) (reason : ℕ) (found : Found) → first_place Script (Some reason) line ≡ Some found → found.reason ≡ reason }
{}
