ghost use Rattle.std.specs.Prelude.{◌≡◌, ◌<◌, ℕ, List, [], ◌∷◌, ◌++◌, length, take, slice_get, Some, Ok};
ghost use Rattle.script_model.specs.Words.{lines_of};
ghost use Rattle.script_model.specs.Draft.{Draft, empty_draft, script_of};
ghost use Rattle.script_model.specs.Grammar.{lines_read, script_read};
ghost use Rattle.line_places.specs.Bytes.{front_of, line_at};

/// The line that is cut out is the one at its place, and the bytes before it are the lines before it, with a line feed at
/// their end: an empty line more, which says nothing. So they are read as the script that the line stands behind.
pub fn the_bad_line_is_cut_out()
    ensures line { (bytes : List ℕ) (k : ℕ) → k < length (lines_of bytes) → slice_get (lines_of bytes) k ≡ Some (line_at bytes k) }
    ensures front { (bytes : List ℕ) (k : ℕ) → k < length (lines_of bytes) → lines_of (front_of bytes k) ≡ take k (lines_of bytes) ++ [] ∷ [] }
    ensures before { (bytes : List ℕ) (k : ℕ) (d : Draft) → k < length (lines_of bytes) → lines_read empty_draft 1 (take k (lines_of bytes)) ≡ Ok d
        → script_read (front_of bytes k) ≡ Ok (script_of d) }
{}
