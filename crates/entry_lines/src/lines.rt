ghost use Rattle.std.specs.Prelude.{◌≡◌, ◌+◌, ◌≤◌, ◌∷◌, ◌++◌, length};
ghost use Rattle.log_model.specs.LogText.{line_of, shown};
ghost use Rattle.entry_lines.specs.Parts.{said, IsShort};

use crate::parts::{Part, parts_of};
use line_text::{Line, add_decimal, add_number, add_word};
use task_base::{Entry, Place};

/// The line of an entry at its place, with its line feed: decimal numbers and words, parted by single spaces (this
/// project's own rule). The longest line, that of a job's step, has 95 bytes. It takes no memory.
pub fn line(place: Place, entry: &Entry) -> Line
    ensures items { result.items ≡ line_of place entry.now }
    ensures short { length result.items ≤ 161 }
{
    let mut line = Line::new();
    add_decimal(&mut line, u64::from(place));
    add_number(&mut line, u64::from(entry.seat));
    for part in parts_of(&entry.kind).as_slice() {
        add_part(&mut line, part);
    }
    line.push(b'\n');
    line
}

// Adds a space and the part.
fn add_part(line: &mut Line, part: &Part)
    requires line { length line.old.items ≤ 235 }
    requires part { IsShort part.now }
    ensures items { line.new.items ≡ line.old.items ++ 32 ∷ shown (said part.now) }
    ensures short { length line.new.items ≤ length line.old.items + 21 }
{
    match *part {
        Part::Word(word) => add_word(line, word.as_bytes()),
        Part::Number(number) => add_number(line, number),
    }
}
