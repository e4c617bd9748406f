ghost use Rattle.std.specs.Prelude.{◌≡◌, ◌+◌, ◌≤◌, [], ◌∷◌, ◌++◌, Some, length};
ghost use Rattle.log_model.specs.LogText.{shown};
ghost use Rattle.entry_lines.specs.Parts.{said, IsShort};
ghost use Rattle.event_text.specs.EventText.{event_line, first_part, span_text};

use entry_lines::{Part, parts_of};
use line_text::{Line, add, add_decimal, add_number, add_word};
use order_model::{Event, Span};

/// The line of an event, with its line feed: its two times in brackets, if it has some, and its entry as a log has it, without its
/// place. The longest line has some 130 bytes. It takes no memory.
pub fn event_line(event: &Event) -> Line
    ensures items { result.items ≡ event_line event.now }
    ensures short { length result.items ≤ 191 }
{
    let mut line = first_part(event);
    for part in parts_of(&event.entry.kind).as_slice() {
        add_part(&mut line, part);
    }
    line.push(b'\n');
    line
}

// The times, if there are some, and the seat.
fn first_part(event: &Event) -> Line
    ensures items { result.items ≡ first_part event.now }
    ensures short { length result.items ≤ 64 }
{
    let mut line = Line::new();
    if let Some(span) = event.span {
        add_span(&mut line, span);
    }
    add_decimal(&mut line, u64::from(event.entry.seat));
    line
}

// Adds the times in brackets, and a space.
fn add_span(line: &mut Line, span: Span)
    requires { line.old.items ≡ [] }
    ensures items { line.new.items ≡ span_text (Some span) }
    ensures short { length line.new.items ≤ 44 }
{
    line.push(b'[');
    add_decimal(line, span.from);
    add_number(line, span.to);
    add(line, b"] ");
}

// Adds a space and the part.
fn add_part(line: &mut Line, part: &Part)
    requires line { length line.old.items ≤ 235 }
    requires part { IsShort part.now }
    ensures items { line.new.items ≡ line.old.items ++ 32 ∷ shown (said part.now) }
    ensures short { length line.new.items ≤ length line.old.items + 21 }
{
    match *part {
        Part::Word(word) => add_word(line, word.as_bytes()),
        Part::Number(number) => add_number(line, number),
    }
}
