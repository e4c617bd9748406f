ghost use Rattle.std.specs.Prelude.{◌≡◌, ◌+◌, ◌≤◌, ◌∷◌, ◌++◌, [], length, decimal};
ghost use Rattle.nested_loop.specs.NestText.{event_line, event_words, behind_spaces};

use crate::event::Event;
use line_text::{Line, add_decimal, add_number, add_word};

/// The line of an event at its place, with its line feed: decimal numbers and words, parted by single spaces. The longest
/// line, that of a start, has 49 bytes. It takes no memory.
pub(crate) fn event_line(place: u64, event: &Event) -> Line
    ensures { result.items ≡ event_line place event.now }
{
    let mut line = Line::new();
    add_decimal(&mut line, place);
    add_event(&mut line, event);
    line.push(b'\n');
    line
}

/// Adds the words of an event.
fn add_event(line: &mut Line, event: &Event)
    requires { length line.old.items ≤ 20 }
    ensures words { line.new.items ≡ line.old.items ++ behind_spaces (event_words event.now) }
    ensures short { length line.new.items ≤ 100 }
{
    match *event {
        Event::Post { task, queue } => add_two(line, b"post", task, queue),
        Event::Loop { depth } => add_one(line, b"loop", u64::from(depth)),
        Event::Quit { depth } => add_one(line, b"quit", u64::from(depth)),
        Event::Start { task, depth } => add_two(line, b"start", task, depth),
        Event::End { task } => add_one(line, b"end", u64::from(task)),
        Event::Defer { task } => add_one(line, b"defer", u64::from(task)),
        Event::Say { value } => add_one(line, b"say", value),
    }
}

/// The words of an event of one number.
fn add_one(line: &mut Line, name: &[u8], first: u64)
    requires line { length line.old.items ≤ 20 }
    requires name { length name.now ≤ 5 }
    ensures words { line.new.items ≡ line.old.items ++ behind_spaces (name.now ∷ decimal first ∷ []) }
    ensures short { length line.new.items ≤ 100 }
{
    add_word(line, name);
    add_number(line, first);
}

/// The words of an event of two numbers.
fn add_two(line: &mut Line, name: &[u8], first: u32, second: u32)
    requires line { length line.old.items ≤ 20 }
    requires name { length name.now ≤ 5 }
    ensures words { line.new.items ≡ line.old.items ++ behind_spaces (name.now ∷ decimal first ∷ decimal second ∷ []) }
    ensures short { length line.new.items ≤ 100 }
{
    add_word(line, name);
    add_number(line, u64::from(first));
    add_number(line, u64::from(second));
}
