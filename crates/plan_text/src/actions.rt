ghost use Rattle.std.specs.Prelude.{◌≡◌, ◌≤◌, length};
ghost use Rattle.plan_text.specs.ActionLine.{action_line, is_action, is_declaring, says_nothing};

use line_places::{Lines, command_of};

/// The number of a text's first line that is an action, counted from 1; 0 where there is none.
pub fn action_line(text: &[u8]) -> u32
    requires { length text.now ≤ 4294967294 }
    ensures { result ≡ action_line text.now }
{
    let mut lines = Lines::of(text);
    let mut number = 0;
    while let Some(line) = lines.next() {
        number += 1;
        if is_action(line) {
            return number;
        }
    }
    0
}

// Whether a line is an action: it says something, and declares nothing.
fn is_action(line: &[u8]) -> bool
    ensures { result ≡ is_action line.now }
{
    let command = command_of(line);
    !(says_nothing(command) || is_declaring(command))
}

// Whether a line with this command says nothing: it has none, or is a comment.
fn says_nothing(command: &[u8]) -> bool
    ensures { result ≡ says_nothing command.now }
{
    command.is_empty() || command[0] == b'#'
}

// Whether the command is one that declares.
fn is_declaring(command: &[u8]) -> bool
    ensures { result ≡ is_declaring command.now }
{
    command == b"workers".as_slice()
        || command == b"groups".as_slice()
        || command == b"threshold".as_slice()
        || command == b"runner".as_slice()
        || command == b"queue".as_slice()
        || command == b"task".as_slice()
        || command == b"job".as_slice()
}
