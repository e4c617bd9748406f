//! The lines before a bad one.
ghost use Rattle.std.specs.Prelude.{◌≡◌, ◌≤◌, length};
ghost use Rattle.nest_lint.specs.Earlier.{first_line, is_action, says};

use crate::posts::posting_place;
use line_places::{Lines, command_of};
use line_words::begins_comment;
use task_base::TaskId;

/// What an earlier line is looked for by.
#[derive(Clone, Copy)]
pub(crate) enum Sought {
    /// It posts the task, by an action or a step.
    Posts { task: TaskId },
    /// It is an action.
    Acts,
}

/// The first line of a text, counted from 1, that is what is looked for. The text has at most 4,294,967,294 bytes.
#[tactic(auto, unfolding(crate::specs::Earlier::first_line))]
pub(crate) fn first_line(text: &[u8], sought: Sought) -> Option<u32>
    requires { length text.now ≤ 4294967294 }
    ensures { result ≡ first_line sought text.now }
{
    let mut lines = Lines::of(text);
    let mut number = 0;
    while let Some(line) = lines.next() {
        number += 1;
        if says(sought, line) {
            return Some(number);
        }
    }
    None
}

/// Whether the line is what is looked for.
fn says(sought: Sought, line: &[u8]) -> bool
    ensures { result ≡ says sought line.now }
{
    match sought {
        Sought::Posts { task } => {
            !begins_comment(command_of(line)) && posting_place(line, task).is_some()
        }
        Sought::Acts => is_action(command_of(line)),
    }
}

/// Whether the command is that of an action.
fn is_action(command: &[u8]) -> bool
    ensures { result ≡ is_action command.now }
{
    command == b"post".as_slice() || command == b"run".as_slice()
}
