//! The lines before a bad one.
ghost use Rattle.std.specs.Prelude.{◌≡◌, ◌+◌, ◌≤◌, count_by, length};
ghost use Rattle.std.specs.List.{position_from};
ghost use Rattle.script_model.specs.Words.{lines_of};
ghost use Rattle.reply_lint.specs.Earlier.{first_reply, has_reply, replies_in};
ghost use Rattle.reply_lint.specs.Said.{is_reply};

use crate::said::{id_at, is_reply};
use line_places::Lines;
use task_base::TaskId;

/// The first line of a text, counted from 1, whose reply is this task. The text has at most 4,294,967,294 bytes.
#[tactic(auto, unfolding(crate::specs::Earlier::first_reply))]
pub(crate) fn first_reply(text: &[u8], task: TaskId) -> Option<u32>
    requires { length text.now ≤ 4294967294 }
    ensures { result ≡ first_reply text.now task }
{
    let mut lines = Lines::of(text);
    let mut number = 0;
    while let Some(line) = lines.next() {
        number += 1;
        if has_reply(line, task) {
            return Some(number);
        }
    }
    None
}

/// Whether the reply of the line is this task.
fn has_reply(line: &[u8], task: TaskId) -> bool
    ensures { result ≡ has_reply task line.now }
{
    is_reply(line) && matches!(id_at(line, 3), Some(reply) if reply == task)
}

/// How many lines of a text are replies.
#[tactic(auto, unfolding(crate::specs::Earlier::replies_in))]
pub(crate) fn replies_in(text: &[u8]) -> usize
    requires { length text.now ≤ 4294967294 }
    ensures replies { result ≡ replies_in text.now }
    ensures few { result ≤ length text.now + 1 }
{
    let mut lines = Lines::of(text);
    let mut replies = 0;
    while let Some(line) = lines.next() {
        if is_reply(line) {
            replies += 1;
        }
    }
    replies
}
