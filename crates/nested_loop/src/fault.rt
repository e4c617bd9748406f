ghost use Rattle.std.specs.Prelude.{◌≡◌, ◌≤◌, length};
ghost use Rattle.nested_loop.specs.NestReasons.{nest_note_of, nest_reason_name};

use line_text::{Line, add};
use std::alloc::AllocError;
use task_base::add_broken_rule;

/// Why bytes gave no nest.
#[derive(Clone, Copy, Debug, PartialEq, Eq)]
pub enum NestFault {
    /// The bytes are no nest script. `line` is the first bad line, counted from 1, and `reason` the number of the rule
    /// that it breaks: the least of those that it breaks.
    Bad { line: u32, reason: u8 },
    /// An allocation failed.
    Memory(AllocError),
}

impl NestFault {
    /// What is told of the fault, without a line feed (this project's own rule). It takes no memory.
    pub fn note(&self) -> Line
        ensures note { result.items ≡ nest_note_of self.now }
        ensures short { length result.items ≤ 100 }
    {
        let mut note = Line::new();
        match *self {
            NestFault::Bad { line, reason } => {
                let name = reason_name(reason);
                add_broken_rule(&mut note, b"bad nest: line ", line, reason, name);
            }
            NestFault::Memory(_) => add(&mut note, b"no memory"),
        }
        note
    }
}

// The name of a reason, by its number.
fn reason_name(reason: u8) -> &'static [u8]
    ensures name { result.now ≡ nest_reason_name reason }
    ensures short { length result.now ≤ 11 }
{
    match reason {
        1 => b"BadLine",
        2 => b"OutOfOrder",
        3 => b"Undeclared",
        4 => b"PostedTwice",
        5 => b"Late",
        6 => b"TooMany",
        _ => b"",
    }
}
