ghost use Rattle.std.specs.Prelude.{◌≡◌, ◌≤◌, length};
ghost use Rattle.task_reply.specs.Fault.{note_of, reason_name};
ghost use Rattle.task_reply.specs.declared.fault.ReplyFault.TheVariants.{Memory};

use line_text::{Line, add};
use std::alloc::AllocError;
use task_base::add_broken_rule;

/// Why lines made no script of a script.
#[derive(Clone, Copy, Debug, PartialEq, Eq)]
pub enum ReplyFault {
    /// A line is bad. `line` is the first such line, counted from 1, and `reason` the number of the rule that it breaks:
    /// the least of those that it breaks, from 1 to 5.
    Bad { line: u32, reason: u8 },
    /// An allocation failed.
    Memory(AllocError),
}

impl From<AllocError> for ReplyFault {
    ghost from_gives = { λ error fault. fault ≡ Memory error };

    fn from(error: AllocError) -> ReplyFault {
        ReplyFault::Memory(error)
    }
}

impl ReplyFault {
    /// What is told of the fault, without a line feed (this project's own rule). It takes no memory.
    pub fn note(&self) -> Line
        ensures note { result.items ≡ note_of self.now }
        ensures short { length result.items ≤ 100 }
    {
        let mut note = Line::new();
        match *self {
            ReplyFault::Bad { line, reason } => {
                let name = reason_name(reason);
                add_broken_rule(&mut note, b"bad replies: line ", line, reason, name);
            }
            ReplyFault::Memory(_) => add(&mut note, b"no memory"),
        }
        note
    }
}

/// The name of a rule, by its number.
fn reason_name(reason: u8) -> &'static [u8]
    ensures name { result.now ≡ reason_name reason }
    ensures short { length result.now ≤ 11 }
{
    match reason {
        1 => b"BadLine",
        2 => b"Undeclared",
        3 => b"PostedTwice",
        4 => b"BadBlock",
        5 => b"TooMany",
        _ => b"",
    }
}
