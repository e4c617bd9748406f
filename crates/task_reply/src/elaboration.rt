ghost use Rattle.std.specs.Prelude.{◌≡◌, ◌≤◌, ℕ, List, Some, Err, IfOk, length};
ghost use Rattle.std.specs.Str.Lines.{strip_carriage_return};
ghost use Rattle.task_base.specs.Plan.{Plan};
ghost use Rattle.script_model.specs.Canonical.{IsValid};
ghost use Rattle.script_model.specs.Grammar.{at_line};
ghost use Rattle.script_model.specs.Laws.Sound.{IsSound};
ghost use Rattle.task_reply.specs.declared.reply.Reply.{Reply};
ghost use Rattle.task_reply.specs.Elaborated.{IsElaboratedBy};
ghost use Rattle.task_reply.specs.Replies.{line_read, reply_fault};
ghost use Rattle.task_reply.specs.Tables.{HoldsReplies, ReplyTurnsAt};

use crate::fault::ReplyFault;
use crate::held::Held;
use script_lines::{LineFault, without_return};
use std::alloc::Global;
use task_base::Script;

/// The script in which each task posts, after all its other steps, the replies that lines name for it, in the order of
/// the lines. The lines have at most 4,294,967,294 bytes, so that each has a number of 32 bits.
///
/// A line is `reply T U runner R` or `reply T U queue Q`: task U is the reply of task T, and is posted to that runner or
/// main queue without a delay. Lines without words and comments are skipped, as in a script.
///
/// The errors are the first bad line, by its number, with the first reason that holds of it, and want of memory. Which of
/// the two comes is open where memory runs out before the bad line is met. The script is spent under both.
///
/// The time grows with the number of bytes and the size of the script alone. The memory that it takes is that of the new
/// steps, of one line's words, and a byte for each task.
pub fn elaborate(alloc: Global, script: Script, bytes: &[u8]) -> Result<Script, ReplyFault>
    requires sound { IsSound script }
    requires short { length bytes.now ≤ 4294967294 }
    // No line is bad, and this is the script with the replies that they say.
    ensures elaborated { IfOk result (λ made. IsElaboratedBy script bytes.now made) }
    // Some line is bad: this is the first one, and the first reason of that line.
    ensures bad { (line reason : ℕ) → result ≡ Err (ReplyFault.Bad line reason) → reply_fault script bytes.now ≡ Some (line, reason) }
    ensures valid { IfOk result IsValid }
    ensures sound { IfOk result IsSound }
{
    let mut held = Held::new(alloc, script)?;
    let mut number = 0;
    for line in bytes.split(|byte| *byte == b'\n') {
        number += 1;
        read_line(&mut held, number, line)?;
    }
    Ok(held.script)
}

/// Reads the next line, whose number this is. After a fault what is held is of no more use.
fn read_line(held: &mut Held, number: u32, line: &[u8]) -> Result<(), ReplyFault>
    ensures { (script : Plan) (replies : List Reply) → HoldsReplies script replies held.old
        → ReplyTurnsAt result script held.new (at_line number (line_read script replies (strip_carriage_return line.now))) }
{
    match held.read_line(without_return(line)) {
        Ok(()) => Ok(()),
        Err(LineFault::Bad { reason }) => Err(ReplyFault::Bad {
            line: number,
            reason,
        }),
        Err(LineFault::Memory(error)) => Err(ReplyFault::Memory(error)),
    }
}
