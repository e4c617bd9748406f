ghost use Rattle.std.specs.Prelude.{◌≡◌, ◌≤◌, length, option_map, IfOk};
ghost use Rattle.script_model.specs.Canonical.{IsValid};
ghost use Rattle.script_model.specs.Laws.Sound.{IsSound};
ghost use Rattle.reply_lint.specs.Lint.{fault_line, objection_of, reply_lint_of};

use crate::objections::reply_objection;
use crate::said::reply_in;
use line_places::{Language, cut_at};
use lint_text::{Complaint, Objection, at, by_words, objection_line};
use std::alloc::{AllocError, Global};
use task_base::Script;
use task_reply::{ReplyFault, elaborate};

/// Why bytes are no replies of a script, in one line of text with a line feed; nothing where they are some. They have at most
/// 4,294,967,294 bytes. The error is want of memory.
#[tactic(auto, using(script_model::proofs::Laws::Canonical::sound_is_valid))]
pub fn lint_replies(
    alloc: Global,
    script: &Script,
    bytes: &[u8],
) -> Result<Option<Vec<u8>>, AllocError>
    requires sound { IsSound script.now }
    requires short { length bytes.now ≤ 4294967294 }
    ensures { IfOk result (λ lint. option_map (λ text. text.items) lint ≡ reply_lint_of script.now bytes.now) }
{
    match elaborate(alloc, script.copy(alloc)?, bytes) {
        Ok(_) => Ok(None),
        Err(ReplyFault::Bad { line, reason }) => {
            Ok(Some(fault_line(alloc, script, bytes, line, reason)?))
        }
        Err(ReplyFault::Memory(error)) => Err(error),
    }
}

/// What is said of the bad line of this number, by its reason. The error is want of memory.
fn fault_line(
    alloc: Global,
    script: &Script,
    bytes: &[u8],
    number: u32,
    reason: u8,
) -> Result<Vec<u8>, AllocError>
    requires valid { IsValid script.now }
    requires short { length bytes.now ≤ 4294967294 }
    ensures { IfOk result (λ text. text.items ≡ fault_line script.now bytes.now number reason) }
{
    let (front, line) = cut_at(bytes, number);
    let objection = objection_of(script, front, line, reason);
    objection_line(alloc, b"replies ", number, line, &objection)
}

/// What is wrong with a line behind the bytes of the lines before it, by the line's reason.
#[tactic(auto, unfolding(crate::specs::Lint::objection_of))]
fn objection_of(script: &Script, front: &[u8], line: &[u8], reason: u8) -> Objection
    requires valid { IsValid script.now }
    requires front { length front.now ≤ 4294967294 }
    requires line { length line.now ≤ 4294967294 }
    ensures { result ≡ objection_of script.now front.now line.now reason }
{
    if reason == 1 {
        return by_words(Language::Replies, line);
    }
    match reply_in(line) {
        Some(reply) => reply_objection(script, front, &reply, reason),
        None => at(1, Complaint::Breaks { reason }),
    }
}
