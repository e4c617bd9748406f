ghost use Rattle.std.specs.Prelude.{◌≡◌, ◌≤◌, length, option_map, IfOk};
ghost use Rattle.nested_loop.specs.NestGrammar.{nest_read};
ghost use Rattle.nest_lint.specs.Lint.{fault_line, nest_lint_of, objection_behind, objection_of};

use crate::objections::nest_objection;
use line_places::{Language, cut_at};
use lint_text::{Complaint, Objection, at, by_words, objection_line};
use nested_loop::{NestFault, read_nest};
use std::alloc::{AllocError, Global};

/// Why bytes are no nest script, in one line of text with a line feed; nothing where they are one. They have at most 4,294,967,294
/// bytes. The error is want of memory.
pub fn lint_nest(alloc: Global, bytes: &[u8]) -> Result<Option<Vec<u8>>, AllocError>
    requires { length bytes.now ≤ 4294967294 }
    ensures { IfOk result (λ lint. option_map (λ text. text.items) lint ≡ nest_lint_of bytes.now) }
{
    match read_nest(alloc, bytes) {
        Ok(_) => Ok(None),
        Err(NestFault::Bad { line, reason }) => Ok(Some(fault_line(alloc, bytes, line, reason)?)),
        Err(NestFault::Memory(error)) => Err(error),
    }
}

/// What is said of the bad line of this number, by its reason. The error is want of memory.
fn fault_line(alloc: Global, bytes: &[u8], number: u32, reason: u8) -> Result<Vec<u8>, AllocError>
    requires { length bytes.now ≤ 4294967294 }
    ensures { IfOk result (λ text. text.items ≡ fault_line bytes.now number reason) }
{
    let (front, line) = cut_at(bytes, number);
    let objection = objection_of(alloc, front, line, reason)?;
    objection_line(alloc, b"", number, line, &objection)
}

/// What is wrong with a line behind the bytes of the lines before it, by the line's reason. The error is want of memory.
#[tactic(auto, unfolding(crate::specs::Lint::objection_of))]
fn objection_of(
    alloc: Global,
    front: &[u8],
    line: &[u8],
    reason: u8,
) -> Result<Objection, AllocError>
    requires front { length front.now ≤ 4294967294 }
    requires line { length line.now ≤ 4294967294 }
    ensures { IfOk result (λ objection. objection ≡ objection_of front.now line.now reason) }
{
    if reason == 1 {
        return Ok(by_words(Language::Nest, line));
    }
    let found = objection_behind(alloc, front, line, reason)?;
    Ok(found.unwrap_or(at(1, Complaint::Breaks { reason })))
}

/// What is wrong with a line behind the bytes of the lines before it, if these are a nest script. The error is want of memory.
fn objection_behind(
    alloc: Global,
    front: &[u8],
    line: &[u8],
    reason: u8,
) -> Result<Option<Objection>, AllocError>
    requires { length front.now ≤ 4294967294 }
    ensures { IfOk result (λ objection. objection ≡ objection_behind (nest_read front.now) front.now line.now reason) }
{
    match read_nest(alloc, front) {
        Ok(nest) => Ok(nest_objection(&nest, front, line, reason)),
        Err(NestFault::Bad { .. }) => Ok(None),
        Err(NestFault::Memory(error)) => Err(error),
    }
}
