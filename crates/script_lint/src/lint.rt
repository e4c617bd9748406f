ghost use Rattle.std.specs.Prelude.{◌≡◌, ◌≤◌, length, option_map, IfOk};
ghost use Rattle.script_model.specs.Grammar.{script_read};
ghost use Rattle.script_lint.specs.Lint.{fault_line, lint_of, objection_behind, objection_of};

use crate::lines::line_objection;
use crate::words::word_objection;
use line_places::cut_at;
use lint_text::{Complaint, Objection, at, objection_line};
use script_lines::{Command, LineFault, read_line};
use std::alloc::{AllocError, Global};
use task_script::{ScriptFault, read_script};

/// Why bytes are no script, in one line of text with a line feed; nothing where they are one. They have at most 4,294,967,294
/// bytes. The error is want of memory.
pub fn lint_script(alloc: Global, bytes: &[u8]) -> Result<Option<Vec<u8>>, AllocError>
    requires { length bytes.now ≤ 4294967294 }
    ensures { IfOk result (λ lint. option_map (λ text. text.items) lint ≡ lint_of bytes.now) }
{
    match read_script(alloc, bytes) {
        Ok(_) => Ok(None),
        Err(ScriptFault::Bad { line, reason }) => Ok(Some(fault_line(alloc, bytes, line, reason)?)),
        Err(ScriptFault::Memory(error)) => Err(error),
    }
}

/// What is said of the bad line of this number, by its reason. The error is want of memory.
fn fault_line(alloc: Global, bytes: &[u8], number: u32, reason: u8) -> Result<Vec<u8>, AllocError>
    requires { length bytes.now ≤ 4294967294 }
    ensures { IfOk result (λ text. text.items ≡ fault_line bytes.now number reason) }
{
    let (front, line) = cut_at(bytes, number);
    let objection = objection_of(alloc, front, line, reason)?;
    objection_line(alloc, b"", number, line, &objection)
}

/// What is wrong with a line behind the bytes of the lines before it, by the line's reason. The error is want of memory.
fn objection_of(
    alloc: Global,
    front: &[u8],
    line: &[u8],
    reason: u8,
) -> Result<Objection, AllocError>
    requires front { length front.now ≤ 4294967294 }
    requires line { length line.now ≤ 4294967294 }
    ensures { IfOk result (λ objection. objection ≡ objection_of front.now line.now reason) }
{
    match read_line(alloc, line) {
        Ok(command) => {
            let found = objection_behind(alloc, front, &command, reason)?;
            Ok(found.unwrap_or(at(1, Complaint::Breaks { reason })))
        }
        Err(LineFault::Bad { .. }) => Ok(word_objection(line, reason)),
        Err(LineFault::Memory(error)) => Err(error),
    }
}

/// What is wrong with a command behind the bytes of the lines before it, if these are a script. The error is want of memory.
fn objection_behind(
    alloc: Global,
    front: &[u8],
    command: &Command,
    reason: u8,
) -> Result<Option<Objection>, AllocError>
    requires { length front.now ≤ 4294967294 }
    ensures { IfOk result (λ objection. objection ≡ objection_behind (script_read front.now) front.now command.now reason) }
{
    match read_script(alloc, front) {
        Ok(script) => line_objection(alloc, &script, front, command, reason),
        Err(ScriptFault::Bad { .. }) => Ok(None),
        Err(ScriptFault::Memory(error)) => Err(error),
    }
}
