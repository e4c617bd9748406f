ghost use Rattle.std.specs.Prelude.{◌≡◌, ◌≤◌, ℕ, Some, Err, IfOk, length};
ghost use Rattle.script_model.specs.Canonical.{IsValid};
ghost use Rattle.script_model.specs.Grammar.{Reads, first_fault};
ghost use Rattle.script_model.specs.Laws.Sound.{IsSound};

use crate::fault::ScriptFault;
use crate::reader::Reader;
use std::alloc::Global;
use task_base::Script;

/// Reads the text of a script, by the whole grammar. It has at most 4,294,967,294 bytes, so that each line has a number
/// of 32 bits.
///
/// The errors are the first bad line, by its number, with the first reason that holds of it, and want of memory. Which
/// of the two comes is open where memory runs out before the bad line is met.
///
/// The text is read once, line by line, in time that grows with the number of its bytes alone. The memory that it takes
/// is that of the script and of one line, and some bytes for each task and job.
pub fn read_script(alloc: Global, bytes: &[u8]) -> Result<Script, ScriptFault>
    requires { length bytes.now ≤ 4294967294 }
    // The text is this script.
    ensures read { IfOk result (λ script. Reads bytes.now script) }
    // The text is none: this is its first bad line, and the first reason of that line.
    ensures bad { (line reason : ℕ) → result ≡ Err (ScriptFault.Bad line reason) → first_fault bytes.now ≡ Some (line, reason) }
    ensures valid { IfOk result IsValid }
    ensures sound { IfOk result IsSound }
{
    let mut reader = Reader::new(alloc);
    let mut number = 0;
    for line in bytes.split(|byte| *byte == b'\n') {
        number += 1;
        reader.read_line(number, line)?;
    }
    Ok(reader.finish())
}
