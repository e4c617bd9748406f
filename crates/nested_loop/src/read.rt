ghost use Rattle.std.specs.Prelude.{◌≡◌, ◌≤◌, ℕ, Some, Err, IfOk, length};
ghost use Rattle.nested_loop.specs.NestGrammar.{ReadsNest, nest_fault};
ghost use Rattle.nested_loop.specs.Sound.{IsSoundNest};

use crate::fault::NestFault;
use crate::nest::Nest;
use crate::reader::Reader;
use std::alloc::Global;

/// Reads the text of a nest script, by the whole grammar. It has at most 4,294,967,294 bytes, so that each line has a
/// number of 32 bits.
///
/// The errors are the first bad line, by its number, with the first reason that holds of it, and want of memory. Which
/// of the two comes is open where memory runs out before the bad line is met.
///
/// The text is read once, line by line. The memory that it takes is that of the nest, of the words of one line, and some
/// bytes for each task that is posted.
pub fn read_nest(alloc: Global, bytes: &[u8]) -> Result<Nest, NestFault>
    requires { length bytes.now ≤ 4294967294 }
    // The text is this nest.
    ensures read { IfOk result (λ nest. ReadsNest bytes.now nest) }
    // The text is none: this is its first bad line, and the first reason of that line.
    ensures bad { (line reason : ℕ) → result ≡ Err (NestFault.Bad line reason) → nest_fault bytes.now ≡ Some (line, reason) }
    ensures sound { IfOk result IsSoundNest }
{
    let mut reader = Reader::new(alloc);
    let mut number = 0;
    for line in bytes.split(|byte| *byte == b'\n') {
        number += 1;
        reader.read_line(number, line)?;
    }
    Ok(reader.finish())
}
