ghost use Rattle.std.specs.Prelude.{◌≡◌, ◌≢◌, ◌<◌, ◌≤◌, ◌+◌, ℕ, List, [], length, IfOk, IfSome, OnOk, Err};
ghost use Rattle.env_io.specs.Bytes.{Gives, Rose};

use env_io::Source;
use std::alloc::{AllocError, Global};
use task_base::MOST_BYTES;

/// How many bytes the source is asked for at a time.
const PIECE: usize = 4096;

/// Why an input could not be read.
#[derive(Clone, Copy, Debug, PartialEq, Eq)]
pub enum InputFault {
    /// The source failed.
    Read,
    /// An allocation failed.
    Memory(AllocError),
    /// More than `MOST_BYTES` bytes came.
    TooLarge,
}

/// Reads a source to its end. Each turn of the loop but the last takes at least one byte.
pub fn read_input<S: Source>(alloc: Global, source: &mut S) -> Result<Vec<u8>, InputFault>
    ensures whole { IfOk result (λ bytes. Gives (S.left source.old) bytes.items (S.left source.new)) }
    ensures end { OnOk result (IfSome (S.left source.new) (λ rest. rest ≡ [])) }
    ensures within { IfOk result (λ bytes. length bytes.items ≤ MOST_BYTES) }
    ensures failed { result ≡ Err InputFault.Read → Rose (S.faults source.old) (S.faults source.new) }
    ensures steady { result ≢ Err InputFault.Read → S.faults source.new ≡ S.faults source.old }
    ensures large { result ≡ Err InputFault.TooLarge → (taken : List ℕ) × Gives (S.left source.old) taken (S.left source.new) × (MOST_BYTES < length taken) × (length taken ≤ MOST_BYTES + 4096) }
    ensures few { result ≢ Err InputFault.TooLarge → (taken : List ℕ) × Gives (S.left source.old) taken (S.left source.new) × (length taken ≤ MOST_BYTES) }
    ensures faults { S.faults source.old ≤ S.faults source.new }
{
    let mut bytes = Vec::new(alloc);
    let mut piece = [0u8; PIECE];
    'pieces: loop {
        let Ok(count) = source.take(&mut piece) else {
            return Err(InputFault::Read);
        };
        if count == 0 {
            return Ok(bytes);
        }
        if count > MOST_BYTES - bytes.len() {
            return Err(InputFault::TooLarge);
        }
        if let Err(error) = bytes.extend_from_slice(&piece[..count]) {
            return Err(InputFault::Memory(error));
        }
    }
}
