ghost use Rattle.std.specs.Prelude.{◌≡◌, ◌≤◌, ℕ, [], ◌∷◌, ◌++◌, take, IfOk, IfErr, OnOk};
ghost use Rattle.env_io.specs.Bytes.{Gains, Rose};
ghost use Rattle.log_model.specs.LogText.{log_json};
ghost use Rattle.run_log.specs.Json.{OnSink, OnMemory};
ghost use Rattle.run_log.specs.JsonRows.{before_row};

use crate::json_fault::JsonFault;
use crate::json_rows::json_row;
use env_io::{Sink, put_all};
use std::alloc::{AllocError, Global};
use task_base::{Entry, Rows};

/// Puts the log in JSON (RFC 8259), in compact form, and a line feed: an array that has an array for each entry. The
/// whole text is made in memory first, an entry at a time, and then put in one piece where the sink takes it whole.
///
/// `Sink`: a `put` failed. What went out before stays out. `Memory`: an allocation failed, before the first byte.
pub fn write_json<K: Sink>(alloc: Global, sink: &mut K, log: &Rows<Entry>) -> Result<(), JsonFault>
    ensures written { OnOk result (Gains (K.holds sink.old) (log_json log.now.items ++ 10 ∷ []) (K.holds sink.new)) }

    // What went out is a prefix of the text.
    ensures cut { IfErr result (λ fault. OnSink fault ((n : ℕ) × Gains (K.holds sink.old) (take n (log_json log.now.items ++ 10 ∷ [])) (K.holds sink.new))) }
    ensures failed { IfErr result (λ fault. OnSink fault (Rose (K.faults sink.old) (K.faults sink.new))) }
    ensures memory { IfErr result (λ fault. OnMemory fault (sink.new ≡ sink.old)) }
    ensures steady { OnOk result (K.faults sink.new ≡ K.faults sink.old) }
    ensures faults { K.faults sink.old ≤ K.faults sink.new }
{
    let text = json_text(alloc, log.as_slice())?;
    put_all(sink, &text)?;
    Ok(())
}

fn json_text(alloc: Global, log: &[Entry]) -> Result<Vec<u8>, AllocError>
    ensures { IfOk result (λ text. text.items ≡ log_json log.now ++ 10 ∷ []) }
{
    let mut text = Vec::new(alloc);
    text.push(b'[')?;
    for (place, entry) in log.iter().enumerate() {
        let row = json_row(alloc, place as u64, entry)?;
        text.extend_from_slice(bytes_before_row(place))?;
        text.extend_from_slice(row.as_bytes())?;
    }
    text.extend_from_slice(b"]\n")?;
    Ok(text)
}

fn bytes_before_row(place: usize) -> &'static [u8]
    ensures { result.now ≡ before_row place }
{
    if place == 0 { b"" } else { b"," }
}
