ghost use Rattle.std.specs.Prelude.{◌≡◌, ◌≤◌, ℕ, take, IfOk, IfErr, OnOk};
ghost use Rattle.env_io.specs.Bytes.{Gains, Rose};
ghost use Rattle.trace_json.specs.Faults.{OnTraceSink, OnTraceMemory};
ghost use Rattle.trace_json.specs.Trace.{trace_of};
ghost use Rattle.trace_json.specs.Text.{trace_text};

use crate::fault::TraceFault;
use crate::trace::trace_of;
use env_io::{Sink, put_all};
use std::alloc::{AllocError, Global};
use task_base::{Entry, Rows};

/// Puts the trace of the log and a line feed: a JSON object (RFC 8259) in compact form, as the Trace Event Format has it. The
/// whole text is made in memory first, and then put in one piece where the sink takes it whole.
///
/// `Sink`: a `put` failed. What went out before stays out. `Memory`: an allocation failed, before the first byte.
pub fn write_trace<K: Sink>(
    alloc: Global,
    sink: &mut K,
    log: &Rows<Entry>,
) -> Result<(), TraceFault>
    ensures written { OnOk result (Gains (K.holds sink.old) (trace_text (trace_of log.now.items)) (K.holds sink.new)) }

    // What went out is a prefix of the text.
    ensures cut { IfErr result (λ fault. OnTraceSink fault ((n : ℕ) × Gains (K.holds sink.old) (take n (trace_text (trace_of log.now.items))) (K.holds sink.new))) }
    ensures failed { IfErr result (λ fault. OnTraceSink fault (Rose (K.faults sink.old) (K.faults sink.new))) }
    ensures memory { IfErr result (λ fault. OnTraceMemory fault (sink.new ≡ sink.old)) }
    ensures steady { OnOk result (K.faults sink.new ≡ K.faults sink.old) }
    ensures faults { K.faults sink.old ≤ K.faults sink.new }
{
    let text = trace_text(alloc, log.as_slice())?;
    put_all(sink, &text)?;
    Ok(())
}

// The trace's text, with its line feed. A trace has texts and whole numbers alone, so memory is all that its writer can want.
fn trace_text(alloc: Global, log: &[Entry]) -> Result<Vec<u8>, AllocError>
    ensures { IfOk result (λ text. text.items ≡ trace_text (trace_of log.now)) }
{
    let trace = trace_of(alloc, log)?;
    let Ok(mut text) = serde_json::to_vec(alloc, &trace) else {
        return Err(AllocError);
    };
    text.push(b'\n')?;
    Ok(text)
}
