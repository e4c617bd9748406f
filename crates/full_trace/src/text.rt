ghost use Rattle.std.specs.Prelude.{◌≡◌, IfOk};
ghost use Rattle.full_trace.specs.Data.{trace_text};
ghost use Rattle.full_trace.specs.Shown.{trace_of};

use crate::shown::trace_of;
use std::alloc::{AllocError, Global};
use task_base::{Entry, Script};

/// The text of the full trace of a log of the script: a JSON object (RFC 8259) in compact form, as the Trace Event Format has it,
/// and a line feed. Of a log that names what the script doesn't declare, the priority and behaviour are the least. The error is
/// want of memory: a trace has texts and whole numbers alone, so memory is all that its writer can want.
pub fn full_text(alloc: Global, script: &Script, log: &[Entry]) -> Result<Vec<u8>, AllocError>
    ensures { IfOk result (λ text. text.items ≡ trace_text (trace_of script.now log.now)) }
{
    let trace = trace_of(alloc, script, log)?;
    let Ok(mut text) = serde_json::to_vec(alloc, &trace) else {
        return Err(AllocError);
    };
    text.push(b'\n')?;
    Ok(text)
}
