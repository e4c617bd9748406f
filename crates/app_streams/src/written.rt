ghost use Rattle.std.specs.Prelude.{◌≡◌, ◌≢◌, ◌<◌, ◌^◌, ◌⊎◌, Err, IfErr, OnOk, alloc_error, length, true};
ghost use Rattle.env_io.specs.Bytes.{Rose};
ghost use Rattle.script_model.specs.Canonical.{canonical};
ghost use Rattle.nested_loop.specs.NestText.{nest_text};
ghost use Rattle.app_streams.specs.Written.{WroteAll, WroteFront, output_of, traced_text};

use env_io::{Sink, put_all};
use full_trace::full_text;
use nested_loop::{Event, write_nest};
use run_log::{JsonFault, write_json, write_log};
use script_text::write_script;
use std::alloc::Global;
use task_base::{Entry, Fault, Rows, Script};
use trace_json::{TraceFault, write_trace};

/// Writes a log: its text, or its JSON form and a line feed. Want of memory comes of JSON alone, and before the first byte.
pub fn write<K: Sink>(
    alloc: Global,
    sink: &mut K,
    log: &Rows<Entry>,
    json: bool,
) -> Result<(), Fault>
    requires { length log.now.items < 2 ^ 32 }
    ensures written { OnOk result (WroteAll (K.holds sink.old) (K.holds sink.new) (output_of json log.now.items)) }
    ensures cut { result ≡ Err Fault.WriteFault → WroteFront (K.holds sink.old) (K.holds sink.new) (output_of json log.now.items) }
    ensures failed { result ≡ Err Fault.WriteFault → Rose (K.faults sink.old) (K.faults sink.new) }
    ensures kept { result ≡ Err (Fault.NoMemory alloc_error) → sink.new ≡ sink.old }
    ensures memory { result ≡ Err (Fault.NoMemory alloc_error) → json ≡ true }
    ensures faults { IfErr result (λ fault. (fault ≡ Fault.WriteFault) ⊎ (fault ≡ Fault.NoMemory alloc_error)) }
    ensures steady { result ≢ Err Fault.WriteFault → K.faults sink.new ≡ K.faults sink.old }
{
    if !json {
        return match write_log(sink, log) {
            Ok(()) => Ok(()),
            Err(_) => Err(Fault::WriteFault),
        };
    }
    match write_json(alloc, sink, log) {
        Ok(()) => Ok(()),
        Err(JsonFault::Sink(_)) => Err(Fault::WriteFault),
        Err(JsonFault::Memory(error)) => Err(Fault::NoMemory(error)),
    }
}

/// Writes the trace of a log of the script, or the full one. Want of memory comes before the first byte.
pub fn write_events<K: Sink>(
    alloc: Global,
    sink: &mut K,
    full: bool,
    script: &Script,
    log: &Rows<Entry>,
) -> Result<(), Fault>
    ensures written { OnOk result (WroteAll (K.holds sink.old) (K.holds sink.new) (traced_text full script.now log.now.items)) }
    ensures cut { result ≡ Err Fault.WriteFault → WroteFront (K.holds sink.old) (K.holds sink.new) (traced_text full script.now log.now.items) }
    ensures failed { result ≡ Err Fault.WriteFault → Rose (K.faults sink.old) (K.faults sink.new) }
    ensures kept { result ≡ Err (Fault.NoMemory alloc_error) → sink.new ≡ sink.old }
    ensures faults { IfErr result (λ fault. (fault ≡ Fault.WriteFault) ⊎ (fault ≡ Fault.NoMemory alloc_error)) }
    ensures steady { result ≢ Err Fault.WriteFault → K.faults sink.new ≡ K.faults sink.old }
{
    if full {
        return match full_text(alloc, script, log.as_slice()) {
            Ok(text) => write_text(sink, &text),
            Err(error) => Err(Fault::NoMemory(error)),
        };
    }
    match write_trace(alloc, sink, log) {
        Ok(()) => Ok(()),
        Err(TraceFault::Sink(_)) => Err(Fault::WriteFault),
        Err(TraceFault::Memory(error)) => Err(Fault::NoMemory(error)),
    }
}

/// Writes the log of a nest.
pub fn write_nest_log<K: Sink>(sink: &mut K, log: &Rows<Event>) -> Result<(), Fault>
    ensures written { OnOk result (WroteAll (K.holds sink.old) (K.holds sink.new) (nest_text log.now.items)) }
    ensures cut { result ≡ Err Fault.WriteFault → WroteFront (K.holds sink.old) (K.holds sink.new) (nest_text log.now.items) }
    ensures failed { result ≡ Err Fault.WriteFault → Rose (K.faults sink.old) (K.faults sink.new) }
    ensures faults { IfErr result (λ fault. fault ≡ Fault.WriteFault) }
    ensures steady { result ≢ Err Fault.WriteFault → K.faults sink.new ≡ K.faults sink.old }
{
    match write_nest(sink, log) {
        Ok(()) => Ok(()),
        Err(_) => Err(Fault::WriteFault),
    }
}

/// Writes the canonical text of a script.
pub fn write_plan<K: Sink>(sink: &mut K, script: &Script) -> Result<(), Fault>
    ensures written { OnOk result (WroteAll (K.holds sink.old) (K.holds sink.new) (canonical script.now)) }
    ensures cut { result ≡ Err Fault.WriteFault → WroteFront (K.holds sink.old) (K.holds sink.new) (canonical script.now) }
    ensures failed { result ≡ Err Fault.WriteFault → Rose (K.faults sink.old) (K.faults sink.new) }
    ensures faults { IfErr result (λ fault. fault ≡ Fault.WriteFault) }
    ensures steady { result ≢ Err Fault.WriteFault → K.faults sink.new ≡ K.faults sink.old }
{
    match write_script(sink, script) {
        Ok(()) => Ok(()),
        Err(_) => Err(Fault::WriteFault),
    }
}

/// Writes a text.
pub fn write_text<K: Sink>(sink: &mut K, text: &[u8]) -> Result<(), Fault>
    ensures written { OnOk result (WroteAll (K.holds sink.old) (K.holds sink.new) text.now) }
    ensures cut { result ≡ Err Fault.WriteFault → WroteFront (K.holds sink.old) (K.holds sink.new) text.now }
    ensures failed { result ≡ Err Fault.WriteFault → Rose (K.faults sink.old) (K.faults sink.new) }
    ensures faults { IfErr result (λ fault. fault ≡ Fault.WriteFault) }
    ensures steady { result ≢ Err Fault.WriteFault → K.faults sink.new ≡ K.faults sink.old }
{
    match put_all(sink, text) {
        Ok(()) => Ok(()),
        Err(_) => Err(Fault::WriteFault),
    }
}
