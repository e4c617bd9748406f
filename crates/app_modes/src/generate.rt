//! The mode `gen`.
ghost use Rattle.std.specs.Prelude.{◌≡◌, ◌≢◌, ◌⊎◌, ◌≤◌, ℕ, Option, Some, Err, alloc_error, IfErr, IfOk};
ghost use Rattle.command_line.specs.declared.words.Command.TheVariants.{Generate};
ghost use Rattle.app_streams.specs.Ends.{Ends, ends};
ghost use Rattle.app_modes.specs.Outcome.{RunsTo, made, parts_of};
ghost use Rattle.command_line.specs.declared.options.TheConstants.{MOST_SIZE};

use app_streams::write_plan;
use command_line::Wide;
use env_io::Sink;
use std::alloc::{AllocError, Global};
use task_base::{Fault, Script};
use task_script::generate;
use wide_script::{Parts, wide_script};

/// Writes the script that is made from a number, a wide one where that is asked for. It has from 1 to 8,192 tasks.
pub fn write_generated<K: Sink>(
    alloc: Global,
    number: u64,
    size: u32,
    wide: Option<Wide>,
    sink: &mut K,
) -> Result<(), Fault>
    requires some { 1 ≤ size }
    requires few { size ≤ MOST_SIZE }
    ensures outcome { (told : ℕ → Option ℕ) (source : Ends) → RunsTo (Some (Generate number size wide)) told source
        (ends (K.holds sink.old) (K.holds sink.new) (K.faults sink.old) (K.faults sink.new)) result }
    ensures faults { IfErr result (λ fault. (fault ≡ Fault.WriteFault) ⊎ (fault ≡ Fault.NoMemory alloc_error)) }
    ensures sink_kept { IfErr result (λ fault. fault ≢ Fault.WriteFault → sink.new ≡ sink.old) }
    ensures sink_steady { result ≢ Err Fault.WriteFault → K.faults sink.new ≡ K.faults sink.old }
{
    let script = match script_made(alloc, number, size, wide) {
        Ok(script) => script,
        Err(error) => return Err(Fault::NoMemory(error)),
    };
    write_plan(sink, &script)
}

/// The script that is made from a number.
fn script_made(
    alloc: Global,
    number: u64,
    size: u32,
    wide: Option<Wide>,
) -> Result<Script, AllocError>
    requires some { 1 ≤ size }
    requires few { size ≤ MOST_SIZE }
    ensures { IfOk result (λ script. script ≡ made number size wide) }
{
    match wide {
        Some(wide) => wide_script(alloc, number, size, parts_of(wide)),
        None => generate(alloc, number, size),
    }
}

/// What a wide script is to have, as the words say it.
fn parts_of(wide: Wide) -> Parts
    ensures { result ≡ parts_of wide }
{
    Parts {
        jobs: wide.jobs,
        main: wide.main,
        delays: wide.delays,
        scopes: wide.scopes,
        shutdown: wide.shutdown,
    }
}
