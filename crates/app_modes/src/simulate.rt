//! The mode `simulate`.
ghost use Rattle.std.specs.Prelude.{◌≡◌, ◌≢◌, ℕ, Option, Some, Err, IfErr};
ghost use Rattle.simulation.specs.Draw.{IsFair};
ghost use Rattle.command_line.specs.declared.words.Command.TheVariants.{Simulate};
ghost use Rattle.app_streams.specs.Ends.{ends};
ghost use Rattle.app_streams.specs.Taken.{TookMore, TookWithin};
ghost use Rattle.app_modes.specs.Outcome.{RunsTo, lots_of};

use app_streams::{script_of, take_all, write};
use command_line::Favour;
use env_io::{Sink, Source};
use simulation::{Lots, simulate};
use std::alloc::Global;
use task_base::Fault;

/// Reads a script from the source, to its end, runs it on this thread, whose seats take turns by a seed, and writes the log of the run.
pub fn simulate_script<S: Source, K: Sink>(
    alloc: Global,
    seed: u64,
    favour: Favour,
    step: Option<u64>,
    json: bool,
    source: &mut S,
    sink: &mut K,
) -> Result<(), Fault>
    ensures outcome { (told : ℕ → Option ℕ) → RunsTo (Some (Simulate seed favour step json)) told
        (ends (S.left source.old) (S.left source.new) (S.faults source.old) (S.faults source.new))
        (ends (K.holds sink.old) (K.holds sink.new) (K.faults sink.old) (K.faults sink.new)) result }
    ensures sink_kept { IfErr result (λ fault. fault ≢ Fault.WriteFault → sink.new ≡ sink.old) }
    ensures took_more { result ≡ Err Fault.TooLarge → TookMore (ends (S.left source.old) (S.left source.new) (S.faults source.old) (S.faults source.new)) }
    ensures took_within { result ≢ Err Fault.TooLarge → TookWithin (ends (S.left source.old) (S.left source.new) (S.faults source.old) (S.faults source.new)) }
    ensures source_steady { result ≢ Err Fault.ReadFault → S.faults source.new ≡ S.faults source.old }
    ensures sink_steady { result ≢ Err Fault.WriteFault → K.faults sink.new ≡ K.faults sink.old }
{
    let bytes = take_all(alloc, source)?;
    let script = script_of(alloc, &bytes)?;
    let log = match simulate(alloc, &script, seed, lots_of(favour), step) {
        Ok(log) => log,
        Err(error) => return Err(Fault::NoMemory(error)),
    };
    write(alloc, sink, &log, json)
}

/// How many lots the driver and each worker have in a draw.
fn lots_of(favour: Favour) -> Lots
    ensures lots { result ≡ lots_of favour }
    ensures fair { IsFair result }
{
    let (driver, worker) = match favour {
        Favour::Driver => (8, 1),
        Favour::Workers => (1, 8),
        Favour::Nobody => (1, 1),
    };
    Lots { driver, worker }
}
