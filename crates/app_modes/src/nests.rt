//! The mode `nest`.
ghost use Rattle.std.specs.Prelude.{◌≡◌, ◌≢◌, ◌≤◌, ℕ, Option, Some, Err, IfOk, IfErr, length};
ghost use Rattle.task_base.specs.declared.limits.TheConstants.{MOST_BYTES};
ghost use Rattle.nested_loop.specs.NestGrammar.{ReadsNest};
ghost use Rattle.nested_loop.specs.Sound.{IsSoundNest};
ghost use Rattle.app_modes.specs.Failures.{failure_status};
ghost use Rattle.command_line.specs.declared.words.Command.TheVariants as commands;
ghost use Rattle.app_streams.specs.Ends.{ends};
ghost use Rattle.app_streams.specs.Taken.{TookMore, TookWithin};
ghost use Rattle.app_modes.specs.Outcome.{EndsIn, IsNoNest};

use crate::failure::Failure;
use app_streams::{take_all, write_nest_log};
use env_io::{Sink, Source};
use nested_loop::{Nest, NestFault, read_nest, run_nest};
use std::alloc::Global;
use task_base::Fault;

/// Reads a nest script from the source, to its end, runs it, and writes its log.
pub fn run_nest_script<S: Source, K: Sink>(
    alloc: Global,
    source: &mut S,
    sink: &mut K,
) -> Result<(), Failure>
    ensures outcome { (told : ℕ → Option ℕ) → EndsIn (Some commands.Nest) told
        (ends (S.left source.old) (S.left source.new) (S.faults source.old) (S.faults source.new))
        (ends (K.holds sink.old) (K.holds sink.new) (K.faults sink.old) (K.faults sink.new)) result }
    ensures sink_kept { IfErr result (λ failure. failure_status failure ≢ 5 → sink.new ≡ sink.old) }
    ensures took_more { result ≡ Err (Failure.Common Fault.TooLarge)
        → TookMore (ends (S.left source.old) (S.left source.new) (S.faults source.old) (S.faults source.new)) }
    ensures took_within { result ≢ Err (Failure.Common Fault.TooLarge)
        → TookWithin (ends (S.left source.old) (S.left source.new) (S.faults source.old) (S.faults source.new)) }
    ensures source_steady { result ≢ Err (Failure.Common Fault.ReadFault) → S.faults source.new ≡ S.faults source.old }
    ensures sink_steady { result ≢ Err (Failure.Common Fault.WriteFault) → K.faults sink.new ≡ K.faults sink.old }
{
    let bytes = take_all(alloc, source)?;
    let nest = nest_of(alloc, &bytes)?;
    let log = match run_nest(alloc, &nest) {
        Ok(log) => log,
        Err(error) => return Err(Failure::Common(Fault::NoMemory(error))),
    };
    Ok(write_nest_log(sink, &log)?)
}

/// Reads a nest script.
fn nest_of(alloc: Global, bytes: &[u8]) -> Result<Nest, Failure>
    requires { length bytes.now ≤ MOST_BYTES }
    ensures read { IfOk result (λ nest. ReadsNest bytes.now nest) }
    ensures sound { IfOk result IsSoundNest }
    ensures bad { IfErr result (IsNoNest bytes.now) }
{
    match read_nest(alloc, bytes) {
        Ok(nest) => Ok(nest),
        Err(NestFault::Bad { line, reason }) => Err(Failure::BadNest { line, reason }),
        Err(NestFault::Memory(error)) => Err(Failure::Common(Fault::NoMemory(error))),
    }
}
