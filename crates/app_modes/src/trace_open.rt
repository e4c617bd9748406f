//! The mode `trace` with `--open`.
ghost use Rattle.std.specs.Prelude.{◌≡◌, ◌≢◌, ℕ, Option, Some, Err, IfErr};
ghost use Rattle.app_modes.specs.Failures.{failure_status};
ghost use Rattle.command_line.specs.declared.words.Command.TheVariants.{TraceOpen};
ghost use Rattle.app_streams.specs.Ends.{ends};
ghost use Rattle.app_streams.specs.Taken.{TookMore, TookWithin};
ghost use Rattle.app_modes.specs.Outcome.{EndsIn};

use crate::failure::Failure;
use crate::judged::Judged;
use crate::open::{core_of, judge_open_log};
use app_streams::{parts_of, script_of, take_all, write_events};
use env_io::{Sink, Source};
use std::alloc::Global;
use task_base::Fault;

/// Reads the script of an open plan from the source, to its end, and the log after it, and writes the trace of the log, or the full one,
/// where it is one that an environment of the plan may write, at whose end nobody is at work, or where a prefix is asked for, the
/// beginning of one, where a line that is cut off is left out. Else it writes nothing: `NotTraced` has the line at which it is found not
/// to be.
pub fn trace_open<S: Source, K: Sink>(
    alloc: Global,
    full: bool,
    prefix: bool,
    source: &mut S,
    sink: &mut K,
) -> Result<(), Failure>
    ensures outcome { (told : ℕ → Option ℕ) → EndsIn (Some (TraceOpen full prefix)) told
        (ends (S.left source.old) (S.left source.new) (S.faults source.old) (S.faults source.new))
        (ends (K.holds sink.old) (K.holds sink.new) (K.faults sink.old) (K.faults sink.new)) result }
    ensures sink_kept { IfErr result (λ failure. failure_status failure ≢ 5 → sink.new ≡ sink.old) }
    ensures took_more { result ≡ Err (Failure.Common Fault.TooLarge)
        → TookMore (ends (S.left source.old) (S.left source.new) (S.faults source.old) (S.faults source.new)) }
    ensures took_within { result ≢ Err (Failure.Common Fault.TooLarge)
        → TookWithin (ends (S.left source.old) (S.left source.new) (S.faults source.old) (S.faults source.new)) }
    ensures source_steady { result ≢ Err (Failure.Common Fault.ReadFault) → S.faults source.new ≡ S.faults source.old }
    ensures sink_steady { result ≢ Err (Failure.Common Fault.WriteFault) → K.faults sink.new ≡ K.faults sink.old }
{
    let bytes = take_all(alloc, source)?;
    let (text, log) = parts_of(&bytes);
    let script = script_of(alloc, text)?;
    let mut live = core_of(alloc, &script, text)?;
    match judge_open_log(alloc, prefix, &mut live, log) {
        Ok(Judged::Right { log, .. }) => match write_events(alloc, sink, full, &script, &log) {
            Ok(()) => Ok(()),
            Err(fault) => Err(Failure::Common(fault)),
        },
        Ok(Judged::Wrong { line, .. }) => Err(Failure::NotTraced { line }),
        Err(error) => Err(Failure::Common(Fault::NoMemory(error))),
    }
}
