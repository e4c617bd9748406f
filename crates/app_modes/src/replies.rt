//! The mode `reply`.
ghost use Rattle.std.specs.Prelude.{◌≡◌, ◌≢◌, ◌≤◌, Some, None, Err, IfOk, IfErr, length};
ghost use Rattle.task_base.specs.declared.limits.TheConstants.{MOST_BYTES};
ghost use Rattle.script_model.specs.Laws.Sound.{IsSound};
ghost use Rattle.task_reply.specs.Elaborated.{IsElaboratedBy};
ghost use Rattle.app_modes.specs.Failures.{failure_status};
ghost use Rattle.command_line.specs.declared.words.Command.TheVariants.{Reply};
ghost use Rattle.app_streams.specs.Ends.{ends};
ghost use Rattle.app_streams.specs.Taken.{TookMore, TookWithin};
ghost use Rattle.app_modes.specs.Outcome.{EndsIn, IsNotElaborated};

use crate::failure::Failure;
use crate::runs::log_of_run;
use app_streams::{parts_of, script_of, take_all, write};
use env_io::{Clock, Gate, Sink, Source};
use std::alloc::Global;
use std::rt;
use std::sync::Wait;
use std::thread::Threads;
use task_base::{Fault, Script};
use task_reply::{ReplyFault, elaborate};

/// Reads a script from the source, to its end, and the replies behind it, runs the script with the replies, and writes the
/// log of the run.
pub fn run_replies<R: Threads + Wait + Sync + rt::Clock, S: Source, K: Sink, C: Clock, G: Gate>(
    rt: &R,
    alloc: Global,
    source: &mut S,
    sink: &mut K,
    clock: &mut C,
    gate: &G,
) -> Result<(), Failure>
    ensures outcome { EndsIn (Some Reply) (C.readings clock.old)
        (ends (S.left source.old) (S.left source.new) (S.faults source.old) (S.faults source.new))
        (ends (K.holds sink.old) (K.holds sink.new) (K.faults sink.old) (K.faults sink.new)) result }
    ensures sink_kept { IfErr result (λ failure. failure_status failure ≢ 5 → sink.new ≡ sink.old) }
    ensures took_more { result ≡ Err (Failure.Common Fault.TooLarge)
        → TookMore (ends (S.left source.old) (S.left source.new) (S.faults source.old) (S.faults source.new)) }
    ensures took_within { result ≢ Err (Failure.Common Fault.TooLarge)
        → TookWithin (ends (S.left source.old) (S.left source.new) (S.faults source.old) (S.faults source.new)) }
    ensures source_steady { result ≢ Err (Failure.Common Fault.ReadFault) → S.faults source.new ≡ S.faults source.old }
    ensures sink_steady { result ≢ Err (Failure.Common Fault.WriteFault) → K.faults sink.new ≡ K.faults sink.old }
    ensures clock_kept { IfErr result (λ failure. failure_status failure ≢ 5 → clock.new ≡ clock.old) }
{
    let bytes = take_all(alloc, source)?;
    let (text, replies) = parts_of(&bytes);
    let script = script_of(alloc, text)?;
    let script = with_replies(alloc, script, replies)?;
    let log = match log_of_run(rt, alloc, &script, None, None, clock, gate) {
        Ok(log) => log,
        Err(error) => return Err(Failure::Common(Fault::NoMemory(error))),
    };
    Ok(write(alloc, sink, &log, false)?)
}

/// The script whose tasks post the replies.
fn with_replies(alloc: Global, script: Script, replies: &[u8]) -> Result<Script, Failure>
    requires sound { IsSound script }
    requires short { length replies.now ≤ MOST_BYTES }
    ensures elaborated { IfOk result (IsElaboratedBy script replies.now) }
    ensures sound { IfOk result IsSound }
    ensures bad { IfErr result (IsNotElaborated script replies.now) }
{
    match elaborate(alloc, script, replies) {
        Ok(script) => Ok(script),
        Err(ReplyFault::Bad { line, reason }) => Err(Failure::BadReplies { line, reason }),
        Err(ReplyFault::Memory(error)) => Err(Failure::Common(Fault::NoMemory(error))),
    }
}
