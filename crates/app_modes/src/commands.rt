//! What the words of the command line ask for, in any mode.
ghost use Rattle.std.specs.Prelude.{◌≡◌, ◌≢◌, false, map, string_bytes, Some, Err, IfErr};
ghost use Rattle.command_line.specs.CommandLine.{ReadsClock, TakesInput, WritesJson, command_of};
ghost use Rattle.app_modes.specs.Failures.{failure_status, is_verdict};
ghost use Rattle.app_streams.specs.Ends.{ends};
ghost use Rattle.app_streams.specs.Taken.{TookMore, TookWithin};
ghost use Rattle.app_modes.specs.Outcome.{EndsIn};

use crate::arrange::arrange;
use crate::arrange_open::arrange_open;
use crate::bench::run_generated;
use crate::check::judge;
use crate::check_open::judge_open;
use crate::explain::explain;
use crate::explain_open::explain_open;
use crate::failure::{Failure, common};
use crate::generate::write_generated;
use crate::lint::lint;
use crate::nests::run_nest_script;
use crate::replies::run_replies;
use crate::runs::run_script;
use crate::simulate::simulate_script;
use crate::trace::trace;
use crate::trace_open::trace_open;
use command_line::{Command, command_of};
use env_io::{Clock, Gate, Sink, Source};
use std::alloc::Global;
use std::rt;
use std::sync::Wait;
use std::thread::Threads;
use task_base::Fault;

/// Does what the words ask for. The error says why the command did not end with status 0: where a log is judged and is not
/// legal (`NotLegal`), the verdict is written by then.
pub fn execute<R: Threads + Wait + Sync + rt::Clock, S: Source, K: Sink, C: Clock, G: Gate>(
    rt: &R,
    alloc: Global,
    words: &[String],
    source: &mut S,
    sink: &mut K,
    clock: &mut C,
    gate: &G,
) -> Result<(), Failure>
    ensures outcome { EndsIn (command_of (map string_bytes words.now)) (C.readings clock.old)
        (ends (S.left source.old) (S.left source.new) (S.faults source.old) (S.faults source.new))
        (ends (K.holds sink.old) (K.holds sink.new) (K.faults sink.old) (K.faults sink.new)) result }
    ensures sink_kept { IfErr result (λ failure. is_verdict failure ≡ false → failure_status failure ≢ 5 → sink.new ≡ sink.old) }
    ensures took_more { result ≡ Err (Failure.Common Fault.TooLarge)
        → TookMore (ends (S.left source.old) (S.left source.new) (S.faults source.old) (S.faults source.new)) }
    ensures took_within { result ≢ Err (Failure.Common Fault.TooLarge)
        → TookWithin (ends (S.left source.old) (S.left source.new) (S.faults source.old) (S.faults source.new)) }
    ensures source_kept { ¬ TakesInput (command_of (map string_bytes words.now)) → source.new ≡ source.old }
    ensures source_steady { result ≢ Err (Failure.Common Fault.ReadFault) → S.faults source.new ≡ S.faults source.old }
    ensures sink_steady { result ≢ Err (Failure.Common Fault.WriteFault) → K.faults sink.new ≡ K.faults sink.old }
    ensures clock_unread { ¬ ReadsClock (command_of (map string_bytes words.now)) → clock.new ≡ clock.old }
    ensures clock_kept { IfErr result (λ failure. failure_status failure ≢ 5
        → (failure_status failure ≡ 6 → ¬ WritesJson (command_of (map string_bytes words.now))) → clock.new ≡ clock.old) }
{
    let command = match command_of(alloc, words) {
        Ok(Some(command)) => command,
        Ok(None) => return Err(Failure::Common(Fault::BadWords)),
        Err(error) => return Err(Failure::Common(Fault::NoMemory(error))),
    };
    match command {
        Command::Run { step, json, shake } => common(run_script(
            rt, alloc, step, json, shake, source, sink, clock, gate,
        )),
        Command::Simulate {
            seed,
            favour,
            step,
            json,
        } => common(simulate_script(alloc, seed, favour, step, json, source, sink)),
        Command::Check { prefix } => common(judge(alloc, prefix, source, sink)),
        Command::CheckOpen { prefix } => judge_open(alloc, prefix, source, sink),
        Command::Explain { json, prefix } => { common(explain(alloc, json, prefix, source, sink)) }
        Command::ExplainOpen { json, prefix } => explain_open(alloc, json, prefix, source, sink),
        Command::Arrange { prefix, most } => arrange(alloc, prefix, most, source, sink),
        Command::ArrangeOpen { prefix, most } => arrange_open(alloc, prefix, most, source, sink),
        Command::Reply => run_replies(rt, alloc, source, sink, clock, gate),
        Command::Trace { full, prefix } => trace(alloc, full, prefix, source, sink),
        Command::TraceOpen { full, prefix } => trace_open(alloc, full, prefix, source, sink),
        Command::Nest => run_nest_script(alloc, source, sink),
        Command::Lint { input } => lint(alloc, input, source, sink),
        Command::Generate { number, size, wide } => {
            common(write_generated(alloc, number, size, wide, sink))
        }
        Command::Bench { number, size, work } => {
            common(run_generated(rt, alloc, number, size, work, sink, gate))
        }
    }
}
