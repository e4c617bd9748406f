//! The mode `run`, and the run of a script.
ghost use Rattle.std.specs.Prelude.{◌≡◌, ◌≢◌, ◌≤◌, All, length, alloc_error, Some, None, Err, IfOk, IfErr, OnErr, false};
ghost use Rattle.task_base.specs.declared.limits.TheConstants.{MOST_EVENTS};
ghost use Rattle.log_model.specs.Fits.{Fits};
ghost use Rattle.hist_model.specs.Legal.{IsLegal};
ghost use Rattle.hist_model.specs.Script.{IsWhole};
ghost use Rattle.script_model.specs.Laws.Sound.{IsSound};
ghost use Rattle.task_body.specs.Kinds.{view_of};
ghost use Rattle.env_core.specs.Calls.{AreFresh};
ghost use Rattle.env_crew.specs.Driving.{HasMomentsOf};
ghost use Rattle.command_line.specs.declared.words.Command.TheVariants.{Run};
ghost use Rattle.app_streams.specs.Ends.{ends};
ghost use Rattle.app_streams.specs.Taken.{TookMore, TookWithin};
ghost use Rattle.app_modes.specs.Outcome.{RunsTo, readings_of};

use crate::bodies::{Computation, bodies_of};
use app_streams::{script_of, take_all, write};
use command_line::Shake;
use env_io::{Clock, Gate, Sink, Source, StepClock};
use env_pauses::Pauses;
use env_threads::{run_crew, run_shaken};
use std::alloc::{AllocError, Global};
use std::rt;
use std::sync::Wait;
use std::thread::Threads;
use task_base::{Entry, Fault, Rows, Script};
use task_body::Body;

/// Reads a script from the source, to its end, runs it, with pauses where it is shaken, and writes the log of the run.
pub fn run_script<R: Threads + Wait + Sync + rt::Clock, S: Source, K: Sink, C: Clock, G: Gate>(
    rt: &R,
    alloc: Global,
    step: Option<u64>,
    json: bool,
    shake: Option<Shake>,
    source: &mut S,
    sink: &mut K,
    clock: &mut C,
    gate: &G,
) -> Result<(), Fault>
    ensures outcome { RunsTo (Some (Run step json shake)) (C.readings clock.old)
        (ends (S.left source.old) (S.left source.new) (S.faults source.old) (S.faults source.new))
        (ends (K.holds sink.old) (K.holds sink.new) (K.faults sink.old) (K.faults sink.new)) result }
    ensures sink_kept { IfErr result (λ fault. fault ≢ Fault.WriteFault → sink.new ≡ sink.old) }
    ensures took_more { result ≡ Err Fault.TooLarge → TookMore (ends (S.left source.old) (S.left source.new) (S.faults source.old) (S.faults source.new)) }
    ensures took_within { result ≢ Err Fault.TooLarge → TookWithin (ends (S.left source.old) (S.left source.new) (S.faults source.old) (S.faults source.new)) }
    ensures source_steady { result ≢ Err Fault.ReadFault → S.faults source.new ≡ S.faults source.old }
    ensures sink_steady { result ≢ Err Fault.WriteFault → K.faults sink.new ≡ K.faults sink.old }
    ensures clock_unread { step ≢ None → clock.new ≡ clock.old }
    ensures clock_kept { IfErr result (λ fault. fault ≢ Fault.WriteFault → (fault ≡ Fault.NoMemory alloc_error → json ≡ false) → clock.new ≡ clock.old) }
{
    let bytes = take_all(alloc, source)?;
    let script = script_of(alloc, &bytes)?;
    let log = match log_of_run(rt, alloc, &script, step, shake, clock, gate) {
        Ok(log) => log,
        Err(error) => return Err(Fault::NoMemory(error)),
    };
    write(alloc, sink, &log, json)
}

/// The log of a script's run, by readings a step apart where there is one, and else by the clock. Where it is shaken, its threads
/// pause. The error is out of memory: it comes before the first entry, and the clock was not read.
pub fn log_of_run<R: Threads + Wait + Sync + rt::Clock, C: Clock, G: Gate>(
    rt: &R,
    alloc: Global,
    script: &Script,
    step: Option<u64>,
    shake: Option<Shake>,
    clock: &mut C,
    gate: &G,
) -> Result<Rows<Entry>, AllocError>
    requires { IsSound script.now }
    ensures legal { IfOk result (λ log. IsLegal script.now log.items) }
    ensures whole { IfOk result (λ log. IsWhole script.now log.items) }
    ensures bounded { IfOk result (λ log. length log.items ≤ MOST_EVENTS) }
    ensures fits { IfOk result (λ log. All Fits log.items) }
    ensures moments { IfOk result (λ log. HasMomentsOf (readings_of step (C.readings clock.old)) log.items) }
    ensures unread { step ≢ None → clock.new ≡ clock.old }
    ensures kept { OnErr result (clock.new ≡ clock.old) }
{
    let bodies = bodies_of(alloc, script)?;
    match step {
        Some(step) => {
            let mut steps = StepClock::new(step);
            log_by(rt, alloc, script, bodies, shake, &mut steps, gate)
        }
        None => log_by(rt, alloc, script, bodies, shake, clock, gate),
    }
}

/// The log of a script's run with these bodies, by the clock.
fn log_by<R: Threads + Wait + Sync + rt::Clock, C: Clock, G: Gate>(
    rt: &R,
    alloc: Global,
    script: &Script,
    bodies: Vec<Box<Body<Computation<'_>>>>,
    shake: Option<Shake>,
    clock: &mut C,
    gate: &G,
) -> Result<Rows<Entry>, AllocError>
    requires plan { IsSound script.now }
    requires bodies { AreFresh bodies.items (λ body. (view_of body.value).whole) (λ body. (view_of body.value).rest) script.now }
    ensures legal { IfOk result (λ log. IsLegal script.now log.items) }
    ensures whole { IfOk result (λ log. IsWhole script.now log.items) }
    ensures bounded { IfOk result (λ log. length log.items ≤ MOST_EVENTS) }
    ensures fits { IfOk result (λ log. All Fits log.items) }
    ensures moments { IfOk result (λ log. HasMomentsOf (C.readings clock.old) log.items) }
    ensures kept { OnErr result (clock.new ≡ clock.old) }
{
    let env = match shake {
        None => run_crew(rt, alloc, script, bodies, clock, gate)?,
        Some(Shake { most, seed }) => {
            let pauses = Pauses { most, seed };
            run_shaken(rt, alloc, script, bodies, clock, gate, pauses)?
        }
    };
    Ok(env.into_log())
}
