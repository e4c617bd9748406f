//! The mode `check` with `--open`.
ghost use Rattle.std.specs.Prelude.{◌≡◌, ◌≢◌, ◌≤◌, [], ℕ, Bool, List, Option, Some, Err, IfOk, IfErr, false, length};
ghost use Rattle.task_base.specs.Plan.{Plan, opened};
ghost use Rattle.task_base.specs.declared.limits.TheConstants.{MOST_BYTES};
ghost use Rattle.live_core.specs.StandsFor.{StandsFor};
ghost use Rattle.app_modes.specs.Failures.{failure_status, is_verdict};
ghost use Rattle.app_modes.specs.Opened.{IsJudgedOpen, IsOpenAt};
ghost use Rattle.command_line.specs.declared.words.Command.TheVariants.{CheckOpen};
ghost use Rattle.app_streams.specs.Ends.{ends};
ghost use Rattle.app_streams.specs.Taken.{TookMore, TookWithin};
ghost use Rattle.app_modes.specs.Outcome.{EndsIn};

use crate::check::{Found, cut_text, verdict_text, write_said};
use crate::failure::{Failure, common};
use crate::judged::Judged;
use crate::open::{core_of, judge_open_log};
use app_streams::{parts_of, script_of, take_all};
use env_io::{Sink, Source};
use line_text::add;
use live_core::LiveCore;
use std::alloc::{AllocError, Global};
use task_base::Fault;

/// Reads the script of an open plan from the source, to its end, and the log after it, and writes whether the log is one that an
/// environment of the plan may write, at whose end nobody is at work, or where a prefix is asked for, the beginning of one: what `judge`
/// writes of a log. That line is in `NotLegal` too. `BadPlan` says why the script is not that of an open plan.
pub fn judge_open<S: Source, K: Sink>(
    alloc: Global,
    prefix: bool,
    source: &mut S,
    sink: &mut K,
) -> Result<(), Failure>
    ensures outcome { (told : ℕ → Option ℕ) → EndsIn (Some (CheckOpen prefix)) told
        (ends (S.left source.old) (S.left source.new) (S.faults source.old) (S.faults source.new))
        (ends (K.holds sink.old) (K.holds sink.new) (K.faults sink.old) (K.faults sink.new)) result }
    ensures sink_kept { IfErr result (λ failure. is_verdict failure ≡ false → failure_status failure ≢ 5 → sink.new ≡ sink.old) }
    ensures took_more { result ≡ Err (Failure.Common Fault.TooLarge)
        → TookMore (ends (S.left source.old) (S.left source.new) (S.faults source.old) (S.faults source.new)) }
    ensures took_within { result ≢ Err (Failure.Common Fault.TooLarge)
        → TookWithin (ends (S.left source.old) (S.left source.new) (S.faults source.old) (S.faults source.new)) }
    ensures source_steady { result ≢ Err (Failure.Common Fault.ReadFault) → S.faults source.new ≡ S.faults source.old }
    ensures sink_steady { result ≢ Err (Failure.Common Fault.WriteFault) → K.faults sink.new ≡ K.faults sink.old }
{
    let bytes = take_all(alloc, source)?;
    let (text, log) = parts_of(&bytes);
    let script = script_of(alloc, text)?;
    let mut live = core_of(alloc, &script, text)?;
    let found = match find_open(alloc, prefix, &mut live, log) {
        Ok(found) => found,
        Err(error) => return Err(Failure::Common(Fault::NoMemory(error))),
    };
    let mut said = verdict_text(found.line);
    add(&mut said, &cut_text(false, found.line, found.cut));
    common(write_said(sink, found.line, &said))
}

/// Finds whether the text is that of a log which an environment of a plan may write, by one that has done nothing. The error is out of
/// memory.
fn find_open(
    alloc: Global,
    prefix: bool,
    live: &mut LiveCore,
    text: &[u8],
) -> Result<Found, AllocError>
    requires fresh { (plan : Plan) × StandsFor (opened plan) [] live.old }
    requires short { length text.now ≤ MOST_BYTES }
    ensures { IfOk result (λ found. (plan : Plan) → StandsFor (opened plan) [] live.old → IsOpenAt prefix plan text.now found.line found.cut) }
{
    let judged = judge_open_log(alloc, prefix, live, text)?;
    Ok(found_in(&judged))
}

/// The line at which a text was found wrong, and the one that was left out.
fn found_in(judged: &Judged) -> Found
    ensures { (prefix : Bool) (plan : Plan) (text : List ℕ) → IsJudgedOpen prefix plan text judged.now → IsOpenAt prefix plan text result.line result.cut }
{
    match *judged {
        Judged::Right { cut, .. } => Found { line: None, cut },
        Judged::Wrong { line, cut } => Found {
            line: Some(line),
            cut,
        },
    }
}
