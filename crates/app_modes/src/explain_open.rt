//! The mode `explain` with `--open`.
ghost use Rattle.std.specs.Prelude.{◌≡◌, ◌≢◌, ◌≤◌, ◌<◌, ◌^◌, ◌++◌, [], ℕ, List, Option, Some, Err, IfOk, IfErr, false, length};
ghost use Rattle.task_base.specs.Plan.{opened};
ghost use Rattle.task_base.specs.declared.limits.TheConstants.{MOST_BYTES};
ghost use Rattle.script_model.specs.Laws.Sound.{IsSound};
ghost use Rattle.live_core.specs.StandsFor.{StandsFor};
ghost use Rattle.app_modes.specs.ExplainedOpen.{IsSaidOpenAt, IsToldOn, open_place_told, open_said_of};
ghost use Rattle.app_modes.specs.Failures.{failure_status, is_verdict};
ghost use Rattle.app_modes.specs.Judged.{verdict_text};
ghost use Rattle.command_line.specs.declared.words.Command.TheVariants.{ExplainOpen};
ghost use Rattle.app_streams.specs.Ends.{ends};
ghost use Rattle.app_streams.specs.Taken.{TookMore, TookWithin};
ghost use Rattle.app_modes.specs.Outcome.{EndsIn};

use crate::check::{cut_text, write_said};
use crate::explain::{Said, bytes_of, said_of_bad, with_verdict};
use crate::failure::{Failure, common};
use crate::judged::{Taken, take_text};
use crate::open::core_of;
use app_streams::{parts_of, script_of, take_all};
use context_text::{with_context, with_lines};
use env_io::{Sink, Source};
use explain_text::{open_json, open_text};
use live_core::LiveCore;
use log_context::Fact;
use next_entry::OpenTold;
use open_explain::{explain_open as explain_core, explain_open_prefix};
use run_log::{lines_before, version_of};
use std::alloc::{AllocError, Global};
use task_base::{Entry, Fault, Script};
use told_context::open_facts_of;

/// Reads the script of an open plan from the source, to its end, and the log after it, and writes what `judge_open` writes, and after it
/// why the log is illegal, where it is, and which of its entries matter: in words, or in JSON. Where a prefix is asked for it explains
/// the beginning of a log.
pub fn explain_open<S: Source, K: Sink>(
    alloc: Global,
    json: bool,
    prefix: bool,
    source: &mut S,
    sink: &mut K,
) -> Result<(), Failure>
    ensures outcome { (told : ℕ → Option ℕ) → EndsIn (Some (ExplainOpen json prefix)) told
        (ends (S.left source.old) (S.left source.new) (S.faults source.old) (S.faults source.new))
        (ends (K.holds sink.old) (K.holds sink.new) (K.faults sink.old) (K.faults sink.new)) result }
    ensures sink_kept { IfErr result (λ failure. is_verdict failure ≡ false → failure_status failure ≢ 5 → sink.new ≡ sink.old) }
    ensures took_more { result ≡ Err (Failure.Common Fault.TooLarge)
        → TookMore (ends (S.left source.old) (S.left source.new) (S.faults source.old) (S.faults source.new)) }
    ensures took_within { result ≢ Err (Failure.Common Fault.TooLarge)
        → TookWithin (ends (S.left source.old) (S.left source.new) (S.faults source.old) (S.faults source.new)) }
    ensures source_steady { result ≢ Err (Failure.Common Fault.ReadFault) → S.faults source.new ≡ S.faults source.old }
    ensures sink_steady { result ≢ Err (Failure.Common Fault.WriteFault) → K.faults sink.new ≡ K.faults sink.old }
{
    let bytes = take_all(alloc, source)?;
    let (text, log) = parts_of(&bytes);
    let script = script_of(alloc, text)?;
    let mut live = core_of(alloc, &script, text)?;
    match all_said(alloc, json, prefix, &script, &mut live, log) {
        Ok(said) => common(write_said(sink, said.line, &said.text)),
        Err(error) => Err(Failure::Common(Fault::NoMemory(error))),
    }
}

/// All that is written of a text. The error is out of memory.
fn all_said(
    alloc: Global,
    json: bool,
    prefix: bool,
    script: &Script,
    live: &mut LiveCore,
    text: &[u8],
) -> Result<Said, AllocError>
    requires plan { IsSound script.now }
    requires fresh { StandsFor (opened script.now) [] live.old }
    requires short { length text.now ≤ MOST_BYTES }
    ensures { IfOk result (λ all. (said : List ℕ) × IsSaidOpenAt json prefix script.now text.now all.line said × (all.text.items ≡ verdict_text all.line ++ said)) }
{
    let said = why(alloc, json, prefix, script, live, text)?;
    with_verdict(alloc, said)
}

/// What is said after the verdict on a text. The error is out of memory.
fn why(
    alloc: Global,
    json: bool,
    prefix: bool,
    script: &Script,
    live: &mut LiveCore,
    text: &[u8],
) -> Result<Said, AllocError>
    requires plan { IsSound script.now }
    requires fresh { StandsFor (opened script.now) [] live.old }
    requires short { length text.now ≤ MOST_BYTES }
    ensures { IfOk result (λ said. IsSaidOpenAt json prefix script.now text.now said.line said.text.items) }
{
    let (log, cut) = match take_text(alloc, prefix, text)? {
        Taken::Log { log, cut } => (log, cut),
        Taken::Bad { line } => {
            let text = said_of_bad(alloc, json, text, line)?;
            return Ok(Said {
                line: Some(line),
                text,
            });
        }
    };
    let told = told_on(alloc, prefix, script, live, log.as_slice())?;
    let Some(place) = open_place_told(&told) else {
        let text = bytes_of(alloc, &cut_text(json, None, cut))?;
        return Ok(Said { line: None, text });
    };
    let line = place + 1 + lines_before(version_of(text));
    let facts = open_facts_of(alloc, script, log.as_slice(), &told)?;
    let text = said_of(alloc, json, line, log.as_slice(), &told, &facts)?;
    Ok(Said {
        line: Some(line),
        text,
    })
}

/// What is told of the verdict on a log, or on the beginning of one. The error is out of memory.
#[tactic(auto, unfolding(crate::specs::Opened::open_verdict_on))]
fn told_on(
    alloc: Global,
    prefix: bool,
    script: &Script,
    live: &mut LiveCore,
    log: &[Entry],
) -> Result<OpenTold, AllocError>
    requires plan { IsSound script.now }
    requires fresh { StandsFor (opened script.now) [] live.old }
    requires few { length log.now ≤ MOST_BYTES }
    ensures { IfOk result (IsToldOn prefix script.now log.now) }
{
    if prefix {
        Ok(explain_open_prefix(script, live, log))
    } else {
        explain_core(alloc, script, live, log)
    }
}

/// The place at which something is told of a log, if it is wrong.
fn open_place_told(told: &OpenTold) -> Option<u32>
    ensures { result ≡ open_place_told told.now }
{
    match *told {
        OpenTold::Legal => None,
        OpenTold::Barred { place, .. } => Some(place),
        OpenTold::AtWork { place, .. } => Some(place),
    }
}

/// What is said of a log that is found wrong at a line: why, and what the log and the script have to do with it. The error is out of
/// memory.
fn said_of(
    alloc: Global,
    json: bool,
    line: u32,
    log: &[Entry],
    told: &OpenTold,
    facts: &[Fact],
) -> Result<Vec<u8>, AllocError>
    ensures { IfOk result (λ text. text.items ≡ open_said_of json (Some line) log.now told.now facts.now) }
{
    if json {
        with_context(alloc, &open_json(alloc, line, log, told)?, facts)
    } else {
        with_lines(alloc, &open_text(log, told), facts)
    }
}
