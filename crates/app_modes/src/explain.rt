//! The mode `explain`.
ghost use Rattle.std.specs.Prelude.{◌≡◌, ◌≢◌, ◌≤◌, ◌++◌, ℕ, List, Option, Some, Err, IfOk, IfErr, length};
ghost use Rattle.task_base.specs.declared.limits.TheConstants.{MOST_BYTES};
ghost use Rattle.task_base.specs.Fault.{status_of};
ghost use Rattle.script_model.specs.Laws.Sound.{IsSound};
ghost use Rattle.log_model.specs.LogText.{version_of};
ghost use Rattle.log_mistakes.specs.Mistakes.{mistake_at};
ghost use Rattle.run_log.specs.TextLines.{IsBadLine};
ghost use Rattle.app_modes.specs.Explained.{IsExplanation, IsSaidAt, place_told, said_of, said_of_bad};
ghost use Rattle.app_modes.specs.Judged.{verdict_text};
ghost use Rattle.command_line.specs.declared.words.Command.TheVariants.{Explain};
ghost use Rattle.app_streams.specs.Ends.{ends};
ghost use Rattle.app_streams.specs.Taken.{TookMore, TookWithin};
ghost use Rattle.app_modes.specs.Outcome.{RunsTo};

use crate::check::{cut_text, verdict_text, write_said};
use crate::judged::{Taken, take_text};
use app_streams::{parts_of, script_of, take_all};
use context_text::{with_context, with_lines};
use env_explain::{explain_log, explain_prefix};
use env_io::{Sink, Source};
use explain_text::{mistake_json, mistake_text, told_json, told_text};
use log_context::Fact;
use log_mistakes::mistake_at;
use next_entry::Explanation;
use run_log::{lines_before, version_of};
use std::alloc::{AllocError, Global};
use task_base::{Entry, Fault, Rows, Script};
use told_context::facts_of;

/// What is said of the text of a log.
#[derive(Drop)]
pub(crate) struct Said {
    /// The line at which it is found to be none that is asked for, if there is one.
    pub(crate) line: Option<u32>,
    pub(crate) text: Vec<u8>,
}

/// Reads a script from the source, to its end, and the log after it, and writes what `judge` writes, and after it why the
/// log is illegal, where it is, and which of its entries matter: in words, or in JSON. Where a prefix is asked for it explains the beginning of a log.
pub fn explain<S: Source, K: Sink>(
    alloc: Global,
    json: bool,
    prefix: bool,
    source: &mut S,
    sink: &mut K,
) -> Result<(), Fault>
    ensures outcome { (told : ℕ → Option ℕ) → RunsTo (Some (Explain json prefix)) told
        (ends (S.left source.old) (S.left source.new) (S.faults source.old) (S.faults source.new))
        (ends (K.holds sink.old) (K.holds sink.new) (K.faults sink.old) (K.faults sink.new)) result }
    ensures sink_kept { IfErr result (λ fault. status_of fault ≢ 1 → status_of fault ≢ 5 → sink.new ≡ sink.old) }
    ensures took_more { result ≡ Err Fault.TooLarge → TookMore (ends (S.left source.old) (S.left source.new) (S.faults source.old) (S.faults source.new)) }
    ensures took_within { result ≢ Err Fault.TooLarge → TookWithin (ends (S.left source.old) (S.left source.new) (S.faults source.old) (S.faults source.new)) }
    ensures source_steady { result ≢ Err Fault.ReadFault → S.faults source.new ≡ S.faults source.old }
    ensures sink_steady { result ≢ Err Fault.WriteFault → K.faults sink.new ≡ K.faults sink.old }
{
    let bytes = take_all(alloc, source)?;
    let (text, log) = parts_of(&bytes);
    let script = script_of(alloc, text)?;
    match all_said(alloc, json, prefix, &script, log) {
        Ok(said) => write_said(sink, said.line, &said.text),
        Err(error) => Err(Fault::NoMemory(error)),
    }
}

/// All that is written of a text. The error is out of memory.
fn all_said(
    alloc: Global,
    json: bool,
    prefix: bool,
    script: &Script,
    text: &[u8],
) -> Result<Said, AllocError>
    requires plan { IsSound script.now }
    requires short { length text.now ≤ MOST_BYTES }
    ensures { IfOk result (λ all. (said : List ℕ) × IsSaidAt json prefix script.now text.now all.line said × (all.text.items ≡ verdict_text all.line ++ said)) }
{
    let said = why(alloc, json, prefix, script, text)?;
    with_verdict(alloc, said)
}

/// The verdict at its line, and what is said after it. The error is out of memory.
pub(crate) fn with_verdict(alloc: Global, said: Said) -> Result<Said, AllocError>
    ensures line { IfOk result (λ all. all.line ≡ said.line) }
    ensures text { IfOk result (λ all. all.text.items ≡ verdict_text said.line ++ said.text.items) }
{
    let mut all = Vec::new(alloc);
    all.extend_from_slice(&verdict_text(said.line))?;
    all.extend_from_slice(&said.text)?;
    Ok(Said {
        line: said.line,
        text: all,
    })
}

/// What is said behind the verdict on a text. The error is out of memory.
fn why(
    alloc: Global,
    json: bool,
    prefix: bool,
    script: &Script,
    text: &[u8],
) -> Result<Said, AllocError>
    requires plan { IsSound script.now }
    requires short { length text.now ≤ MOST_BYTES }
    ensures { IfOk result (λ said. IsSaidAt json prefix script.now text.now said.line said.text.items) }
{
    let (log, cut) = match take_text(alloc, prefix, text)? {
        Taken::Log { log, cut } => (log, cut),
        Taken::Bad { line } => {
            let text = said_of_bad(alloc, json, text, line)?;
            return Ok(Said {
                line: Some(line),
                text,
            });
        }
    };
    let told = told_on(alloc, prefix, script, &log)?;
    let Some(place) = place_told(&told) else {
        let text = bytes_of(alloc, &cut_text(json, None, cut))?;
        return Ok(Said { line: None, text });
    };
    let line = place + 1 + lines_before(version_of(text));
    let facts = facts_of(alloc, script, log.as_slice(), &told)?;
    let text = said_of(alloc, json, line, log.as_slice(), &told, &facts)?;
    Ok(Said {
        line: Some(line),
        text,
    })
}

/// The explanation of the verdict on a whole log, or on the prefix of one. The error is out of memory.
#[tactic(auto, unfolding(crate::specs::Judged::verdict_on))]
fn told_on(
    alloc: Global,
    prefix: bool,
    script: &Script,
    log: &Rows<Entry>,
) -> Result<Explanation, AllocError>
    requires { IsSound script.now }
    ensures { IfOk result (IsExplanation prefix script.now log.now.items) }
{
    if prefix {
        explain_prefix(alloc, script, log)
    } else {
        explain_log(alloc, script, log)
    }
}

/// The place that an explanation is of, if the log is not that of a whole run.
fn place_told(told: &Explanation) -> Option<u32>
    ensures { result ≡ place_told told.now }
{
    match *told {
        Explanation::Legal => None,
        Explanation::Barred { place, .. } => Some(place),
        Explanation::Unfinished { place, .. } => Some(place),
        Explanation::AtWork { place, .. } => Some(place),
    }
}

/// What is said of a log that is found wrong at a line: why, and what the log and the script have to do with it. The error is out of
/// memory.
fn said_of(
    alloc: Global,
    json: bool,
    line: u32,
    log: &[Entry],
    told: &Explanation,
    facts: &[Fact],
) -> Result<Vec<u8>, AllocError>
    ensures { IfOk result (λ text. text.items ≡ said_of json (Some line) log.now told.now facts.now) }
{
    if json {
        with_context(alloc, &told_json(alloc, line, log, told)?, facts)
    } else {
        with_lines(alloc, &told_text(log, told), facts)
    }
}

/// What is said of a line that is none of a log at its place. The error is out of memory.
pub(crate) fn said_of_bad(
    alloc: Global,
    json: bool,
    text: &[u8],
    line: u32,
) -> Result<Vec<u8>, AllocError>
    requires { IsBadLine text.now line }
    ensures { IfOk result (λ said. said.items ≡ said_of_bad json (version_of text.now) line (mistake_at text.now line)) }
{
    let mistake = mistake_at(alloc, text, line)?;
    let place = line - 1 - lines_before(version_of(text));
    if json {
        mistake_json(alloc, line, place, &mistake)
    } else {
        bytes_of(alloc, &mistake_text(line, place, &mistake))
    }
}

/// A copy of the bytes. The error is out of memory.
pub(crate) fn bytes_of(alloc: Global, bytes: &[u8]) -> Result<Vec<u8>, AllocError>
    ensures { IfOk result (λ copy. copy.items ≡ bytes.now) }
{
    let mut copy = Vec::new(alloc);
    copy.extend_from_slice(bytes)?;
    Ok(copy)
}
