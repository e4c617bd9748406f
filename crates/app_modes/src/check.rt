//! The mode `check`.
ghost use Rattle.std.specs.Prelude.{◌≡◌, ◌≢◌, ◌≤◌, ℕ, Option, Some, Err, IfOk, IfErr, length};
ghost use Rattle.task_base.specs.declared.limits.TheConstants.{MOST_BYTES};
ghost use Rattle.task_base.specs.Fault.{status_of};
ghost use Rattle.script_model.specs.Laws.Sound.{IsSound};
ghost use Rattle.app_modes.specs.Judged.{IsFoundAt, cut_text, verdict_text};
ghost use Rattle.command_line.specs.declared.words.Command.TheVariants.{Check};
ghost use Rattle.app_streams.specs.Ends.{ends};
ghost use Rattle.app_streams.specs.Taken.{TookMore, TookWithin};
ghost use Rattle.app_modes.specs.Outcome.{HasSaid, RunsTo};

use crate::judged::{Judged, judge_log};
use app_streams::{parts_of, script_of, take_all, write_text};
use env_io::{Sink, Source};
use line_text::{Line, add, add_decimal};
use std::alloc::{AllocError, Global};
use task_base::{Fault, Script};

/// Reads a script from the source, to its end, and the log behind it, and writes whether the log is that of a whole run of
/// the script, or where a prefix is asked for, that of the beginning of one: `legal`, or `illegal` and the line at which it
/// is found not to be. That line is in `NotLegal` too. Where a line of a legal beginning was left out, since it is cut off, that is
/// written too.
pub fn judge<S: Source, K: Sink>(
    alloc: Global,
    prefix: bool,
    source: &mut S,
    sink: &mut K,
) -> Result<(), Fault>
    ensures outcome { (told : ℕ → Option ℕ) → RunsTo (Some (Check prefix)) told
        (ends (S.left source.old) (S.left source.new) (S.faults source.old) (S.faults source.new))
        (ends (K.holds sink.old) (K.holds sink.new) (K.faults sink.old) (K.faults sink.new)) result }
    ensures sink_kept { IfErr result (λ fault. status_of fault ≢ 1 → status_of fault ≢ 5 → sink.new ≡ sink.old) }
    ensures took_more { result ≡ Err Fault.TooLarge → TookMore (ends (S.left source.old) (S.left source.new) (S.faults source.old) (S.faults source.new)) }
    ensures took_within { result ≢ Err Fault.TooLarge → TookWithin (ends (S.left source.old) (S.left source.new) (S.faults source.old) (S.faults source.new)) }
    ensures source_steady { result ≢ Err Fault.ReadFault → S.faults source.new ≡ S.faults source.old }
    ensures sink_steady { result ≢ Err Fault.WriteFault → K.faults sink.new ≡ K.faults sink.old }
{
    let bytes = take_all(alloc, source)?;
    let (text, log) = parts_of(&bytes);
    let script = script_of(alloc, text)?;
    let found = match find(alloc, prefix, &script, log) {
        Ok(found) => found,
        Err(error) => return Err(Fault::NoMemory(error)),
    };
    let mut text = verdict_text(found.line);
    add(&mut text, &cut_text(false, found.line, found.cut));
    write_said(sink, found.line, &text)
}

/// Writes the text on what is found at the line, and answers whether there is one.
pub(crate) fn write_said<K: Sink>(sink: &mut K, line: Option<u32>, text: &[u8]) -> Result<(), Fault>
    ensures said { HasSaid line text.now (ends (K.holds sink.old) (K.holds sink.new) (K.faults sink.old) (K.faults sink.new)) result }
    ensures steady { result ≢ Err Fault.WriteFault → K.faults sink.new ≡ K.faults sink.old }
{
    write_text(sink, text)?;
    match line {
        None => Ok(()),
        Some(line) => Err(Fault::NotLegal { line }),
    }
}

/// What is found of the text of a log.
#[derive(Clone, Copy)]
pub(crate) struct Found {
    /// The line at which it is no log of a whole run of the script, or of the beginning of one, if there is one.
    pub(crate) line: Option<u32>,
    /// The line that was left out, if one was.
    pub(crate) cut: Option<u32>,
}

/// Finds whether the text is the log of a whole run of the script, or of the beginning of one. The error is out of memory.
fn find(alloc: Global, prefix: bool, script: &Script, text: &[u8]) -> Result<Found, AllocError>
    requires plan { IsSound script.now }
    requires short { length text.now ≤ MOST_BYTES }
    ensures { IfOk result (λ found. IsFoundAt prefix script.now text.now found.line found.cut) }
{
    match judge_log(alloc, prefix, script, text)? {
        Judged::Right { cut, .. } => Ok(Found { line: None, cut }),
        Judged::Wrong { line, cut } => Ok(Found {
            line: Some(line),
            cut,
        }),
    }
}

/// What is written of that line.
pub(crate) fn verdict_text(line: Option<u32>) -> Line
    ensures items { result.items ≡ verdict_text line }
    ensures short { length result.items ≤ 29 }
{
    let mut text = Line::new();
    match line {
        None => add(&mut text, b"legal\n"),
        Some(line) => {
            add(&mut text, b"illegal ");
            add_decimal(&mut text, u64::from(line));
            add(&mut text, b"\n");
        }
    }
    text
}

/// What is said of a line that was left out, where no line is wrong: in words or in JSON.
pub(crate) fn cut_text(json: bool, line: Option<u32>, cut: Option<u32>) -> Line
    ensures items { result.items ≡ cut_text json line cut }
    ensures short { length result.items ≤ 64 }
{
    let mut text = Line::new();
    if let (None, Some(cut)) = (line, cut) {
        let (before, after) = if json {
            (b"{\"line\":".as_slice(), b",\"cut_off\":true}\n".as_slice())
        } else {
            (
                b"line ".as_slice(),
                b" is cut off, and was left out\n".as_slice(),
            )
        };
        add(&mut text, before);
        add_decimal(&mut text, u64::from(cut));
        add(&mut text, after);
    }
    text
}
