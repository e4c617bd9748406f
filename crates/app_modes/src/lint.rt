//! The mode `lint`.
ghost use Rattle.std.specs.Prelude.{◌≡◌, ◌≢◌, ◌≤◌, ℕ, Option, Some, Err, false, IfOk, IfErr, length, option_map};
ghost use Rattle.task_base.specs.declared.limits.TheConstants.{MOST_BYTES};
ghost use Rattle.app_modes.specs.Failures.{failure_status, is_verdict};
ghost use Rattle.script_model.specs.Grammar.{script_read};
ghost use Rattle.app_streams.specs.Parts.{script_part};
ghost use Rattle.app_modes.specs.Linted.{lint_said, replies_said};
ghost use Rattle.command_line.specs.declared.words.Command.TheVariants.{Lint};
ghost use Rattle.app_streams.specs.Ends.{ends};
ghost use Rattle.app_streams.specs.Taken.{TookMore, TookWithin};
ghost use Rattle.app_modes.specs.Outcome.{EndsIn};

use crate::failure::Failure;
use app_streams::{parts_of, take_all, write_text};
use command_line::Linted;
use env_io::{Sink, Source};
use nest_lint::lint_nest;
use reply_lint::lint_replies;
use script_lint::lint_script;
use std::alloc::{AllocError, Global};
use task_base::Fault;
use task_script::{ScriptFault, read_script};

/// Reads an input from the source, to its end, and writes why it is none, in one line, where it is none, which is status 1.
pub fn lint<S: Source, K: Sink>(
    alloc: Global,
    input: Linted,
    source: &mut S,
    sink: &mut K,
) -> Result<(), Failure>
    ensures outcome { (told : ℕ → Option ℕ) → EndsIn (Some (Lint input)) told
        (ends (S.left source.old) (S.left source.new) (S.faults source.old) (S.faults source.new))
        (ends (K.holds sink.old) (K.holds sink.new) (K.faults sink.old) (K.faults sink.new)) result }
    ensures sink_kept { IfErr result (λ failure. is_verdict failure ≡ false → failure_status failure ≢ 5 → sink.new ≡ sink.old) }
    ensures took_more { result ≡ Err (Failure.Common Fault.TooLarge)
        → TookMore (ends (S.left source.old) (S.left source.new) (S.faults source.old) (S.faults source.new)) }
    ensures took_within { result ≢ Err (Failure.Common Fault.TooLarge)
        → TookWithin (ends (S.left source.old) (S.left source.new) (S.faults source.old) (S.faults source.new)) }
    ensures source_steady { result ≢ Err (Failure.Common Fault.ReadFault) → S.faults source.new ≡ S.faults source.old }
    ensures sink_steady { result ≢ Err (Failure.Common Fault.WriteFault) → K.faults sink.new ≡ K.faults sink.old }
{
    let bytes = take_all(alloc, source)?;
    match said(alloc, input, &bytes) {
        Ok(None) => Ok(()),
        Ok(Some(text)) => {
            write_text(sink, &text)?;
            Err(Failure::Linted)
        }
        Err(error) => Err(Failure::Common(Fault::NoMemory(error))),
    }
}

/// What is said of an input that is none. The error is want of memory.
fn said(alloc: Global, input: Linted, bytes: &[u8]) -> Result<Option<Vec<u8>>, AllocError>
    requires { length bytes.now ≤ MOST_BYTES }
    ensures { IfOk result (λ said. option_map (λ text. text.items) said ≡ lint_said input bytes.now) }
{
    match input {
        Linted::Script => lint_script(alloc, bytes),
        Linted::Replies => replies_said(alloc, bytes),
        Linted::Nest => lint_nest(alloc, bytes),
    }
}

/// What is said of replies behind a script, or of the script. The error is want of memory.
fn replies_said(alloc: Global, bytes: &[u8]) -> Result<Option<Vec<u8>>, AllocError>
    requires { length bytes.now ≤ MOST_BYTES }
    ensures { IfOk result (λ said. option_map (λ text. text.items) said ≡ replies_said (script_read (script_part bytes.now)) bytes.now) }
{
    let (text, replies) = parts_of(bytes);
    match read_script(alloc, text) {
        Ok(script) => lint_replies(alloc, &script, replies),
        Err(ScriptFault::Bad { .. }) => lint_script(alloc, text),
        Err(ScriptFault::Memory(error)) => Err(error),
    }
}
