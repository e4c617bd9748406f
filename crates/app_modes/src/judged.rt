//! What a log is found to be: taken from its text and judged, for the modes `check`, `explain` and `trace`.
ghost use Rattle.std.specs.Prelude.{◌≡◌, ◌≤◌, IfOk, length};
ghost use Rattle.task_base.specs.declared.limits.TheConstants.{MOST_BYTES};
ghost use Rattle.script_model.specs.Laws.Sound.{IsSound};
ghost use Rattle.app_modes.specs.Judged.{IsJudged, IsTaken, verdict_on};

use env_check::{Verdict, check_log, check_prefix};
use run_log::{LogFault, lines_before, read_beginning, read_log, version_of};
use std::alloc::{AllocError, Global};
use task_base::{Entry, Rows, Script};

/// What the text of a log is taken for.
#[derive(Drop)]
pub enum Taken {
    /// The text of this log, or its beginning; and the line, counted from 1, that is cut off and was left out, if there is one.
    Log { log: Rows<Entry>, cut: Option<u32> },
    /// The text of none, by this line, which counts from 1.
    Bad { line: u32 },
}

/// What the text of a log is found to be.
#[derive(Drop)]
pub enum Judged {
    /// The text of this log, or its beginning, as which it is right; and the line that was left out, if there is one.
    Right { log: Rows<Entry>, cut: Option<u32> },
    /// No text of a right log, by this line, which counts from 1; and the line that was left out, if there is one.
    Wrong { line: u32, cut: Option<u32> },
}

/// Takes the text for that of a log; or where a prefix is asked for, for the beginning of one. The error is out of memory.
pub fn take_text(alloc: Global, prefix: bool, text: &[u8]) -> Result<Taken, AllocError>
    requires { length text.now ≤ MOST_BYTES }
    ensures { IfOk result (IsTaken prefix text.now) }
{
    if prefix {
        match read_beginning(alloc, text) {
            Ok(begun) => Ok(Taken::Log {
                log: begun.log,
                cut: begun.cut,
            }),
            Err(LogFault::Bad { line }) => Ok(Taken::Bad { line }),
            Err(LogFault::Memory(error)) => Err(error),
        }
    } else {
        match read_log(alloc, text) {
            Ok(log) => Ok(Taken::Log { log, cut: None }),
            Err(LogFault::Bad { line }) => Ok(Taken::Bad { line }),
            Err(LogFault::Memory(error)) => Err(error),
        }
    }
}

/// Judges whether the text is the log of a whole run of the script; or where a prefix is asked for, of the beginning of one.
/// The error is out of memory.
pub fn judge_log(
    alloc: Global,
    prefix: bool,
    script: &Script,
    text: &[u8],
) -> Result<Judged, AllocError>
    requires plan { IsSound script.now }
    requires short { length text.now ≤ MOST_BYTES }
    ensures { IfOk result (IsJudged prefix script.now text.now) }
{
    let (log, cut) = match take_text(alloc, prefix, text)? {
        Taken::Log { log, cut } => (log, cut),
        Taken::Bad { line } => return Ok(Judged::Wrong { line, cut: None }),
    };
    match verdict_on(alloc, prefix, script, &log)? {
        Verdict::Legal => Ok(Judged::Right { log, cut }),
        Verdict::Illegal { place } => Ok(Judged::Wrong {
            line: place + 1 + lines_before(version_of(text)),
            cut,
        }),
    }
}

/// The verdict on a whole log, or on the prefix of one. The error is out of memory.
#[tactic(auto, unfolding(crate::specs::Judged::verdict_on))]
fn verdict_on(
    alloc: Global,
    prefix: bool,
    script: &Script,
    log: &Rows<Entry>,
) -> Result<Verdict, AllocError>
    requires { IsSound script.now }
    ensures { IfOk result (λ verdict. verdict ≡ verdict_on prefix script.now log.now.items) }
{
    if prefix {
        check_prefix(alloc, script, log)
    } else {
        check_log(alloc, script, log)
    }
}
