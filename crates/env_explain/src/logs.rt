ghost use Rattle.std.specs.Prelude.{◌≡◌, ◌↔◌, IfOk};
ghost use Rattle.script_model.specs.Laws.Sound.{IsSound};
ghost use Rattle.hist_model.specs.Legal.{IsLegal};
ghost use Rattle.hist_model.specs.Script.{IsWhole};
ghost use Rattle.env_check.specs.Verdicts.{prefix_verdict_of, verdict_of};
ghost use Rattle.env_explain.specs.Explained.{IsExplained, NamesAllowed, RulesOut, SaysNothingOfTheEnd, verdict_told};

use crate::explain::{explain, explain_end};
use env_check::{Verdict, check_log, check_prefix, follow_all};
use log_replay::Replay;
use next_entry::Explanation;
use std::alloc::{AllocError, Global};
use task_base::{Entry, Rows, Script};

/// Judges a log as `check_log` does, and says why it is illegal: which entry would be allowed in the place of the first one
/// that may not come, or what stands against any. It takes at most twice as long. The error is want of memory.
pub fn explain_log(
    alloc: Global,
    script: &Script,
    log: &Rows<Entry>,
) -> Result<Explanation, AllocError>
    requires { IsSound script.now }
    ensures verdict { IfOk result (λ told. verdict_told told ≡ verdict_of script.now log.now.items) }
    ensures legal { IfOk result (λ told. (told ≡ Explanation.Legal) ↔ (IsLegal script.now log.now.items × IsWhole script.now log.now.items)) }
    ensures cause { IfOk result (λ told. IsExplained script.now log.now.items told) }
    ensures named { IfOk result (λ told. NamesAllowed script.now log.now.items told) }
    ensures ruled_out { IfOk result (λ told. RulesOut script.now log.now.items told) }
{
    let verdict = check_log(alloc, script, log)?;
    match verdict {
        Verdict::Legal => Ok(Explanation::Legal),
        Verdict::Illegal { place } => {
            let told = explain_at(alloc, script, log, place)?;
            Ok(told)
        }
    }
}

/// Judges the beginning of a log as `check_prefix` does, and says why it is illegal, as `explain_log` does: whatever is left to be
/// done at its end is no fault of it. The error is out of memory.
pub fn explain_prefix(
    alloc: Global,
    script: &Script,
    log: &Rows<Entry>,
) -> Result<Explanation, AllocError>
    requires { IsSound script.now }
    ensures verdict { IfOk result (λ told. verdict_told told ≡ prefix_verdict_of script.now log.now.items) }
    ensures legal { IfOk result (λ told. (told ≡ Explanation.Legal) ↔ IsLegal script.now log.now.items) }
    ensures open_end { IfOk result SaysNothingOfTheEnd }
    ensures cause { IfOk result (λ told. IsExplained script.now log.now.items told) }
    ensures named { IfOk result (λ told. NamesAllowed script.now log.now.items told) }
    ensures ruled_out { IfOk result (λ told. RulesOut script.now log.now.items told) }
{
    let verdict = check_prefix(alloc, script, log)?;
    match verdict {
        Verdict::Legal => Ok(Explanation::Legal),
        Verdict::Illegal { place } => {
            let told = explain_at(alloc, script, log, place)?;
            Ok(told)
        }
    }
}

/// Why a log is illegal at a place: follows the log up to there, and looks at what may come. The error is want of memory.
fn explain_at(
    alloc: Global,
    script: &Script,
    log: &Rows<Entry>,
    place: u32,
) -> Result<Explanation, AllocError>
    requires plan { IsSound script.now }
    requires illegal { verdict_of script.now log.now.items ≡ Verdict.Illegal place }
    ensures verdict { IfOk result (λ told. verdict_told told ≡ Verdict.Illegal place) }
    ensures cause { IfOk result (λ told. IsExplained script.now log.now.items told) }
{
    let mut replay = Replay::open(alloc, script)?;
    let front = &log.as_slice()[..place as usize];
    follow_all(&mut replay, script, front);
    match log.at(place as usize) {
        Some(entry) => Ok(Explanation::Barred {
            place,
            cause: explain(replay, script, front, *entry),
        }),
        None => explain_end(replay, alloc, script, place),
    }
}
