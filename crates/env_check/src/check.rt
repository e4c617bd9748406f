ghost use Rattle.std.specs.Prelude.{◌≡◌, ◌↔◌, [], None, IfOk};
ghost use Rattle.script_model.specs.Laws.Sound.{IsSound};
ghost use Rattle.hist_model.specs.Legal.{IsLegal, first_illegal};
ghost use Rattle.hist_model.specs.Script.{IsWhole};
ghost use Rattle.env_check.specs.Verdicts.{prefix_verdict_of, verdict_of};

use crate::verdict::Verdict;
use log_replay::Replay;
use std::alloc::{AllocError, Global};
use task_base::{Entry, Rows, Script};

/// Judges a log of a script: legal exactly where each entry may come after those before it and the whole script is done.
/// The moments of its ticks may be any that never fall, up to the last one of all. The error is want of memory.
pub fn check_log(alloc: Global, script: &Script, log: &Rows<Entry>) -> Result<Verdict, AllocError>
    requires { IsSound script.now }
    ensures verdict { IfOk result (λ verdict. verdict ≡ verdict_of script.now log.now.items) }
    ensures legal { IfOk result (λ verdict. (verdict ≡ Verdict.Legal) ↔ (IsLegal script.now log.now.items × IsWhole script.now log.now.items)) }
{
    let mut replay = Replay::open(alloc, script)?;
    if let Some(place) = follow_all(&mut replay, script, log.as_slice()) {
        replay.discard();
        return Ok(Verdict::Illegal { place });
    }
    let whole = replay.is_whole();
    replay.discard();
    if whole {
        return Ok(Verdict::Legal);
    }
    Ok(Verdict::Illegal {
        place: log.len() as u32,
    })
}

/// Judges the beginning of a log, as of a run that isn't over or was cut off: legal exactly where each entry may come after
/// those before it, whether or not the whole script is done. The error is want of memory.
pub fn check_prefix(
    alloc: Global,
    script: &Script,
    log: &Rows<Entry>,
) -> Result<Verdict, AllocError>
    requires { IsSound script.now }
    ensures verdict { IfOk result (λ verdict. verdict ≡ prefix_verdict_of script.now log.now.items) }
    ensures legal { IfOk result (λ verdict. (verdict ≡ Verdict.Legal) ↔ IsLegal script.now log.now.items) }
{
    let mut replay = Replay::open(alloc, script)?;
    let illegal = follow_all(&mut replay, script, log.as_slice());
    replay.discard();
    match illegal {
        None => Ok(Verdict::Legal),
        Some(place) => Ok(Verdict::Illegal { place }),
    }
}

/// Goes on by these entries as far as they may come. Answers the place of the first one that may not, if there is one.
pub fn follow_all(replay: &mut Replay, script: &Script, entries: &[Entry]) -> Option<u32>
    requires plan { IsSound script.now }
    requires script { replay.old.script ≡ script.now }
    requires empty { replay.old.history ≡ [] }
    ensures place { result ≡ first_illegal script.now entries.now }
    ensures script { result ≡ None → replay.new.script ≡ script.now }
    ensures followed { result ≡ None → replay.new.history ≡ entries.now }
    ensures legal { result ≡ None → IsLegal script.now entries.now }
{
    let mut place = 0;
    for entry in entries {
        if !replay.follow(script, *entry) {
            return Some(place);
        }
        place += 1;
    }
    None
}
