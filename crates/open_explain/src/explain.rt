ghost use Rattle.std.specs.Prelude.{◌≡◌, ◌<◌, [], IfOk, length};
ghost use Rattle.task_base.specs.Plan.{opened};
ghost use Rattle.env_check.specs.Verdicts.{prefix_verdict_of};
ghost use Rattle.env_check.specs.declared.verdict.Verdict.{Verdict};
ghost use Rattle.env_explain.specs.Explained.{at_work, work_of};
ghost use Rattle.live_core.specs.StandsFor.{StandsFor};
ghost use Rattle.open_check.specs.Following.{IsStopped};
ghost use Rattle.open_check.specs.Verdicts.{open_verdict_of};
ghost use Rattle.open_explain.specs.Told.{IsTold, NamesAllowed, RulesOut, SaysNothingOfTheEnd, verdict_told};

use crate::cause::cause_of;
use live_core::LiveCore;
use next_entry::{Busy, OpenTold, Work, holding, running};
use open_check::{Stop, follow_all};
use std::alloc::{AllocError, Global};
use task_base::{Entry, Place, Script, SeatNo};

/// Judges a log of a script's open plan as `open_check::check_open` does, by a live core of it before anything is done, and says why
/// it is illegal. The error is out of memory.
pub fn explain_open(
    alloc: Global,
    script: &Script,
    live: &mut LiveCore,
    log: &[Entry],
) -> Result<OpenTold, AllocError>
    requires fresh { StandsFor (opened script.now) [] live.old }
    requires few { length log.now < u32.MAX }
    ensures verdict { IfOk result (λ told. verdict_told told ≡ open_verdict_of (opened script.now) log.now) }
    ensures told { IfOk result (λ told. IsTold (opened script.now) log.now told) }
    ensures named { IfOk result (λ told. NamesAllowed (opened script.now) log.now told) }
    ensures ruled_out { IfOk result (λ told. RulesOut (opened script.now) log.now told) }
{
    if let Err(stop) = follow_all(live, log) {
        return Ok(barred(script, live, log, stop));
    }
    if live.is_quiet() {
        return Ok(OpenTold::Legal);
    }
    let busy = busy_seats(alloc, script, log)?;
    Ok(OpenTold::AtWork {
        place: log.len() as Place,
        busy,
    })
}

/// The same of the beginning of a log, as `open_check::check_open_prefix`: nothing is said of its end. It takes no memory.
pub fn explain_open_prefix(script: &Script, live: &mut LiveCore, log: &[Entry]) -> OpenTold
    requires fresh { StandsFor (opened script.now) [] live.old }
    requires few { length log.now < u32.MAX }
    ensures verdict { verdict_told result ≡ prefix_verdict_of (opened script.now) log.now }
    ensures open_end { SaysNothingOfTheEnd result }
    ensures told { IsTold (opened script.now) log.now result }
    ensures named { NamesAllowed (opened script.now) log.now result }
    ensures ruled_out { RulesOut (opened script.now) log.now result }
{
    match follow_all(live, log) {
        Ok(()) => OpenTold::Legal,
        Err(stop) => barred(script, live, log, stop),
    }
}

/// What is told of a log that stopped at an entry.
fn barred(script: &Script, live: &LiveCore, log: &[Entry], stop: Stop) -> OpenTold
    requires few { length log.now < u32.MAX }
    requires workers { script.now.workers < u32.MAX }
    requires stopped { IsStopped (opened script.now) log.now live.now stop }
    ensures verdict { verdict_told result ≡ Verdict.Illegal stop.place }
    ensures open_end { SaysNothingOfTheEnd result }
    ensures told { IsTold (opened script.now) log.now result }
    ensures named { NamesAllowed (opened script.now) log.now result }
    ensures ruled_out { RulesOut (opened script.now) log.now result }
{
    let Stop { place, against } = stop;
    let at = place as usize;
    match log.get(at) {
        None => unreachable!(),
        Some(entry) => OpenTold::Barred {
            place,
            cause: cause_of(script, live, &log[..at], entry, against),
        },
    }
}

/// The seats that run or hold something after the past, each with that. The error is out of memory.
fn busy_seats(alloc: Global, script: &Script, past: &[Entry]) -> Result<Vec<Busy>, AllocError>
    requires { script.now.workers < u32.MAX }
    ensures { IfOk result (λ busy. busy.items ≡ at_work script.now past.now) }
{
    let mut busy = Vec::new(alloc);
    for seat in 0..script.workers + 1 {
        match work_of(past, seat) {
            None => {}
            Some(work) => busy.push(Busy { seat, work })?,
        }
    }
    Ok(busy)
}

/// What a seat runs, or holds an item of.
fn work_of(past: &[Entry], seat: SeatNo) -> Option<Work>
    ensures { result ≡ work_of past.now seat }
{
    match running(past, seat) {
        Some(work) => Some(Work::Task { task: work.task }),
        None => Some(Work::Item {
            job: holding(past, seat)?.job,
        }),
    }
}
