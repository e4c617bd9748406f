//! What the modes with `--open` share: the environment of the open plan of a script, and what a log of it is found to be.
ghost use Rattle.std.specs.Prelude.{◌≡◌, ◌≤◌, [], None, IfOk, IfErr, length};
ghost use Rattle.task_base.specs.Plan.{Plan, opened};
ghost use Rattle.task_base.specs.declared.limits.TheConstants.{MOST_BYTES};
ghost use Rattle.script_model.specs.Laws.Sound.{IsSound};
ghost use Rattle.live_core.specs.StandsFor.{StandsFor};
ghost use Rattle.open_check.specs.Plans.{plan_fault};
ghost use Rattle.app_modes.specs.Opened.{IsJudgedOpen, open_verdict_on};
ghost use Rattle.app_modes.specs.Outcome.{IsNotOpened};

use crate::failure::Failure;
use crate::judged::{Judged, Taken, take_text};
use env_check::Verdict;
use live_core::LiveCore;
use open_check::{PlanFault, check_open, check_open_prefix, open_plan};
use run_log::{lines_before, version_of};
use std::alloc::{AllocError, Global};
use task_base::{Entry, Fault, Script};

/// The environment of the open plan of a script that was read from the text.
pub(crate) fn core_of(alloc: Global, script: &Script, text: &[u8]) -> Result<LiveCore, Failure>
    requires sound { IsSound script.now }
    requires short { length text.now ≤ MOST_BYTES }
    ensures stands { IfOk result (λ live. StandsFor (opened script.now) [] live) }
    ensures right { IfOk result (λ live. plan_fault script.now text.now ≡ None) }
    ensures bad { IfErr result (IsNotOpened script.now text.now) }
{
    let copy = match script.copy(alloc) {
        Ok(copy) => copy,
        Err(error) => return Err(Failure::Common(Fault::NoMemory(error))),
    };
    match open_plan(alloc, copy, text) {
        Ok(live) => Ok(live),
        Err(PlanFault::Bad(bad)) => Err(Failure::BadPlan(bad)),
        Err(PlanFault::Memory(error)) => Err(Failure::Common(Fault::NoMemory(error))),
    }
}

/// Judges whether the text is that of a log which an environment of a plan may write, by one that has done nothing. The error is out of
/// memory.
pub(crate) fn judge_open_log(
    alloc: Global,
    prefix: bool,
    live: &mut LiveCore,
    text: &[u8],
) -> Result<Judged, AllocError>
    requires fresh { (plan : Plan) × StandsFor (opened plan) [] live.old }
    requires short { length text.now ≤ MOST_BYTES }
    ensures { IfOk result (λ judged. (plan : Plan) → StandsFor (opened plan) [] live.old → IsJudgedOpen prefix plan text.now judged) }
{
    let (log, cut) = match take_text(alloc, prefix, text)? {
        Taken::Log { log, cut } => (log, cut),
        Taken::Bad { line } => return Ok(Judged::Wrong { line, cut: None }),
    };
    match open_verdict_on(prefix, live, log.as_slice()) {
        Verdict::Legal => Ok(Judged::Right { log, cut }),
        Verdict::Illegal { place } => Ok(Judged::Wrong {
            line: place + 1 + lines_before(version_of(text)),
            cut,
        }),
    }
}

/// The verdict on a log, by a core that has done nothing: on a whole log, or on the beginning of one.
#[tactic(auto, unfolding(crate::specs::Opened::open_verdict_on))]
fn open_verdict_on(prefix: bool, live: &mut LiveCore, log: &[Entry]) -> Verdict
    requires fresh { (plan : Plan) × StandsFor (opened plan) [] live.old }
    requires few { length log.now ≤ MOST_BYTES }
    ensures { (plan : Plan) → StandsFor (opened plan) [] live.old → result ≡ open_verdict_on prefix plan log.now }
{
    if prefix {
        check_open_prefix(live, log)
    } else {
        check_open(live, log)
    }
}
