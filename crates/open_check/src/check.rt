ghost use Rattle.std.specs.Prelude.{◌≡◌, ◌<◌, [], length};
ghost use Rattle.task_base.specs.Plan.{Plan};
ghost use Rattle.env_check.specs.Verdicts.{prefix_verdict_of};
ghost use Rattle.live_core.specs.StandsFor.{StandsFor};
ghost use Rattle.open_check.specs.Verdicts.{open_verdict_of};

use crate::follow::follow_all;
use env_check::Verdict;
use live_core::LiveCore;
use task_base::{Entry, Place};

/// Judges a log of an open plan, by a live core before anything is done: legal exactly where each entry may come after those before
/// it, and no seat runs a task or holds an item at its end. Shutdown need not be done.
pub fn check_open(live: &mut LiveCore, log: &[Entry]) -> Verdict
    requires fresh { (plan : Plan) × StandsFor plan [] live.old }
    requires few { length log.now < u32.MAX }
    ensures { (plan : Plan) → StandsFor plan [] live.old → result ≡ open_verdict_of plan log.now }
{
    if let Err(stop) = follow_all(live, log) {
        return Verdict::Illegal { place: stop.place };
    }
    if live.is_quiet() {
        return Verdict::Legal;
    }
    Verdict::Illegal {
        place: log.len() as Place,
    }
}

/// Judges the beginning of a log of an open plan, as of a process that goes on: legal exactly where each entry may come after those
/// before it.
pub fn check_open_prefix(live: &mut LiveCore, log: &[Entry]) -> Verdict
    requires fresh { (plan : Plan) × StandsFor plan [] live.old }
    requires few { length log.now < u32.MAX }
    ensures { (plan : Plan) → StandsFor plan [] live.old → result ≡ prefix_verdict_of plan log.now }
{
    match follow_all(live, log) {
        Ok(()) => Verdict::Legal,
        Err(stop) => Verdict::Illegal { place: stop.place },
    }
}
