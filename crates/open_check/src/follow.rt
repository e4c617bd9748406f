//! A log that is followed by the calls of its entries.
ghost use Rattle.std.specs.Prelude.{◌<◌, [], List, length};
ghost use Rattle.task_base.specs.Plan.{Plan};
ghost use Rattle.task_base.specs.declared.entry.Entry.{Entry as AnyEntry};
ghost use Rattle.live_core.specs.StandsFor.{StandsFor};
ghost use Rattle.open_check.specs.Following.{AreFollowed, Follows};

use live_core::{Call, LiveCore, Unmade};
use log_replay::same_kind;
use task_base::{Entry, Kind, Place};

/// What is against an entry: what its call answers in place of it.
#[derive(Debug, Drop)]
pub enum Against {
    /// The call is one of the driver, and the entry is another seat's.
    OtherSeat,
    /// The call makes this entry.
    Made { next: Kind },
    /// The call makes no entry, for this.
    Unmade(Unmade),
}

/// The first entry of a log that may not come, and what is against it.
#[derive(Debug, Drop)]
pub struct Stop {
    pub place: Place,
    pub against: Against,
}

/// Makes the entries of a log, by a live core before anything is done, as far as they may come. The error is the first one that may not.
pub fn follow_all(live: &mut LiveCore, log: &[Entry]) -> Result<(), Stop>
    requires fresh { (plan : Plan) × StandsFor plan [] live.old }
    requires few { length log.now < u32.MAX }
    ensures { (plan : Plan) → StandsFor plan [] live.old → AreFollowed plan log.now live.new result }
{
    let mut place = 0;
    for entry in log {
        if let Some(against) = follow_entry(live, *entry) {
            return Err(Stop { place, against });
        }
        place += 1;
    }
    Ok(())
}

/// Makes an entry, where it may come. Else answers what is against it; then the core may have made another entry in its place.
pub fn follow_entry(live: &mut LiveCore, entry: Entry) -> Option<Against>
    requires { (plan : Plan) × (past : List AnyEntry) × StandsFor plan past live.old × (length past < u32.MAX) }
    ensures { (plan : Plan) (past : List AnyEntry) → StandsFor plan past live.old → length past < u32.MAX → Follows plan past entry live.new result }
{
    let call = Call::of_entry(entry.seat, entry.kind);
    if call.seat() != entry.seat {
        return Some(Against::OtherSeat);
    }
    match live.call(call) {
        Ok(kind) => {
            if same_kind(&kind, &entry.kind) {
                return None;
            }
            Some(Against::Made { next: kind })
        }
        Err(why) => Some(Against::Unmade(why)),
    }
}
