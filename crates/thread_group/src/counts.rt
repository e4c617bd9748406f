ghost use Rattle.std.specs.Prelude.{◌≤◌, ◌<◌, ◌^◌, length, [], ◌∷◌};
ghost use Rattle.thread_group.specs.Counts.{AreCounts, IsWithin, HaveRoom, AreMoved};

use crate::work::{Work, is_best_effort};

/// How many seats of a group run work of each kind that decides about its room.
#[derive(Clone, Copy, Debug)]
pub(crate) struct Counts {
    /// Work.
    pub running: u32,
    /// Best-effort work.
    pub best_running: u32,
    /// Work with an open scope that counts.
    pub blocked: u32,
    /// Best-effort work with an open scope that counts.
    pub best_blocked: u32,
    /// Work with an open scope that doesn't count yet.
    pub waiting: u32,
}

/// What one seat adds to the counts at a moment.
pub(crate) fn shares(work: Option<Work>, threshold: u64, now: u64) -> Counts
    ensures { AreCounts threshold now (work ∷ []) result }
{
    let Some(work) = work else {
        return Counts::NONE;
    };
    let best = u32::from(is_best_effort(work.priority));
    let open = u32::from(work.scope.is_some());
    let blocked = u32::from(
        work.scope
            .is_some_and(|opened| opened.counts(threshold, now)),
    );
    Counts {
        running: 1,
        best_running: best,
        blocked,
        best_blocked: best * blocked,
        waiting: open - blocked,
    }
}

impl Counts {
    /// Of no seat, or of seats that run nothing.
    pub const NONE: Counts = Counts {
        running: 0,
        best_running: 0,
        blocked: 0,
        best_blocked: 0,
        waiting: 0,
    };

    /// The counts where one seat's share changes.
    pub fn moved(self, was: Counts, is: Counts) -> Counts
        requires counted { IsWithin was self }
        requires room { HaveRoom self is }
        ensures { AreMoved self result was is }
    {
        Counts {
            running: self.running - was.running + is.running,
            best_running: self.best_running - was.best_running + is.best_running,
            blocked: self.blocked - was.blocked + is.blocked,
            best_blocked: self.best_blocked - was.best_blocked + is.best_blocked,
            waiting: self.waiting - was.waiting + is.waiting,
        }
    }
}

/// The counts at a later moment, from those at an earlier one.
pub(crate) fn at_moment(
    counts: Counts,
    seats: &[Option<Work>],
    threshold: u64,
    before: u64,
    now: u64,
) -> Counts
    requires counted { AreCounts threshold before seats.now counts }
    requires later { before ≤ now }
    requires few { length seats.now < 2 ^ 31 }
    ensures { AreCounts threshold now seats.now result }
{
    let mut moved = counts;
    let mut waiting = counts.waiting;
    for work in seats {
        if waiting == 0 {
            break;
        }
        let was = shares(*work, threshold, before);
        moved = moved.moved(was, shares(*work, threshold, now));
        waiting -= was.waiting;
    }
    moved
}
